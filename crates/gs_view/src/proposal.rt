ghost use Rattle.std.specs.Prelude.{◌≡◌, ◌<◌, ◌==◌, ℕ, Some, None, IfOk, OnErr, MatchResult, length, replicate, slice_set};
ghost use Rattle.gs_view.specs.Choice.{answer_of, answerers, greater, greatest, chosen, Chooses};

use gs_base::{Members, Refusal, ServerId};
use std::marker::Model;

/// The counts of edits that servers answered to the proposal of a view.
#[derive(Clone, Copy, Debug)]
pub struct Proposal {
    answers: [Option<u64>; 16],
}

impl Model for Proposal {
    ghost use Rattle.std.specs.Prelude.{List, ℕ, Option, length, ◌≡◌};

    ghost Value = { List (Option ℕ) };

    ghost view = { λ p. p.answers };

    ghost invariant = { λ p. length p.answers ≡ 16 };

    ghost inverse = { λ answers. record { answers = answers } };
}

impl Proposal {
    /// A proposal that nobody has answered.
    pub fn new() -> Proposal
        ensures { result ≡ replicate 16 None }
    {
        Proposal {
            answers: [None; 16],
        }
    }

    /// Takes the count that a server answered, in place of the one that it answered before.
    pub fn answer(&mut self, server: ServerId, count: u64)
        ensures answered { self.new ≡ slice_set self.old server (Some count) }
        ensures servers { length self.new ≡ 16 }
    {
        let place = server.number() as usize;
        self.answers[place] = Some(count);
    }

    /// The count that a server answered last.
    pub fn answer_of(&self, server: ServerId) -> Option<u64>
        ensures { result ≡ answer_of self.now server }
    {
        let at = server.number() as usize;
        self.answers[at]
    }

    /// The members of the next view: those that answered the greatest count, with that count. `NoReplica` where nobody
    /// has answered.
    pub fn choose(&self) -> Result<(Members, u64), Refusal>
        ensures chosen { MatchResult result (λ c. chosen self.now ≡ Some (c.0, c.1)) (λ e. (chosen self.now ≡ None) × (e ≡ Refusal.NoReplica)) }
        ensures choice { IfOk result (λ c. Chooses self.now c.0 c.1) }
        ensures nobody { OnErr result ((server : ℕ) → answer_of self.now server ≡ None) }
    {
        match self.greatest() {
            Some(count) => Ok((self.answerers(count), count)),
            None => Err(Refusal::NoReplica),
        }
    }

    fn greatest(&self) -> Option<u64>
        ensures { result ≡ greatest self.now }
    {
        let mut best = None;
        for answer in &self.answers {
            best = greater(best, *answer);
        }
        best
    }

    fn answerers(&self, count: u64) -> Members
        ensures { result ≡ answerers self.now count }
    {
        let mut members = Members::none();
        for number in 0..16 {
            let server = ServerId::new(number).unwrap();
            if self.answer_of(server) == Some(count) {
                members.insert(server);
            }
        }
        members
    }
}

fn greater(count: Option<u64>, other: Option<u64>) -> Option<u64>
    ensures { result ≡ greater count other }
{
    match (count, other) {
        (None, _) => other,
        (Some(_), None) => count,
        (Some(count), Some(other)) => Some(count.max(other)),
    }
}
