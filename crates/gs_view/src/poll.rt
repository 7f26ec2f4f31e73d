ghost use Rattle.std.specs.Prelude.{◌≡◌};
ghost use Rattle.std.specs.List.{list_all};

use crate::proposal::Proposal;
use gs_base::{Members, ServerId};

/// What servers answered to the proposal of a view: a yes with a count of edits, or a no.
#[derive(Clone, Copy, Debug)]
pub struct Poll {
    /// The counts of those that said yes.
    pub counts: Proposal,
    /// Those that said no, and not yes before or after it.
    pub refused: Members,
}

impl Poll {
    ghost use Rattle.gs_view.specs.Spoken.{no_answers, with_yes, with_no, has_spoken};

    /// The answers to a proposal that nobody has answered.
    pub fn none() -> Poll
        ensures { result ≡ no_answers }
    {
        Poll {
            counts: Proposal::new(),
            refused: Members::none(),
        }
    }

    /// Takes a yes with its count, also after a no.
    pub fn promise(&mut self, server: ServerId, count: u64)
        ensures { self.new ≡ with_yes self.old server count }
    {
        self.counts.answer(server, count);
        self.refused.remove(server);
    }

    /// Takes a no. After a yes it changes nothing.
    pub fn refuse(&mut self, server: ServerId)
        ensures { self.new ≡ with_no self.old server }
    {
        if self.counts.answer_of(server).is_none() {
            self.refused.insert(server);
        }
    }

    /// Whether a server has said yes or no.
    pub fn has_spoken(&self, server: ServerId) -> bool
        ensures { result ≡ has_spoken self.now server }
    {
        self.counts.answer_of(server).is_some() || self.refused.contains(server)
    }

    /// Whether each of these servers has said yes or no.
    pub fn have_all_spoken(&self, asked: Members) -> bool
        ensures { result ≡ list_all (has_spoken self.now) asked }
    {
        let mut left = asked;
        while let Some(server) = left.pop_first() {
            if !self.has_spoken(server) {
                return false;
            }
        }
        true
    }
}
