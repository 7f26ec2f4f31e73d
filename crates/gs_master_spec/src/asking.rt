ghost use Rattle.std.specs.Prelude.{◌≡◌, ◌&&◌, ◌++◌, ◌∷◌, [], IfOk, map};
ghost use Rattle.gs_base.specs.Stamps.{is_same};
ghost use Rattle.gs_lease.specs.Transitions.{end_of, term_of};
ghost use Rattle.gs_master_record.specs.Plain as entries;
ghost use Rattle.gs_master_record.specs.Plain.{plain};
ghost use Rattle.gs_master_spec.specs.Chunks.{Chunk, holder_records, target_of, view_by};
ghost use Rattle.gs_master_spec.specs.Volatile.{is_call};

use gs_base::{Handle, Members, Moment, ReqId, ServerId, Stamp};
use gs_lease::{Purpose, Term, View, is_any_asked};
use gs_master_record::{Entry, SettledView};
use gs_view::Poll;
use std::alloc::{AllocError, Global};

/// Who is asked for the next view of a chunk, and what they have answered.
#[derive(Clone, Copy, Debug)]
pub struct Asking {
    pub stamp: Stamp,
    pub purpose: Purpose,
    /// The members of the settled view, or the targets of a new chunk. The target of a copy isn't among them.
    pub asked: Members,
    pub answers: Poll,
    /// The member that was told to send its copy to the target, once one was.
    pub source: Option<ServerId>,
    /// The call that waits for the view, if one does.
    pub call: Option<ReqId>,
}

/// The view of a chunk as it stood at prepare, and who holds a copy with its sealed image since.
#[derive(Clone, Copy, Debug, PartialEq, Eq)]
pub struct Prepared {
    pub view: View,
    pub holders: Members,
}

/// What follows of an answer to a proposal.
#[derive(Clone, Copy, Debug)]
pub enum Step {
    /// More answers are waited for.
    Wait,
    /// A member is told to send its copy to the target.
    Send { source: ServerId, target: ServerId },
    /// The view is settled by these answers.
    Settle(Poll),
    /// Nobody has promised.
    Fail,
}

/// The server that gets a copy, where a view is proposed for that.
fn target_of(purpose: Purpose) -> Option<ServerId>
    ensures { result ≡ target_of purpose }
{
    match purpose {
        Purpose::Quiet | Purpose::Lease => None,
        Purpose::Copy(target) => Some(target),
    }
}

/// A term of 60 ends there.
pub fn end_of(moment: Moment) -> Moment
    ensures { result ≡ end_of moment }
{
    Moment(moment.0.saturating_add(60))
}

impl Asking {
    ghost use Rattle.gs_master_spec.specs.Chunks.{asking_for, is_target, hears, have_all_spoken, has_yes, heard_yes, heard_no, ends_copy, step_after, step_of_yes, step_of_no, step_at_tick, with_target, source_in};

    /// What is asked when a view is begun: nobody has answered yet.
    pub fn of(stamp: Stamp, purpose: Purpose, asked: Members, call: Option<ReqId>) -> Asking
        ensures { result ≡ asking_for stamp purpose asked call }
    {
        Asking {
            stamp,
            purpose,
            asked,
            answers: Poll::none(),
            source: None,
            call,
        }
    }

    /// Whether a server is the target of the copy.
    pub fn is_target(&self, server: ServerId) -> bool
        ensures { result ≡ is_target self.now server }
    {
        target_of(self.purpose) == Some(server)
    }

    /// Whether an answer under this stamp counts.
    pub fn hears(&self, stamp: Stamp, server: ServerId) -> bool
        ensures { result ≡ hears self.now stamp server }
    {
        self.stamp == stamp && (self.asked.contains(server) || self.is_target(server))
    }

    /// Whether a view is asked for under this stamp.
    pub fn is_under(&self, stamp: Stamp) -> bool
        ensures { result ≡ is_same self.now.stamp stamp }
    {
        self.stamp == stamp
    }

    /// Whether an answer is the target's, whose copy carried its sealed image.
    pub fn is_carried(&self, server: ServerId, carried: bool) -> bool
        ensures { result ≡ (carried && is_target self.now server) }
    {
        carried && self.is_target(server)
    }

    /// Takes a yes of one who was asked.
    pub fn hear_yes(&mut self, server: ServerId, count: u64)
        ensures { self.new ≡ heard_yes self.old server count }
    {
        if self.asked.contains(server) {
            self.answers.promise(server, count);
        }
    }

    /// Takes a no of one who was asked.
    pub fn hear_no(&mut self, server: ServerId)
        ensures { self.new ≡ heard_no self.old server }
    {
        if self.asked.contains(server) {
            self.answers.refuse(server);
        }
    }

    fn has_yes(&self) -> bool
        ensures { result ≡ has_yes self.now }
    {
        self.answers.counts.choose().is_ok()
    }

    fn source_in(&self) -> Option<ServerId>
        ensures { result ≡ source_in self.now }
    {
        let Ok((members, _)) = self.answers.counts.choose() else {
            return None;
        };
        members.first()
    }

    /// What follows once an answer of one who was asked is taken.
    fn step(&self) -> Step
        ensures { result ≡ step_after self.now }
    {
        if !self.answers.have_all_spoken(self.asked) {
            return Step::Wait;
        }
        if !self.has_yes() {
            return Step::Fail;
        }
        let Some(target) = target_of(self.purpose) else {
            return Step::Settle(self.answers);
        };
        if self.source.is_some() {
            return Step::Wait;
        }
        match self.source_in() {
            Some(source) => Step::Send { source, target },
            None => Step::Fail,
        }
    }

    /// The answers with the target's, where nobody has more edits than it and somebody as many.
    fn with_target(&self, target: ServerId, count: u64) -> Poll
        ensures { result ≡ with_target self.now target count }
    {
        let mut answers = self.answers;
        if let Ok((_, most)) = answers.counts.choose() {
            if most == count {
                answers.promise(target, count);
            }
        }
        answers
    }

    /// What follows of a yes.
    pub fn step_of_yes(&self, server: ServerId, count: u64) -> Step
        ensures { result ≡ step_of_yes self.now server count }
    {
        if self.asked.contains(server) {
            let mut heard = *self;
            heard.hear_yes(server, count);
            return heard.step();
        }
        match self.source {
            Some(_) => Step::Settle(self.with_target(server, count)),
            None => Step::Wait,
        }
    }

    fn ends_copy(&self, server: ServerId) -> bool
        ensures { result ≡ ends_copy self.now server }
    {
        self.source.is_some() && (self.is_target(server) || self.source == Some(server))
    }

    /// What follows of a no.
    pub fn step_of_no(&self, server: ServerId) -> Step
        ensures { result ≡ step_of_no self.now server }
    {
        if self.ends_copy(server) {
            return Step::Settle(self.answers);
        }
        if !self.asked.contains(server) {
            return Step::Wait;
        }
        let mut heard = *self;
        heard.hear_no(server);
        heard.step()
    }

    /// What is done at a tick.
    pub fn step_at_tick(&self) -> Step
        ensures { result ≡ step_at_tick self.now }
    {
        if self.has_yes() {
            Step::Settle(self.answers)
        } else {
            Step::Fail
        }
    }

    /// Whether the chunk moves for this call.
    pub fn is_for(&self, req: ReqId) -> bool
        ensures { result ≡ is_call req self.now.call }
    {
        self.call == Some(req)
    }

    /// The lease that is given to the lowest member, where the view was proposed for that.
    fn term_of(&self, members: Members, moment: Moment) -> Option<Term>
        ensures { result ≡ term_of self.now.purpose members moment }
    {
        if self.purpose != Purpose::Lease {
            return None;
        }
        let primary = members.first()?;
        let end = end_of(moment);
        Some(Term { primary, end })
    }

    /// The view on those that answered the most edits, where one of them was asked.
    pub fn view_by(&self, answers: &Poll, moment: Moment) -> Option<View>
        ensures { (c : Chunk) → result ≡ view_by c self.now answers.now moment }
    {
        let Ok((members, count)) = answers.counts.choose() else {
            return None;
        };
        if !is_any_asked(self.asked, members) {
            return None;
        }
        Some(View {
            stamp: self.stamp,
            count,
            members,
            term: self.term_of(members, moment),
        })
    }

    /// The records of a view that is settled. Before the view, the target of a copy is told as a holder, if it is one.
    pub fn settling(
        &self,
        alloc: Global,
        holds: bool,
        chunk: Handle,
        view: &View,
    ) -> Result<Vec<Entry>, AllocError>
        ensures { IfOk result (λ records. map plain records.items ≡ holder_records holds chunk (target_of self.now.purpose) ++ entries.Settle (record { handle = chunk; view = view.now }) ∷ []) }
    {
        let handle = chunk;
        let view = *view;
        let mut records = Vec::new(alloc);
        if let Purpose::Copy(server) = self.purpose {
            if holds {
                records.push(Entry::Holder { handle, server })?;
            }
        }
        records.push(Entry::Settle(SettledView { handle, view }))?;
        Ok(records)
    }
}
