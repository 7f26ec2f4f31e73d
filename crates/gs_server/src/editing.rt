ghost use Rattle.std.specs.Prelude.{◌≡◌, Some, Err};
ghost use Rattle.std.specs.FinMap as fin;
ghost use Rattle.gs_base.specs.declared.refusal.Refusal.TheVariants.{Memory};
ghost use Rattle.gs_msg.specs.declared.body.Body.TheVariants.{Done};
ghost use Rattle.gs_msg.specs.declared.node.NodeId.TheVariants.{Client};
ghost use Rattle.gs_store.specs.Stores.{slot_of};
ghost use Rattle.gs_server_lease.specs.Leases.{tell};
ghost use Rattle.gs_server.specs.Edits.{is_known_of_all};
ghost use Rattle.gs_server.specs.Edits as edits;
ghost use Rattle.gs_server.specs.Servers.{ServerSteps, step_of, here_of, place_of, store_of};
ghost use Rattle.gs_server.specs.inner.Again.{again_as_refused, again_at, StepsAgain};
ghost use Rattle.gs_server.specs.inner.Answering.{refused_once_by, kept_by, repeated_by};

use crate::numbering::NewEdit;
use crate::server::Server;
use crate::turn::{KeptRefusal, Turn};
use gs_base::{Handle, Moment, Refusal, ReqId, Stamp};
use gs_msg::{Body, Message, NodeId, Op};
use gs_replica::EditOutcome;
use gs_server_lease::{Recency, tell};

impl Server {
    pub(crate) fn answer_edit(&self, req: ReqId, found: Result<EditOutcome, Refusal>) -> Message
        ensures { result ≡ tell self.now.me (Client req.client) (Done req found) }
    {
        tell(
            self.id,
            NodeId::Client(req.client),
            Body::Done { req, result: found },
        )
    }

    /// Refuses an edit. That isn't kept.
    fn refuse_once(&self, req: ReqId, refusal: &Refusal) -> Result<Turn, Refusal>
        ensures { ServerSteps (refused_once_by req refusal.now self.now) result self.now self.now }
    {
        let told = refusal.copy(self.alloc)?;
        let said = refusal.copy(self.alloc)?;
        let mut sent = Vec::new(self.alloc);
        sent.push(self.answer_edit(req, Err(told)))?;
        Ok(Turn {
            sent,
            said: Some(said),
        })
    }

    /// Refuses an edit, and keeps that for its client. Want of memory is handed on.
    pub(crate) fn refuse_edit(
        &mut self,
        handle: Handle,
        req: ReqId,
        refusal: Refusal,
    ) -> Result<Turn, Refusal>
        ensures step { ServerSteps (kept_by handle req refusal self.old) result self.old self.new }
        ensures lacking { refusal ≡ Memory → result ≡ Err Memory }
        ensures unchanged { refusal ≡ Memory → self.new ≡ self.old }
    {
        if let Refusal::Memory = refusal {
            return Err(Refusal::Memory);
        }
        let told = refusal.copy(self.alloc)?;
        let kept = KeptRefusal {
            number: req.number,
            refusal: refusal.copy(self.alloc)?,
        };
        let answer = self.answer_edit(req, Err(told));
        let sent = self.refusal_told(handle, answer, &refusal)?;
        self.refused.reserve(req.client)?;
        self.refused.put(req.client, kept);
        self.mark_by(handle, &refusal);
        Ok(Turn {
            sent,
            said: Some(refusal),
        })
    }

    /// Whether a lease of the promise is held under which the edit of a request doesn't wait.
    fn is_known_of_all(&self, handle: Handle, req: ReqId) -> bool
        ensures { result ≡ is_known_of_all req (slot_of handle (store_of self.now)) (fin.get self.now.dropped.leases handle) }
    {
        match self.leases.get(handle) {
            Some(lease) => lease.stamp() == self.store.promised(handle) && !lease.waits(req),
            None => false,
        }
    }

    /// Answers a client's last edit again, once every member has it.
    fn repeat(&self, handle: Handle, req: ReqId, outcome: EditOutcome) -> Result<Turn, Refusal>
        ensures { ServerSteps (repeated_by req outcome (is_known_of_all req (slot_of handle (store_of self.now)) (fin.get self.now.dropped.leases handle)) self.now) result self.now self.now }
    {
        if !self.is_known_of_all(handle, req) {
            return Ok(Turn::silent(self.alloc));
        }
        let mut sent = Vec::new(self.alloc);
        sent.push(self.answer_edit(req, Ok(outcome)))?;
        Ok(Turn { sent, said: None })
    }

    /// What is answered to an edit that isn't above the client's edit that was refused last. It is `None` of any other.
    fn answer_refused(&self, req: ReqId) -> Option<Result<Turn, Refusal>>
        ensures { StepsAgain (again_as_refused req self.now (fin.get self.now.kept.refused req.client)) result self.now }
    {
        let kept = self.refused.get(req.client)?;
        match Recency::of(req.number, kept.number) {
            Recency::New => None,
            Recency::Repeated => Some(self.refuse_once(req, &kept.refusal)),
            Recency::Old => Some(self.refuse_once(req, &Refusal::Old)),
        }
    }

    /// What is answered to an edit that was heard before. It is `None` of a new one.
    fn answer_again(&self, handle: Handle, req: ReqId) -> Option<Result<Turn, Refusal>>
        ensures { StepsAgain (again_at handle req self.now) result self.now }
    {
        let Some(last) = self.store.done(handle, req.client) else {
            return self.answer_refused(req);
        };
        match Recency::of(req.number, last.number) {
            Recency::New => self.answer_refused(req),
            Recency::Repeated => Some(self.repeat(handle, req, last.outcome)),
            Recency::Old => Some(self.refuse_once(req, &Refusal::Old)),
        }
    }

    /// An edit that a client asks for. One that was heard before is answered again, and a new one is numbered.
    pub(crate) fn edit(
        &mut self,
        handle: Handle,
        req: ReqId,
        stamp: Stamp,
        op: Op,
        moment: Moment,
    ) -> Result<Turn, Refusal>
        ensures { ServerSteps (step_of handle (Some req) (edits.edit (here_of self.old moment handle (Some req)) (place_of handle self.old) req stamp op) self.old) result self.old self.new }
    {
        if let Some(answered) = self.answer_again(handle, req) {
            return answered;
        }
        let chunk = self.store.sizes().chunk;
        self.new_edit(chunk, handle, NewEdit { req, stamp, op }, moment)
    }
}
