// A checkpoint behind the records of an event.
ghost use Rattle.std.specs.Prelude.{[], ◌<◌, ◌≡◌, ◌≤◌, ◌⊎◌, false, length, None, ℕ};
ghost use Rattle.gs_master.specs.inner.Events.{HasComeFrom};
ghost use Rattle.gs_master.specs.inner.Renewing.{AreCutAnew, AreRenewed, IsCutAnew, IsRenewed, LeavesAnew};
ghost use Rattle.gs_master.specs.inner.Turns.{state_at};
ghost use Rattle.gs_master_plan.specs.Renewable.{IsBehind, IsRenewalOf};
ghost use Rattle.gs_master_record.specs.Plain.{plain, Whole};
ghost use Rattle.gs_master_spec.specs.Durable.{Durable};
ghost use Rattle.gs_master_state.specs.inner.Plans.{log_of};
ghost use Rattle.gs_master_state.specs.inner.Recorded.{durable_of};
ghost use Rattle.gs_master_state.specs.inner.TakingBack.{RoomForAll};
ghost use Rattle.gs_master_spec.specs.Whole.{checkpoint_of};

use crate::event::Event;
use crate::turn::append_all;
use gs_base::Refusal;
use gs_journal::{Disk, Journal};
use gs_master_plan::checkpoint::Renewal;
use gs_master_record::Entry;
use gs_master_state::fault::Fault;
use gs_master_state::log::Log;

impl Event {
    /// All its records are written, and the checkpoint behind them. Nothing of it is taken back any more.
    fn accept_checkpoint(&mut self, renewal: Renewal)
        requires { IsRenewalOf (state_at self.old) renewal }
        ensures renewed { IsRenewed self.old self.new }
        ensures log { self.new.log ≡ renewal.log }
    {
        let Renewal {
            log,
            unlisted,
            placed,
            awaiting,
            ..
        } = renewal;
        self.recorded.let_all_go(&mut self.undos);
        self.recorded.tidy(&unlisted);
        self.memory.accept_new(&placed, awaiting);
        self.log = log;
        self.entries.clear();
        self.written.clear();
    }

    /// Its records are written, and a disk failed at the checkpoint behind them. What was kept in memory alone is as it was.
    fn doubt_checkpoint(&mut self, entry: Entry)
        requires { plain entry ≡ Whole (checkpoint_of (durable_of self.old.recorded)) }
        ensures cut { (before : Durable) (first : _) → HasComeFrom before first self.old → IsCutAnew before first (length self.old.entries.items) self.old self.new }
        ensures log { self.new.log ≡ self.old.log }
    {
        self.recorded.let_all_go(&mut self.undos);
        self.memory.take_back();
        self.fault = Fault::Failed(Some(entry));
        self.entries.clear();
        self.written.clear();
        self.sent = Vec::new(self.alloc);
        self.said = Some(Refusal::Device);
    }

    /// Ends the event with a checkpoint behind its records: writes them to the journal, whose room this was before it. Where a
    /// disk fails at one, that one and those behind it are taken back, with all else of the event. It takes no memory.
    pub fn end_renewed<D: Disk>(&mut self, journal: &mut Journal<D>, first: Log, renewal: Renewal)
        requires room { RoomForAll self.old.recorded self.old.undos.items }
        requires from { (before : Durable) × HasComeFrom before (log_of first) self.old }
        requires counted { first.records ≤ first.size }
        requires renewal { IsRenewalOf (state_at self.old) renewal }
        requires generation { IsBehind journal.old renewal }
        ensures ended { (before : Durable) → HasComeFrom before (log_of first) self.old →
            (AreRenewed D.seen D.may_leave D.failures (log_of first) self.old journal.old self.new journal.new
            ⊎ ((place : ℕ) × AreCutAnew D.seen D.failures before (log_of first) place self.old journal.old self.new journal.new)) }
        ensures counted { self.old.log.records ≤ self.old.log.size → self.new.log.records ≤ self.new.log.size }
        ensures crash { self.old.written.items ≡ [] → journal.old.is_failed ≡ false → LeavesAnew D.seen D.moment D.left_since (durable_of self.old.recorded) journal.old journal.new }
    {
        let many = append_all(journal, &self.written);
        if many < self.written.len() {
            self.cut(many, first, None, Vec::new(self.alloc));
            return;
        }
        match journal.write_draft(&renewal.draft) {
            Ok(()) => self.accept_checkpoint(renewal),
            Err(_) => self.doubt_checkpoint(renewal.entry),
        }
    }
}
