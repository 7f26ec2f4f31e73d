// Scans.
ghost use Rattle.std.specs.Prelude.{Some};
ghost use Rattle.gs_master.specs.Masters.{MasterAnswers};
ghost use Rattle.gs_master.specs.inner.Turns.{GoesBack, IsUnderWay, state_at, EventSteps};
ghost use Rattle.gs_master_spec.specs.Handling.{call_turn};
ghost use Rattle.gs_master_spec.specs.Working.{scanned, scans};
ghost use Rattle.gs_msg.specs.declared.call.Call.TheVariants as calls;

use crate::event::Event;
use crate::master::Master;
use crate::turn::Turn;
use gs_base::{Moment, Refusal, ReqId};
use gs_edit::Scan;
use gs_journal::Disk;
use gs_master_plan::scan::scan_plan;
use gs_msg::{Answer, Call};

impl Event {
    /// What has been deleted long enough goes, then each chunk without a reference. Who waits for one is refused.
    fn sweep(&mut self, req: ReqId, scan: Scan) -> Result<(), Refusal>
        requires { IsUnderWay self.old }
        ensures steps { EventSteps (scanned (state_at self.old) req scan.removed.items scan.forgotten.items) self.old result self.new }
        ensures back { GoesBack self.old self.new }
    {
        let Scan { removed, forgotten } = scan;
        let removals = removed.len() as u64;
        let chunks = forgotten.len() as u64;
        let requests = self.standing().waiting_for(&forgotten)?;
        let plan = scan_plan(self.alloc, removed, forgotten)?;
        if !self.fits(&plan.records)? {
            return self.refuse(req, Refusal::Full);
        }
        self.carry_out(plan)?;
        self.end_all_by(&requests, &Refusal::NoReplica)?;
        self.answer(
            req,
            Answer::Scanned {
                removed: removals,
                forgotten: chunks,
            },
        )
    }

    /// The names are scanned.
    pub fn scan(&mut self, req: ReqId, moment: Moment) -> Result<(), Refusal>
        requires { IsUnderWay self.old }
        ensures steps { EventSteps (scans (state_at self.old) req moment) self.old result self.new }
        ensures back { GoesBack self.old self.new }
    {
        let scan = self.recorded.scan(moment)?;
        self.sweep(req, scan)
    }
}

impl<D: Disk> Master<D> {
    /// Removes for a client's request, as `query` answers one, each hidden entry that was deleted more than 259,200 seconds before this moment,
    /// then forgets each chunk without a reference; a call that waits for one is refused 28. This is GFS's garbage collection. Refused 12 while
    /// rolling back, 11 while preparing, 30 where the journal has no room for all of it: then nothing is removed. The answer is how many entries and how many chunks went.
    pub fn scan(&mut self, req: ReqId, moment: Moment) -> Result<Turn, Refusal>
        ensures { MasterAnswers D.seen D.failures (Some req) (call_turn self.old.config self.old.state req moment calls.Scan) self.old result self.new }
    {
        self.answer_call(req, moment, Call::Scan)
    }
}
