// What servers report: chunks that they have lost are made quiet.
ghost use Rattle.gs_master.specs.inner.Turns.{GoesBack, IsUnderWay, state_at, EventSteps};
ghost use Rattle.gs_master_spec.specs.Hearing.{damaged, made_quiet, reported, reported_now};

use crate::event::Event;
use gs_base::{Handle, Refusal, ServerId};
use gs_master_guard::rolling::{may_act_on_report, may_begin};
use gs_msg::Reported;

impl Event {
    /// Chunks are made quiet, if versions are left and the records have room.
    pub fn make_quiet(&mut self, many: &[Handle]) -> Result<(), Refusal>
        requires { IsUnderWay self.old }
        ensures steps { EventSteps (made_quiet many.now (state_at self.old)) self.old result self.new }
        ensures back { GoesBack self.old self.new }
    {
        if !self.recorded.has_versions(many.len() as u64) {
            return Ok(());
        }
        if !self.log.has_room_for_proposals(many.len()) {
            return Ok(());
        }
        self.begin_all(many, None)
    }

    /// Replicas that aren't at home are dropped, and chunks made quiet that the server has lost.
    fn hear_report(&mut self, server: ServerId, replicas: &[Reported]) -> Result<(), Refusal>
        requires { IsUnderWay self.old }
        ensures steps { EventSteps (reported_now (state_at self.old) server replicas.now) self.old result self.new }
        ensures back { GoesBack self.old self.new }
    {
        let drops = self.standing().drops(server, replicas)?;
        let lost = self.standing().lost(server, replicas)?;
        self.send(drops)?;
        self.make_quiet(&lost)
    }

    /// A server tells what it has. One that is behind is told so, and nothing else. While rolling back nothing is dropped, and
    /// nothing is begun.
    pub fn report(
        &mut self,
        server: ServerId,
        epoch: u64,
        replicas: &[Reported],
    ) -> Result<(), Refusal>
        requires { IsUnderWay self.old }
        ensures steps { EventSteps (reported (state_at self.old) server epoch replicas.now) self.old result self.new }
        ensures back { GoesBack self.old self.new }
    {
        if epoch < self.recorded.epoch {
            return self.tell_epoch(server, epoch);
        }
        if !may_act_on_report(self.recorded.phase, epoch, self.recorded.epoch) {
            return Ok(());
        }
        self.hear_report(server, replicas)
    }

    /// A member has a block without its digest. Its stamp isn't looked at.
    pub fn damage(&mut self, server: ServerId, chunk: Handle) -> Result<(), Refusal>
        requires { IsUnderWay self.old }
        ensures steps { EventSteps (damaged (state_at self.old) server chunk) self.old result self.new }
        ensures back { GoesBack self.old self.new }
    {
        if !may_begin(self.recorded.phase) || !self.standing().is_lost_at(server, chunk) {
            return Ok(());
        }
        self.make_quiet(&[chunk])
    }
}
