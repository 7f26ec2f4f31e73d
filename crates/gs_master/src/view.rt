// Views that are begun, and what follows of the answers to a proposal.
ghost use Rattle.gs_lease.specs.declared.view.Purpose.TheVariants as purposes;
ghost use Rattle.gs_master.specs.inner.Turns.{GoesBack, IsUnderWay, state_at, EventSteps};
ghost use Rattle.gs_master_spec.specs.Beginning.{all_begun, begun};
ghost use Rattle.gs_master_spec.specs.Chunks.{Chunk, view_by};
ghost use Rattle.gs_master_spec.specs.Handling.{pressed};
ghost use Rattle.gs_master_spec.specs.Hearing.{heard, promised, stepped, unpromised};
ghost use Rattle.gs_master_spec.specs.Settling.{settled_by, settled_on};

use crate::event::Event;
use gs_base::{Handle, Moment, Refusal, ReqId, ServerId, Stamp};
use gs_lease::{Purpose, View};
use gs_master_guard::sealing::is_with_sealed;
use gs_master_plan::view::{ask_plan, send_plan};
use gs_master_spec::asking::{Asking, Step};
use gs_view::Poll;

/// What a server answers to a proposal.
#[derive(Clone, Copy, Debug)]
pub(crate) struct Promise {
    pub(crate) server: ServerId,
    pub(crate) stamp: Stamp,
    pub(crate) count: u64,
    /// Whether the copy carried its sealed image.
    pub(crate) carried: bool,
}

impl Event {
    /// A view of a chunk is begun on its members.
    pub fn begin(
        &mut self,
        chunk: Handle,
        purpose: Purpose,
        call: Option<ReqId>,
    ) -> Result<(), Refusal>
        requires { IsUnderWay self.old }
        ensures steps { EventSteps (begun (state_at self.old) chunk purpose call) self.old result self.new }
        ensures back { GoesBack self.old self.new }
    {
        let plan = self.standing().begin_at(chunk, purpose, call)?;
        self.carry_out(plan)
    }

    /// Views of several chunks are begun that make them quiet, in this order.
    pub fn begin_all(&mut self, chunks: &[Handle], call: Option<ReqId>) -> Result<(), Refusal>
        requires { IsUnderWay self.old }
        ensures steps { EventSteps (all_begun (state_at self.old) chunks.now purposes.Quiet call) self.old result self.new }
        ensures back { GoesBack self.old self.new }
    {
        for chunk in chunks {
            self.begin(*chunk, Purpose::Quiet, call)?;
        }
        Ok(())
    }

    /// A chunk is settled on a view, and the calls that it concerns go on. Without room for the view nothing is settled, and
    /// they are refused.
    fn settle_on(
        &mut self,
        chunk: Handle,
        asking: &Asking,
        carried: bool,
        view: &View,
    ) -> Result<(), Refusal>
        requires { IsUnderWay self.old }
        ensures steps { EventSteps (settled_on (state_at self.old) chunk asking.now carried view.now) self.old result self.new }
        ensures back { GoesBack self.old self.new }
    {
        let plan = self.standing().settle_plan(chunk, asking, carried, view)?;
        if !self.fits(&plan.records)? {
            return self.refuse_all(chunk, asking.call, &Refusal::Full);
        }
        let calls = self.standing().concerned(chunk, asking.call)?;
        self.carry_out(plan)?;
        self.all_go_on(view, &calls)
    }

    /// A chunk is settled by these answers, and the calls that it concerns go on.
    #[tactic(auto, unfolding(gs_master_spec::specs::Settling::settled_by))]
    fn settle_by(
        &mut self,
        chunk: Handle,
        asking: &Asking,
        carried: bool,
        answers: &Poll,
        moment: Moment,
    ) -> Result<(), Refusal>
        requires { IsUnderWay self.old }
        ensures steps { (c : Chunk) → EventSteps (settled_by (state_at self.old) chunk c asking.now carried answers.now moment) self.old result self.new }
        ensures back { GoesBack self.old self.new }
    {
        match asking.view_by(answers, moment) {
            Some(view) => self.settle_on(chunk, asking, carried, &view),
            None => Ok(()),
        }
    }

    /// What follows of an answer is done.
    pub fn step(
        &mut self,
        chunk: Handle,
        asking: &Asking,
        carried: bool,
        moment: Moment,
        step: Step,
    ) -> Result<(), Refusal>
        requires { IsUnderWay self.old }
        ensures steps { (c : Chunk) → EventSteps (stepped (state_at self.old) chunk c asking.now carried moment step) self.old result self.new }
        ensures back { GoesBack self.old self.new }
    {
        match step {
            Step::Wait => Ok(()),
            Step::Send { source, target } => {
                let prepared = self.recorded.prepared_view(chunk);
                let with_sealed = is_with_sealed(self.recorded.phase, prepared, source);
                let plan = send_plan(self.alloc, chunk, asking, source, target, with_sealed)?;
                self.carry_out(plan)
            },
            Step::Settle(answers) => self.settle_by(chunk, asking, carried, &answers, moment),
            Step::Fail => self.fail(chunk, asking.call),
        }
    }

    /// An answer is kept, and what follows of it is done.
    pub fn hear(
        &mut self,
        chunk: Handle,
        asking: &Asking,
        carried: bool,
        moment: Moment,
        step: Step,
    ) -> Result<(), Refusal>
        requires { IsUnderWay self.old }
        ensures steps { (c : Chunk) → EventSteps (heard (state_at self.old) chunk c asking.now carried moment step) self.old result self.new }
        ensures back { GoesBack self.old self.new }
    {
        let plan = ask_plan(self.alloc, chunk, *asking)?;
        self.carry_out(plan)?;
        self.step(chunk, asking, carried, moment, step)
    }

    /// A server has promised. Its answer counts where its stamp is asked for and it is asked.
    pub fn promised(
        &mut self,
        chunk: Handle,
        promise: Promise,
        moment: Moment,
    ) -> Result<(), Refusal>
        requires { IsUnderWay self.old }
        ensures steps { EventSteps (promised (state_at self.old) promise.server chunk promise.stamp promise.count promise.carried moment) self.old result self.new }
        ensures back { GoesBack self.old self.new }
    {
        let Promise {
            server,
            stamp,
            count,
            carried,
        } = promise;
        let Some(asking) = self.standing().asking_at(chunk) else {
            return Ok(());
        };
        if !asking.hears(stamp, server) {
            return Ok(());
        }
        let step = asking.step_of_yes(server, count);
        let with_image = asking.is_carried(server, carried);
        let mut heard = asking;
        heard.hear_yes(server, count);
        self.hear(chunk, &heard, with_image, moment, step)
    }

    /// A server has refused to promise. That counts as a promise does.
    pub fn unpromised(
        &mut self,
        server: ServerId,
        chunk: Handle,
        stamp: Stamp,
        moment: Moment,
    ) -> Result<(), Refusal>
        requires { IsUnderWay self.old }
        ensures steps { EventSteps (unpromised (state_at self.old) server chunk stamp moment) self.old result self.new }
        ensures back { GoesBack self.old self.new }
    {
        let Some(asking) = self.standing().asking_at(chunk) else {
            return Ok(());
        };
        if !asking.hears(stamp, server) {
            return Ok(());
        }
        let step = asking.step_of_no(server);
        let mut heard = asking;
        heard.hear_no(server);
        self.hear(chunk, &heard, false, moment, step)
    }

    /// A proposal that stands at a tick is settled by one yes, and its call is refused without one.
    pub fn press(&mut self, chunk: Handle, stamp: Stamp, moment: Moment) -> Result<(), Refusal>
        requires { IsUnderWay self.old }
        ensures steps { EventSteps (pressed moment (chunk, stamp) (state_at self.old)) self.old result self.new }
        ensures back { GoesBack self.old self.new }
    {
        let Some(asking) = self.standing().asking_at(chunk) else {
            return Ok(());
        };
        if !asking.is_under(stamp) {
            return Ok(());
        }
        let step = asking.step_at_tick();
        self.step(chunk, &asking, false, moment, step)
    }
}
