// Messages as they come, and what the master does for servers.
ghost use Rattle.gs_base.specs.declared.refusal.Refusal.TheVariants as refusals;
ghost use Rattle.gs_master.specs.inner.StartingOver.{IsBegun};
ghost use Rattle.gs_master.specs.inner.Turns.{GoesBack, IsUnderWay, state_at, EventSteps};
ghost use Rattle.gs_master_spec.specs.Handling.{about_turn, from_client, from_server, granted, handle, pressed, proposals, server_turn};
ghost use Rattle.gs_master_spec.specs.Hearing.{behind, is_leased_under, learned, next_epoch, renewed, sends};
ghost use Rattle.gs_master_spec.specs.State.{and_then, for_each, met_by};

use crate::event::Event;
use crate::view::Promise;
use gs_base::{Config, Handle, Moment, Refusal, ServerId, Stamp};
use gs_master_plan::message::about;
use gs_master_record::Phase;
use gs_master_spec::asking::end_of;
use gs_master_spec::change::Change;
use gs_master_state::plan::Plan;
use gs_msg::{Body, Chunk, Items, Message, NodeId};

impl Event {
    /// Messages are sent, and nothing else is done.
    pub fn send(&mut self, messages: Vec<Message>) -> Result<(), Refusal>
        requires { IsUnderWay self.old }
        ensures steps { EventSteps (sends (state_at self.old) messages.items) self.old result self.new }
        ensures back { GoesBack self.old self.new }
    {
        let mut plan = Plan::nothing(self.alloc);
        plan.sent = messages;
        self.carry_out(plan)
    }

    /// A message is met by a refusal that no message tells.
    pub fn meet_by(&mut self, refusal: Refusal) -> Result<(), Refusal>
        requires { IsUnderWay self.old }
        ensures steps { EventSteps (met_by (state_at self.old) refusal) self.old result self.new }
        ensures back { GoesBack self.old self.new }
    {
        let mut plan = Plan::nothing(self.alloc);
        plan.said = Some(refusal);
        self.carry_out(plan)
    }

    /// A lease that stands is renewed at its primary, while nothing is prepared. The master's own end stays.
    pub fn renew(
        &mut self,
        server: ServerId,
        chunk: Handle,
        stamp: Stamp,
        moment: Moment,
    ) -> Result<(), Refusal>
        requires { IsUnderWay self.old }
        ensures steps { EventSteps (renewed (state_at self.old) server chunk stamp moment) self.old result self.new }
        ensures back { GoesBack self.old self.new }
    {
        let standing = self.standing();
        if !standing.is_leased_under(stamp, chunk) || standing.memory.is_preparing() {
            return Ok(());
        }
        let end = end_of(moment);
        let renewed = about(chunk, Chunk::Renewed { stamp, end }, server);
        let messages = vec![in self.alloc; renewed]?;
        self.send(messages)
    }

    /// A server that is behind is told how its epoch ended.
    pub fn tell_epoch(&mut self, server: ServerId, epoch: u64) -> Result<(), Refusal>
        requires { IsUnderWay self.old }
        ensures steps { EventSteps (sends (state_at self.old) (next_epoch (state_at self.old).durable server epoch)) self.old result self.new }
        ensures back { GoesBack self.old self.new }
    {
        let messages = self.recorded.next_epoch(server, epoch)?;
        self.send(messages)
    }

    /// A server says that it is behind. It is told how its epoch ended, if it is.
    pub fn behind(&mut self, server: ServerId, epoch: u64) -> Result<(), Refusal>
        requires { IsUnderWay self.old }
        ensures steps { EventSteps (behind (state_at self.old) server epoch) self.old result self.new }
        ensures back { GoesBack self.old self.new }
    {
        if epoch < self.recorded.epoch {
            return self.tell_epoch(server, epoch);
        }
        Ok(())
    }

    /// While rolling back it is kept who has which chunks as they were sealed.
    pub fn learn(
        &mut self,
        server: ServerId,
        epoch: u64,
        handles: Items<Handle>,
    ) -> Result<(), Refusal>
        requires { IsUnderWay self.old }
        ensures steps { EventSteps (learned (state_at self.old) server epoch handles) self.old result self.new }
        ensures back { GoesBack self.old self.new }
    {
        if epoch < self.recorded.epoch {
            return self.tell_epoch(server, epoch);
        }
        if self.recorded.phase != Phase::Rolling || epoch != self.recorded.epoch {
            return Ok(());
        }
        let mut plan = Plan::nothing(self.alloc);
        plan.changes.push(Change::Restored(server, handles))?;
        self.carry_out(plan)
    }

    /// What a server says about a chunk.
    fn hear_about(
        &mut self,
        server: ServerId,
        chunk: Handle,
        moment: Moment,
        said: &Chunk,
    ) -> Result<(), Refusal>
        requires { IsUnderWay self.old }
        ensures steps { EventSteps (about_turn (state_at self.old) server chunk moment said.now) self.old result self.new }
        ensures back { GoesBack self.old self.new }
    {
        match said {
            Chunk::Promised {
                stamp,
                count,
                carried,
            } => {
                let promise = Promise {
                    server,
                    stamp: *stamp,
                    count: *count,
                    carried: *carried,
                };
                self.promised(chunk, promise, moment)
            },
            Chunk::Unpromised { stamp, .. } => self.unpromised(server, chunk, *stamp, moment),
            Chunk::Renew(stamp) => self.renew(server, chunk, *stamp, moment),
            Chunk::Bad(_) => self.damage(server, chunk),
            _ => self.meet_by(Refusal::Stray),
        }
    }

    /// What a server says.
    fn hear_server(&mut self, server: ServerId, moment: Moment, said: &Body) -> Result<(), Refusal>
        requires { IsUnderWay self.old }
        ensures steps { EventSteps (server_turn (state_at self.old) server moment said.now) self.old result self.new }
        ensures back { GoesBack self.old self.new }
    {
        match said {
            Body::About(chunk, said) => self.hear_about(server, *chunk, moment, said),
            Body::Report { epoch, replicas } => self.report(server, *epoch, replicas.as_slice()),
            Body::Learned { epoch, handles } => {
                let handles = handles.copy(self.alloc)?;
                self.learn(server, *epoch, handles)
            },
            Body::Behind { epoch } => self.behind(server, *epoch),
            _ => self.meet_by(Refusal::Stray),
        }
    }

    /// What a server says. Once a disk has failed, nothing is done for it.
    pub fn serve(&mut self, server: ServerId, moment: Moment, said: &Body) -> Result<(), Refusal>
        requires { IsUnderWay self.old }
        ensures steps { EventSteps (from_server (state_at self.old) server moment said.now) self.old result self.new }
        ensures back { GoesBack self.old self.new }
    {
        if self.fault.is_failed() {
            return self.meet_by(Refusal::Device);
        }
        self.hear_server(server, moment, said)
    }

    /// Each proposal that stands is settled or given up. What is begun in the same tick waits for the next.
    fn press_all(&mut self, moment: Moment) -> Result<(), Refusal>
        requires { IsUnderWay self.old }
        ensures steps { EventSteps (for_each (state_at self.old) (proposals (state_at self.old)) (pressed moment)) self.old result self.new }
        ensures back { GoesBack self.old self.new }
    {
        let proposals = self.standing().proposals()?;
        self.press_each(&proposals, moment)
    }

    /// These proposals are settled or given up, in this order.
    fn press_each(&mut self, proposals: &[(Handle, Stamp)], moment: Moment) -> Result<(), Refusal>
        requires { IsUnderWay self.old }
        ensures steps { EventSteps (for_each (state_at self.old) proposals.now (pressed moment)) self.old result self.new }
        ensures back { GoesBack self.old self.new }
    {
        for proposal in proposals {
            let (chunk, stamp) = *proposal;
            self.press(chunk, stamp, moment)?;
        }
        Ok(())
    }

    /// Every lease is granted again.
    fn grant_all(&mut self) -> Result<(), Refusal>
        requires { IsUnderWay self.old }
        ensures steps { EventSteps (granted (state_at self.old)) self.old result self.new }
        ensures back { GoesBack self.old self.new }
    {
        let messages = self.standing().grants()?;
        self.send(messages)
    }

    /// What a tick does before it writes a checkpoint: proposals are settled or given up, and leases granted again.
    pub fn tick(&mut self, moment: Moment) -> Result<(), Refusal>
        requires { IsUnderWay self.old }
        ensures steps { EventSteps (and_then (for_each (state_at self.old) (proposals (state_at self.old)) (pressed moment)) granted) self.old result self.new }
        ensures back { GoesBack self.old self.new }
    {
        self.press_all(moment)?;
        self.grant_all()
    }

    /// A message that isn't for the master.
    fn meet_stray(&mut self, stray: Body) -> Result<(), Refusal>
        requires { IsUnderWay self.old }
        ensures steps { EventSteps (met_by (state_at self.old) refusals.Stray) self.old result self.new }
        ensures back { GoesBack self.old self.new }
    {
        drop(stray);
        self.meet_by(Refusal::Stray)
    }

    /// What a client says. Its calls are taken, and all else is a stray.
    fn hear_client(&mut self, config: &Config, moment: Moment, said: Body) -> Result<(), Refusal>
        requires ready { IsUnderWay self.old }
        requires begun { IsBegun self.old }
        ensures steps { EventSteps (from_client config.now (state_at self.old) moment said) self.old result self.new }
        ensures back { GoesBack self.old self.new }
    {
        match said {
            Body::Call { req, call } => self.take_call(config, req, moment, call),
            stray => self.meet_stray(stray),
        }
    }

    /// A message is taken. One that isn't for the master is a stray.
    #[tactic(auto, unfolding(gs_master_spec::specs::Handling::handle))]
    pub fn take(&mut self, config: &Config, message: Message, moment: Moment) -> Result<(), Refusal>
        requires ready { IsUnderWay self.old }
        requires begun { IsBegun self.old }
        ensures steps { EventSteps (handle config.now (state_at self.old) message moment) self.old result self.new }
        ensures back { GoesBack self.old self.new }
    {
        let Message { from, to: _, body } = message;
        match from {
            NodeId::Master => self.meet_stray(body),
            NodeId::Server(server) => {
                let served = self.serve(server, moment, &body);
                drop(body);
                served
            }
            NodeId::Client(_) => self.hear_client(config, moment, body),
        }
    }
}
