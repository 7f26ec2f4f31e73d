ghost use Rattle.std.specs.Prelude.{◌≡◌, ◌<◌};
ghost use Rattle.gs_cluster.specs.Calling.{HearsAll, Replied};
ghost use Rattle.gs_cluster.specs.inner.Looking.{Looks, most_looks};

use crate::copying::copy_of;
use crate::patience::Patience;
use gs_base::{Moment, Refusal, ReqId};
use gs_client::{Link, Reply};
use gs_cluster_core::Role;
use gs_cluster_node::{Node, Open, Plan};
use gs_cluster_threads::{LOOKS, Rounds, rest};
use gs_journal::Disk;
use gs_msg::{Event, Happening, Request};
use std::alloc::Global;
use std::sync::{Arc, Wait};
use std::thread;
use std::time::{Clock, Duration};

/// A client of a cluster, at its caller: what it asks goes out at its moment, and it waits for the reply. Where nothing comes for long it asks once more by
/// the same messages. Where that is in vain for long, since nothing is under way any more, nothing came back.
#[derive(Drop)]
pub struct Caller<N: Plan, D: Disk + Drop, R: Wait + Clock + Drop> {
    pub(crate) rt: R,
    pub(crate) alloc: Global,
    pub(crate) node: Node<N, Role<D>>,
    pub(crate) moment: Moment,
    pub(crate) rounds: Arc<Rounds, Global>,
    pub(crate) patience: Patience,
}

/// A copy of what came back, if something did.
fn reply_at<D: Disk + Drop>(alloc: Global, role: &Role<D>) -> Option<Reply>
    ensures { Replied role.now result }
{
    let Role::Client(client) = role else {
        return None;
    };
    Some(copy_of(alloc, client.reply()?))
}

/// Hears a message, if one waits. Else it rests a little, and where it has looked for long, what was asked goes out once more.
fn look<N: Plan, D: Disk + Drop, R: Wait + Clock>(
    rt: &R,
    alloc: Global,
    node: &mut Node<N, Role<D>>,
    rounds: &Rounds,
    patience: &mut Patience,
) -> Result<(), Refusal>
    requires { patience.old.looks < most_looks }
    ensures { Looks D.seen D.failures node.old patience.old result node.new patience.new }
{
    match node.receive(rt, alloc, &Open) {
        Ok(Some(_)) => {
            patience.hear();
            return Ok(());
        }
        Ok(None) => {}
        Err(refusal) => return Err(refusal),
    }
    node.put_waiting(rt);
    rest(rt, patience.looks);
    patience.looks += 1;
    if patience.looks < LOOKS {
        return Ok(());
    }
    node.again(rt, alloc);
    patience.ask_again(rounds);
    Ok(())
}

impl<N: Plan, D: Disk + Drop, R: Wait + Clock + Drop> Caller<N, D, R> {
    /// Sets the moment of what it asks from now on.
    pub fn at(&mut self, moment: Moment)
        ensures node { self.new.node ≡ self.old.node }
        ensures moment { self.new.moment ≡ moment }
    {
        self.moment = moment;
    }

    /// Rests so many milliseconds. Nothing happens to its node meanwhile.
    pub fn pause(&self, millis: u64) {
        thread::sleep(&self.rt, Duration::from_millis(millis));
    }

    /// Rests until what is under way among the master and the servers is done, so many milliseconds at most. Nothing happens to its node
    /// meanwhile.
    pub fn settle(&self, millis: u64) {
        let begun = self.rounds.now();
        for _ in 0..millis {
            if self.rounds.are_behind(begun) {
                return;
            }
            self.pause(1);
        }
    }

    /// Hears what comes, until there is a reply, or it has asked in vain for long.
    fn wait(&mut self) -> Reply
        ensures hears { HearsAll D.seen D.failures self.old.node self.old.patience.vain result self.new.node self.new.patience.vain }
        ensures moment { self.new.moment ≡ self.old.moment }
    {
        let Caller {
            rt,
            alloc,
            node,
            moment: _,
            rounds,
            patience,
        } = self;
        patience.begin(&**rounds);
        for _ in rt.forever() {
            if let Some(reply) = reply_at(*alloc, node.core()) {
                return reply;
            }
            if patience.is_over() {
                return Reply::Lost;
            }
            match look(rt, *alloc, node, &**rounds, patience) {
                Ok(()) => {}
                Err(refusal) => return Reply::Refused(refusal),
            }
        }
        unreachable!()
    }
}

impl<N: Plan, D: Disk + Drop, R: Wait + Clock + Drop> Link for Caller<N, D, R> {
    ghost use Rattle.gs_cluster.specs.Linked.{carried};

    ghost Carries = { carried D.seen D.failures };

    fn request(&mut self, req: ReqId, request: Request) -> Reply {
        let event = Event {
            moment: self.moment,
            happening: Happening::Ask { req, request },
        };
        let asked = self.node.step(&self.rt, self.alloc, &Open, event);
        match asked {
            Ok(Ok(())) => {
                let reply = self.wait();
                self.node.let_go(self.alloc);
                reply
            }
            Ok(Err(refusal)) => Reply::Refused(refusal),
            Err(refusal) => Reply::Refused(refusal),
        }
    }
}
