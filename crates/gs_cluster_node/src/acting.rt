// What comes of what a node takes, and its history with that.
ghost use Rattle.std.specs.Prelude.{◌≡◌};
ghost use Rattle.gs_cluster_history.specs.Histories.{moment_of, out_of, said_of};
ghost use Rattle.gs_cluster_history.specs.Logs.{told};
ghost use Rattle.gs_cluster_node.specs.inner.Acting.{Acts};

use gs_base::{Moment, Refusal};
use gs_cluster_history::{Core, Deed, Log, Note, Took, Turn};
use gs_msg::Message;
use std::alloc::Global;

/// What goes out at an event, at which moment, and what is said.
pub(crate) struct Done {
    pub(crate) out: Vec<Message>,
    pub(crate) moment: Moment,
    pub(crate) said: Result<(), Refusal>,
}

fn moment_of(took: &Took) -> Moment
    ensures { result ≡ moment_of took.now }
{
    match took {
        Took::Heard(sent) => sent.moment,
        Took::Did(event) => event.moment,
    }
}

/// What a deed sends and says.
fn parts_of(alloc: Global, done: Result<Turn, Refusal>, moment: Moment) -> Done
    ensures out { result.out.items ≡ out_of (told done) }
    ensures moment { result.moment ≡ moment }
    ensures said { result.said ≡ said_of (told done) }
{
    match done {
        Ok(Turn { sent, said }) => Done {
            out: sent,
            moment,
            said: match said {
                Some(refusal) => Err(refusal),
                None => Ok(()),
            },
        },
        Err(refusal) => Done {
            out: Vec::new(alloc),
            moment,
            said: Err(refusal),
        },
    }
}

/// A core takes something, and its history goes on by that.
pub(crate) fn act<C: Core>(
    alloc: Global,
    core: &mut C,
    log: &mut Log,
    clock: u64,
    took: Took,
) -> Done
    ensures { Acts C.Does took clock core.old log.old.entries log.old.sent result.out.items result.moment result.said core.new log.new.entries log.new.sent }
{
    let moment = moment_of(&took);
    let note = Note::of(&took);
    let done = core.take(alloc, took);
    let deed = Deed { note, clock, done };
    *log = log.then(&deed);
    let Deed {
        note: _,
        clock: _,
        done,
    } = deed;
    parts_of(alloc, done, moment)
}
