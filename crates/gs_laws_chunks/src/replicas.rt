//! That live replicas stay, over runs of a store.

ghost use Rattle.gs_laws_chunks.specs.accounts.Running.{Setup};
ghost use Rattle.gs_laws_chunks.specs.replicas.Kept.{ReplicasStay};

use gs_laws_server::an_event_calls_what_it_says;

/// A chunkserver that has a live replica of a chunk has one in each later world of each run.
/// Three things end that: a loss there, a drop that it takes, and a rollback for which it has nothing whole sealed.
/// Messages may come in any order and any number of times, nodes may restart, and disks of the master may fail.
fn live_replicas_stay<D>()
    ensures { (x : Setup D) → ReplicasStay x }
{
    an_event_calls_what_it_says();
}
