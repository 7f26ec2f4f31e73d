ghost use Rattle.std.specs.Prelude.{◌≡◌, ◌&&◌, IfOk};
ghost use Rattle.gs_base.specs.Stamps.{is_same};
ghost use Rattle.gs_block.specs.Stored.{are_digests};
ghost use Rattle.gs_base.specs.Calls.{Answers};
ghost use Rattle.gs_replica.specs.Seals.{roll_back};
ghost use Rattle.gs_store_seal.specs.Rollback.{later};

use gs_base::{Refusal, Refused, Stamp};
use gs_replica::Replica;

/// Makes what was sealed live again at a rollback, under the later of the promise of its handle and the stamp with which the
/// new epoch starts. `Damaged` names the lowest block that undoing gives without its sealed digest, and `BadLine` is of a
/// replica that is not sealed; a refused one goes. It takes no memory.
pub fn restore(sealed: Replica, promise: Stamp, start: Stamp) -> Result<Replica, Refusal>
    ensures restored { Answers (λ replica. replica) (roll_back (later promise start) sealed) result }
    ensures promise { IfOk result (λ replica. replica.held.promise ≡ later promise start) }
{
    let promise = later(promise, start);
    match sealed.roll_back(promise) {
        Ok(replica) => Ok(replica),
        Err(Refused { refusal, given }) => {
            drop(given);
            Err(refusal)
        }
    }
}

/// The later of two stamps.
fn later(stamp: Stamp, other: Stamp) -> Stamp
    ensures { result ≡ later stamp other }
{
    if stamp.is_before(other) {
        return other;
    }
    stamp
}

/// Whether a live replica stands as a rollback makes it live: under the stamp with which the epoch starts, each block with its
/// digest.
pub fn is_restored(replica: &Replica, start: Stamp) -> bool
    ensures { result ≡ (is_same replica.now.held.promise start && are_digests replica.now.held.chunk.block replica.now.held.chunk.bytes replica.now.held.chunk.digests) }
{
    replica.promised() == start && replica.is_intact()
}
