ghost use Rattle.std.specs.Prelude.{◌≡◌, [], IfOk};
ghost use Rattle.gs_cluster.specs.Opened.{IsNew};
ghost use Rattle.gs_journal.specs.Memory.{bytes_of, times_failed};

use gs_base::{Config, Refusal};
use gs_cluster::Opened;
use gs_journal::MemoryDisk;
use gs_nodes::empty_disks;
use std::alloc::Global;

/// A new store over disks in memory with nothing on them.
pub(crate) fn opened_over_empty(
    alloc: Global,
    config: Config,
    clients: u32,
) -> Result<Opened<MemoryDisk>, Refusal>
    ensures config { IfOk result (λ opened. opened.config ≡ config) }
    ensures new { IfOk result (λ opened. IsNew bytes_of times_failed (record { config = config; clients = clients; texts = ([], []) }) opened.seeds.items) }
{
    match Opened::new(alloc, config, clients, empty_disks(alloc)) {
        Ok(opened) => Ok(opened),
        Err(unopened) => Err(unopened.refusal),
    }
}
