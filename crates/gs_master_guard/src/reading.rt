// What the records of a journal read to.
ghost use Rattle.gs_master_guard.specs.Reading.{Reads};

use gs_base::Refusal;
use gs_journal::{Record, Version};
use gs_master_record::Entry;
use std::alloc::Global;

/// The entries whose records these are, in a journal of this version. `BadLine` where one is the record of none.
pub fn read_entries(
    alloc: Global,
    version: Version,
    records: &[Record],
) -> Result<Vec<Entry>, Refusal>
    ensures { Reads version records.now result }
{
    let mut entries = Vec::new(alloc);
    for record in records {
        let entry = match Entry::decode(alloc, version, record) {
            Ok(entry) => entry,
            Err(refusal) => return Err(refusal),
        };
        entries.push(entry)?;
    }
    Ok(entries)
}
