//! A journal on two disks that may fail, and that a crash may tear. An append and a checkpoint are whole or absent at any moment of a
//! crash. After a disk's failure the journal is closed until it is opened again.
#![tactic(auto)]

mod draft;
mod ends;
mod failing;
mod fault;
mod form;
mod frame;
mod history;
mod journal;
mod memory;
mod pair;
mod place;
pub mod promises;
mod record;
mod start;
mod stopping;
mod version;

pub use draft::Draft;
pub use failing::FailingDisk;
pub use fault::Fault;
pub use form::is_of_form;
pub use gs_journal_disk::Disk;
pub use journal::{Journal, Unopened};
pub use memory::MemoryDisk;
pub use record::{HEAD_BYTES, Record};
pub use stopping::StoppingDisk;
pub use version::Version;
