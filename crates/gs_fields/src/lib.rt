//! Fields: values as bytes, and their reading. Numbers, texts, bytes, options, lists, and pairs of such. What is read is what was
//! written, and nothing else is read. The images of kept stores are made of fields. The records of the master's journal have fields
//! of their own in `gs_master_record`, from which these were lifted; they can be put onto these.
#![tactic(auto)]

mod blobs;
mod fault;
mod field;
mod lists;
mod plain;
mod whole;

pub use blobs::{put_bytes, put_text, read_bytes, read_text};
pub use fault::Fault;
pub use field::{Cursor, Field, take};
pub use lists::{put_items, put_list, put_long_list, read_items, read_list, read_long_list};
pub use whole::{read_whole, written};
