// The names of the files that stand beside a log.
use std::alloc::{AllocError, Global};

/// Under which a log's file is made.
pub(crate) fn new_name(alloc: Global, path: &str) -> Result<String, AllocError> {
    format!(in alloc; "{path}.new")
}

/// That of an image.
pub(crate) fn image_name(alloc: Global, path: &str, number: u64) -> Result<String, AllocError> {
    format!(in alloc; "{path}.image.{number}")
}

/// That of the log before the one that begins from an image.
pub(crate) fn before_name(alloc: Global, path: &str, number: u64) -> Result<String, AllocError> {
    format!(in alloc; "{path}.before.{number}")
}
