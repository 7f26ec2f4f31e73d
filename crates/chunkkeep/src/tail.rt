// What is to be cut off the file is put aside.
use gs_keep::{Aside, Rest};
use gs_keep_file::put_aside;
use gs_keep_log::Failed;
use std::alloc::Global;
use std::fs::File;
use std::io;
use std::rt::Files;

/// What stands in a file after what is run again.
#[derive(Drop)]
pub(crate) struct Tail<'a, R> {
    rt: &'a R,
    path: &'a str,
    bytes: Vec<u8>,
    /// Whether it stands in the file alone.
    is_alone: bool,
    /// Why it can't be put aside, where it couldn't.
    fault: Option<io::Error>,
}

impl<'a, R> Tail<'a, R> {
    /// Nothing, as far as is known yet.
    pub(crate) fn new(rt: &'a R, alloc: Global, path: &'a str) -> Tail<'a, R> {
        Tail {
            rt,
            path,
            bytes: Vec::new(alloc),
            is_alone: true,
            fault: None,
        }
    }

    /// Why it couldn't be put aside, if it couldn't.
    pub(crate) fn into_fault(self) -> Option<io::Error> {
        self.fault
    }
}

impl<R: Files<File = File> + Eprint + AllocGlobal> Rest for Tail<'_, R> {
    ghost bytes = { λ tail. tail.bytes.items };

    ghost is_alone = { λ tail. tail.is_alone };

    /// It is put into a file beside, which standard error names.
    fn put_aside(&mut self) -> Result<(), Failed> {
        if self.bytes.is_empty() {
            self.is_alone = false;
            return Ok(());
        }
        match put_aside(self.rt, self.path, &self.bytes) {
            Ok(name) => {
                let path = self.path;
                let count = self.bytes.len();
                let _ = eprintln!(self.rt;
                    "chunkkeep: {path}: {count} bytes after what was answered are put aside in {name}"
                );
                self.is_alone = false;
                Ok(())
            }
            Err(error) => {
                self.is_alone = true;
                self.fault = Some(error);
                Err(Failed)
            }
        }
    }
}

impl<R: Files<File = File> + Eprint + AllocGlobal> Aside for Tail<'_, R> {
    fn hold(&mut self, bytes: Vec<u8>) {
        self.bytes = bytes;
    }
}
