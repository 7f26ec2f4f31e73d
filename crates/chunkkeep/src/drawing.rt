// The name of a log is drawn when it is made.
use gs_keep_head::{LogName, NAME_BYTES};
use std::fs::File;
use std::io::{self, Read};
use std::rt::Files;

/// What gives bytes that nobody can tell before.
const RANDOM_DEVICE: &str = "/dev/urandom";

/// A name that no other log has, as far as the system's bytes are drawn.
pub(crate) fn drawn_name<R: Files<File = File>>(rt: &R) -> io::Result<LogName> {
    let mut bytes = [0u8; NAME_BYTES];
    File::open(rt, RANDOM_DEVICE)?.read_exact(&mut bytes)?;
    Ok(LogName { bytes })
}
