// The three files that each program begins with, and what stands for those that it began without.
ghost use Rattle.std.specs.Prelude.{◌≡◌, pos, int_lt};
ghost use Rattle.std.specs.Fd.{file_raw_fd};

use crate::named::Identity;
use std::fs::{self, File, OpenOptions};
use std::os::fd::AsRawFd;
use std::rt::Files;

/// The device that takes all and gives nothing.
const NULL_DEVICE: &str = "/dev/null";

/// The null device, open in the place of those of standard input, output and error that were closed.
#[derive(Drop)]
pub struct Placeholders {
    first: Option<File>,
    second: Option<File>,
    third: Option<File>,
}

/// The null device, if it takes the place of one of the three.
fn placeholder<R: Files<File = File>>(rt: &R) -> Option<File> {
    let file = OpenOptions::new()
        .read(true)
        .write(true)
        .open(rt, NULL_DEVICE)
        .ok()?;
    if is_beyond(&file) { None } else { Some(file) }
}

/// Opens the null device in the place of each of standard input, output and error that is closed, so that no file that is opened as
/// long as they live is taken for one of the three.
pub fn fill_standard<R: Files<File = File>>(rt: &R) -> Placeholders {
    Placeholders {
        first: placeholder(rt),
        second: placeholder(rt),
        third: placeholder(rt),
    }
}

/// Whether a file is none of standard input, output and error.
pub(crate) fn is_beyond(file: &File) -> bool
    ensures { result ≡ int_lt (pos 2) (file_raw_fd file.now) }
{
    file.as_raw_fd() > 2
}

/// A standard file, by the name that the system has for it, and as a person calls it.
struct StandardFile {
    path: &'static str,
    name: &'static str,
}

const STANDARD: [StandardFile; 2] = [
    StandardFile {
        path: "/dev/stdin",
        name: "standard input",
    },
    StandardFile {
        path: "/dev/stdout",
        name: "standard output",
    },
];

/// Whether a name is that of a file, as far as the system tells.
fn is_file_of<R: Files>(rt: &R, path: &str, identity: Identity) -> bool {
    match fs::metadata(rt, path) {
        Ok(found) => Identity::of(&found) == identity,
        Err(_) => false,
    }
}

/// Whether a file is standard error, if the system tells.
pub(crate) fn is_standard_error<R: Files>(rt: &R, identity: Identity) -> bool {
    is_file_of(rt, "/dev/stderr", identity)
}

/// Which of standard input and output a file is, if it is one and the system tells.
pub(crate) fn standard_name<R: Files>(rt: &R, identity: Identity) -> Option<&'static str> {
    for standard in &STANDARD {
        if is_file_of(rt, standard.path, identity) {
            return Some(standard.name);
        }
    }
    None
}
