// What stands in a line of a file, as it can be shown to a person.
use gs_shell_line::{Line, next_line};
use std::alloc::{AllocError, Global};
use std::fs::File;
use std::io::BufReader;
use std::rt::Files;

/// The bytes of the file that are read at a time.
const FILE_BYTES: usize = 65_536;

/// The most bytes of a line that are shown.
const MOST_SHOWN: usize = 60;

/// The beginning of a line, in which each byte that isn't a printed one of ASCII stands as its number.
fn quoted(alloc: Global, line: &[u8]) -> Result<String, AllocError> {
    let mut text = String::new(alloc);
    for &byte in line.iter().take(MOST_SHOWN) {
        if byte == b' ' || byte.is_ascii_graphic() {
            text.push(char::from(byte))?;
        } else {
            text.push_str(&format!(in alloc; "\\x{byte:02x}")?)?;
        }
    }
    if line.len() > MOST_SHOWN {
        text.push_str("..")?;
    }
    Ok(text)
}

/// The beginning of a line of a file, by its number, from 1. Nothing where it can't be read, is too long or isn't there.
pub(crate) fn line_text<R: Files<File = File> + AllocGlobal>(
    rt: &R,
    path: &str,
    number: u64,
) -> Option<String> {
    let alloc = rt.alloc();
    let file = File::open(rt, path).ok()?;
    let mut reader = BufReader::with_capacity(alloc, FILE_BYTES, file).ok()?;
    for _ in 1..number {
        next_line(alloc, &mut reader).ok()?;
    }
    match next_line(alloc, &mut reader).ok()?.line {
        Line::Text(line) => quoted(alloc, &line).ok(),
        _ => None,
    }
}
