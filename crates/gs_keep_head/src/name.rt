// The name of a log: what tells it from all others.
ghost use Rattle.std.specs.Prelude.{◌≡◌, None, bytes_eq, codes, if◌then◌else◌, map};
ghost use Rattle.hex.specs.Hex.{encode_lower};
ghost use Rattle.gs_keep_head.specs.Head.{CalledAs, name_of, words_name};

use std::{fmt, str};

/// How many bytes a name has.
pub const NAME_BYTES: usize = 16;

/// How many bytes its text has.
pub const NAME_DIGITS: usize = 2 * NAME_BYTES;

/// How many words of a first line tell its name.
pub(crate) const NAME_WORDS: usize = 2;

/// What tells a log from all others: bytes that were drawn when it was made. Its text has two hexadecimal digits for each, in lower case.
#[derive(Clone, Copy, Debug, PartialEq, Eq)]
pub struct LogName {
    pub bytes: [u8; NAME_BYTES],
}

impl fmt::Display for LogName {
    ghost use Rattle.std.specs.Prelude.{Some};
    ghost use Rattle.hex.specs.Hex.{encode_lower};

    ghost output = { λ name. Some (encode_lower name.bytes) };

    fn fmt<W: fmt::Write>(&self, f: &mut fmt::Formatter<W>) -> fmt::Result {
        let mut digits = [0u8; NAME_DIGITS];
        let _ = hex::encode_to_slice(self.bytes, &mut digits);
        match str::from_utf8(&digits) {
            Ok(text) => f.write_str(text),
            Err(_) => Err(fmt::Error),
        }
    }
}

/// The name that hexadecimal digits write.
fn name_of(digits: &str) -> Option<LogName>
    ensures { CalledAs result (name_of digits.now) }
{
    let mut bytes = [0u8; NAME_BYTES];
    hex::decode_to_slice(digits, &mut bytes).ok()?;
    Some(LogName { bytes })
}

/// The name that digits write, if its word stands before them.
fn called(word: &str, digits: &str) -> Option<LogName>
    ensures { CalledAs result (if bytes_eq word.now (codes "name") then name_of digits.now else None) }
{
    if word == "name" {
        name_of(digits)
    } else {
        None
    }
}

/// The name that the last words of a first line tell.
pub(crate) fn name_in(words: &[&str]) -> Option<LogName>
    ensures { CalledAs result (words_name (map (λ w. w.now) words.now)) }
{
    if words.len() != NAME_WORDS {
        return None;
    }
    called(words[0], words[1])
}
