// What a log that begins from an image has before its first line.
ghost use Rattle.std.specs.Prelude.{◌≡◌, map};
ghost use Rattle.gs_keep_head.specs.Head.{named_before, sum_of, words_before};

use crate::{Pair, number_behind};
use std::{fmt, str};

/// How many bytes a digest has.
pub const SUM_BYTES: usize = 32;

/// How many bytes its text has.
const SUM_DIGITS: usize = 2 * SUM_BYTES;

/// How many words of a first line tell of what was before.
pub(crate) const BEFORE_WORDS: usize = 7;

/// What was before a log that begins from an image.
#[derive(Clone, Copy, Debug, PartialEq, Eq)]
pub struct Before {
    /// The number of the image from which the log begins.
    pub image: u64,
    /// The image's digest.
    pub sum: [u8; SUM_BYTES],
    /// How many lines the logs before have, without their marks.
    pub lines: u64,
    /// The digest of all bytes of the log before, its first line and its marks too.
    pub text: [u8; SUM_BYTES],
    /// The digest of all answers to the lines of the log before, each with its end.
    pub answers: [u8; SUM_BYTES],
}

/// A digest, which is shown by its hexadecimal digits in lower case.
#[derive(Clone, Copy)]
pub(crate) struct Sum {
    pub(crate) bytes: [u8; SUM_BYTES],
}

impl fmt::Display for Sum {
    ghost use Rattle.std.specs.Prelude.{Some};
    ghost use Rattle.hex.specs.Hex.{encode_lower};

    ghost output = { λ sum. Some (encode_lower sum.bytes) };

    fn fmt<W: fmt::Write>(&self, f: &mut fmt::Formatter<W>) -> fmt::Result {
        let mut digits = [0u8; SUM_DIGITS];
        let _ = hex::encode_to_slice(self.bytes, &mut digits);
        match str::from_utf8(&digits) {
            Ok(text) => f.write_str(text),
            Err(_) => Err(fmt::Error),
        }
    }
}

/// The digest that hexadecimal digits write.
fn sum_of(digits: &str) -> Option<[u8; SUM_BYTES]>
    ensures { result ≡ sum_of digits.now }
{
    let mut bytes = [0u8; SUM_BYTES];
    hex::decode_to_slice(digits, &mut bytes).ok()?;
    Some(bytes)
}

/// What two numbers behind their names and three digests tell of what was before.
fn named_before(
    image: Pair<'_>,
    sum: &str,
    lines: Pair<'_>,
    text: &str,
    answers: &str,
) -> Option<Before>
    ensures { result ≡ named_before image.entry.name.now image.entry.word.now sum.now lines.entry.name.now lines.entry.word.now text.now answers.now }
{
    let number = number_behind(image.name, "image", image.word)?;
    let image_sum = sum_of(sum)?;
    let count = number_behind(lines.name, "lines", lines.word)?;
    let text_sum = sum_of(text)?;
    let answers_sum = sum_of(answers)?;
    Some(Before {
        image: number,
        sum: image_sum,
        lines: count,
        text: text_sum,
        answers: answers_sum,
    })
}

/// What the last words of a first line tell of what was before.
pub(crate) fn before_in(words: &[&str]) -> Option<Before>
    ensures { result ≡ words_before (map (λ w. w.now) words.now) }
{
    if words.len() != BEFORE_WORDS {
        return None;
    }
    named_before(
        Pair {
            name: words[0],
            word: words[1],
        },
        words[2],
        Pair {
            name: words[3],
            word: words[4],
        },
        words[5],
        words[6],
    )
}
