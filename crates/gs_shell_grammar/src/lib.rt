//! The grammar of a line of the store's shell: every call, and what is done to nodes and messages.
#![tactic(auto)]

mod command;
mod error;
mod forms;
mod operands;

ghost use Rattle.std.specs.Prelude.{◌≡◌, ◌==◌, false, Err, IfOk, map};
ghost use Rattle.std.specs.List.{slice_split, list_all};
ghost use Rattle.std.specs.Str.{is_utf8};
ghost use Rattle.gs_shell_grammar.specs.declared.error.LineError.TheVariants.{BadLine};
ghost use Rattle.gs_shell_grammar.specs.Grammar.{ParsesAs, is_word, words_request, line_request, request_of};

pub use crate::command::{Command, Restarted, Upgrade, UpgradeStep};
pub use crate::error::LineError;
use crate::forms::{of_four, of_one, of_three, of_two};
use std::alloc::{AllocError, Global};
use std::str;

fn are_words(words: &[&str]) -> bool
    ensures { result ≡ list_all (λ w. is_word w.now) words.now }
{
    words.iter().all(|word| !word.is_empty())
}

fn of_words<'a>(alloc: Global, words: &[&'a str]) -> Result<Command<'a>, LineError>
    ensures { ParsesAs request_of result (words_request (map (λ w. w.now) words.now)) }
{
    if !are_words(words) {
        return Err(LineError::BadLine);
    }
    match *words {
        [name] => of_one(name),
        [name, a] => of_two(name, a),
        [name, a, b] => of_three(alloc, name, a, b),
        [name, a, b, c] => of_four(alloc, name, a, b, c),
        _ => Err(LineError::BadLine),
    }
}

/// The words of a line, which single spaces separate.
fn words_of<'a>(alloc: Global, text: &'a str) -> Result<Vec<&'a str>, AllocError>
    ensures { IfOk result (λ v. map (λ w. w.now) v.items ≡ slice_split (λ b. b == 32) text.entry.now) }
{
    text.split(' ').collect(alloc)
}

/// What a line asks for, given without its end. `BadLine` is every line that isn't of the grammar: one with other words or
/// another number of them, a space too many, none at all, a number that is none or is past the greatest of 64 bits, bytes that
/// aren't hex or none, or one that isn't UTF-8, which is told whatever memory there is.
pub fn parse<'a>(alloc: Global, line: &'a [u8]) -> Result<Command<'a>, LineError>
    ensures request { ParsesAs request_of result (line_request line.entry.now) }
    ensures text { is_utf8 line.entry.now ≡ false → result ≡ Err BadLine }
{
    let Ok(text) = str::from_utf8(line) else {
        return Err(LineError::BadLine);
    };
    let words = words_of(alloc, text)?;
    of_words(alloc, &words)
}
