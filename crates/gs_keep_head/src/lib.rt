//! The first line of the log of a store that is kept: its form, the sizes of the store, the name that was drawn for the log, and what was
//! before it where it begins from an image.
#![tactic(auto)]

ghost use Rattle.std.specs.Prelude.{◌≡◌, ◌≢◌, ◌==◌, ℕ, true, false, length, bytes_eq, codes, if◌then◌else◌, IfOk, IfErr, map, string_bytes};
ghost use Rattle.std.specs.List.{slice_split};
ghost use Rattle.gs_keep_head.specs.Head.{HeadAs, MoreAs, Reads, SizedAs, Sizes, before_behind, both_more, bytes_of, called_text, form_digit, form_of, head_text, named_number, named_sizes, number_of, sized_text, sizes_of, words_head, words_more, words_sizes};

mod before;
mod name;
#[cfg(test)]
mod tests;

pub use before::{Before, SUM_BYTES};
use before::{BEFORE_WORDS, Sum, before_in};
use gs_base::Config;
use name::{NAME_WORDS, name_in};
pub use name::{LogName, NAME_BYTES, NAME_DIGITS};
use std::alloc::{AllocError, Global};
use std::str;

/// How many words of a first line tell its form and sizes.
const SIZE_WORDS: usize = 12;

/// Why a line isn't the first one of a log.
#[derive(Clone, Copy, Debug, PartialEq, Eq)]
pub enum HeadFault {
    /// Memory is lacking to tell.
    Memory,
    /// It is the first line of a log of another version.
    Version,
    /// It is none of a log.
    Other,
}

impl From<AllocError> for HeadFault {
    ghost use Rattle.std.specs.Prelude.{◌≡◌};
    ghost use Rattle.gs_keep_head.specs.declared.HeadFault.TheVariants.{Memory};

    ghost from_gives = { λ _ e. e ≡ Memory };

    fn from(_error: AllocError) -> HeadFault {
        HeadFault::Memory
    }
}

/// The form of a log.
#[derive(Clone, Copy, Debug, PartialEq, Eq)]
pub enum Form {
    /// Lines alone.
    One,
    /// Batches of lines, each with a mark behind it.
    Two,
    /// So too, and the log begins from an image: what was before tells the rest of the store.
    Three(Before),
}

/// What a first line says.
#[derive(Clone, Copy, Debug, PartialEq, Eq)]
pub struct HeadLine {
    pub form: Form,
    pub config: Config,
    /// The log's name, if one was drawn for it.
    pub name: Option<LogName>,
}

fn form_digit(form: Form) -> &'static str
    ensures { result.now ≡ form_digit form }
{
    match form {
        Form::One => "1",
        Form::Two => "2",
        Form::Three(_) => "3",
    }
}

/// What a first line says of the form and the sizes.
#[tactic(auto, unfolding(crate::specs::Head::sized_text))]
fn sized_text(alloc: Global, form: Form, config: &Config) -> Result<String, AllocError>
    ensures { IfOk result (λ text. string_bytes text ≡ sized_text form (sizes_of config.now)) }
{
    let digit = form_digit(form);
    let servers = config.servers;
    let racks = config.racks;
    let replicas = config.replicas;
    let chunk = config.chunk;
    let block = config.block;
    format!(in alloc;
        "chunkkeep {digit} --servers {servers} --racks {racks} --replicas {replicas} --chunk {chunk} --block {block}"
    )
}

/// What a first line says of the form, the sizes and the name, if the log has one.
#[tactic(auto, unfolding(crate::specs::Head::called_text))]
fn called_text(
    alloc: Global,
    form: Form,
    config: &Config,
    name: Option<LogName>,
) -> Result<String, AllocError>
    ensures { IfOk result (λ text. string_bytes text ≡ called_text form (sizes_of config.now) (bytes_of name)) }
{
    let text = sized_text(alloc, form, config)?;
    match name {
        Some(name) => format!(in alloc; "{text} name {name}"),
        None => Ok(text),
    }
}

/// A text, and behind it what was before the log.
#[tactic(auto, unfolding(crate::specs::Head::before_behind))]
fn before_behind(alloc: Global, text: &str, before: Before) -> Result<String, AllocError>
    ensures { IfOk result (λ line. string_bytes line ≡ before_behind text.now before) }
{
    let Before {
        image,
        sum,
        lines,
        text: texts,
        answers,
    } = before;
    let sum = Sum { bytes: sum };
    let texts = Sum { bytes: texts };
    let answers = Sum { bytes: answers };
    format!(in alloc; "{text} image {image} {sum} lines {lines} {texts} {answers}")
}

/// The first line of a log, without its end: of the log of a store of these sizes that has this name, or has none.
#[tactic(auto, unfolding(crate::specs::Head::head_text))]
pub fn head(
    alloc: Global,
    form: Form,
    config: &Config,
    name: Option<LogName>,
) -> Result<String, AllocError>
    ensures { IfOk result (λ text. string_bytes text ≡ head_text form (sizes_of config.now) (bytes_of name)) }
{
    let text = called_text(alloc, form, config, name)?;
    match form {
        Form::Three(before) => before_behind(alloc, &text, before),
        Form::Two => Ok(text),
        Form::One => Ok(text),
    }
}

/// The number that decimal digits write, where it has 64 bits.
fn number(word: &str) -> Option<u64>
    ensures { result ≡ number_of word.now }
{
    // Rust's reader of numbers takes a plus.
    if word.starts_with('+') {
        return None;
    }
    word.parse::<u64>().ok()
}

/// The number behind its name.
fn number_behind(name: &str, wanted: &str, word: &str) -> Option<u64>
    ensures { result ≡ named_number name.now wanted.now word.now }
{
    if name == wanted { number(word) } else { None }
}

/// A name and the word behind it.
#[derive(Clone, Copy)]
struct Pair<'a> {
    name: &'a str,
    word: &'a str,
}

/// The sizes that five names and the words behind them tell.
fn named_sizes(a: Pair<'_>, b: Pair<'_>, c: Pair<'_>, d: Pair<'_>, e: Pair<'_>) -> Option<Config>
    ensures { SizedAs result (named_sizes a.entry.name.now a.entry.word.now b.entry.name.now b.entry.word.now c.entry.name.now c.entry.word.now
        d.entry.name.now d.entry.word.now e.entry.name.now e.entry.word.now) }
{
    let servers = number_behind(a.name, "--servers", a.word)?;
    let racks = number_behind(b.name, "--racks", b.word)?;
    let replicas = number_behind(c.name, "--replicas", c.word)?;
    let chunk = number_behind(d.name, "--chunk", d.word)?;
    let block = number_behind(e.name, "--block", e.word)?;
    Config::new(servers, racks, replicas, block, chunk).ok()
}

/// The sizes that the words of a first line name, which begin with the program's name. The word behind it tells the form.
fn first_line(
    head: Pair<'_>,
    a: Pair<'_>,
    b: Pair<'_>,
    c: Pair<'_>,
    d: Pair<'_>,
    e: Pair<'_>,
) -> Option<Config>
    ensures { SizedAs result (if bytes_eq head.entry.name.now (codes "chunkkeep") then
        named_sizes a.entry.name.now a.entry.word.now b.entry.name.now b.entry.word.now c.entry.name.now c.entry.word.now
        d.entry.name.now d.entry.word.now e.entry.name.now e.entry.word.now else None) }
{
    if head.name == "chunkkeep" {
        return named_sizes(a, b, c, d, e);
    }
    None
}

/// The sizes that the words of a first line name.
fn sizes(words: &[&str]) -> Option<Config>
    ensures { SizedAs result (words_sizes (map (λ w. w.now) words.now)) }
{
    if words.len() != 12 {
        return None;
    }
    first_line(
        Pair {
            name: words[0],
            word: words[1],
        },
        Pair {
            name: words[2],
            word: words[3],
        },
        Pair {
            name: words[4],
            word: words[5],
        },
        Pair {
            name: words[6],
            word: words[7],
        },
        Pair {
            name: words[8],
            word: words[9],
        },
        Pair {
            name: words[10],
            word: words[11],
        },
    )
}

/// What the words behind the sizes tell.
#[derive(Clone, Copy)]
struct More {
    name: Option<LogName>,
    before: Option<Before>,
}

/// The name and what was before, where a first line tells both.
fn both(words: &[&str]) -> Option<More>
    requires { length words.now ≡ 9 }
    ensures { MoreAs result (both_more (map (λ w. w.now) words.now)) }
{
    let name = name_in(&words[..NAME_WORDS])?;
    let before = before_in(&words[NAME_WORDS..])?;
    Some(More {
        name: Some(name),
        before: Some(before),
    })
}

/// What the words behind the sizes tell. How many there are says which parts they have.
fn more_of(words: &[&str]) -> Option<More>
    ensures { MoreAs result (words_more (map (λ w. w.now) words.now)) }
{
    match words.len() {
        0 => Some(More {
            name: None,
            before: None,
        }),
        2 => match name_in(words) {
            Some(name) => Some(More {
                name: Some(name),
                before: None,
            }),
            None => None,
        },
        7 => match before_in(words) {
            Some(before) => Some(More {
                name: None,
                before: Some(before),
            }),
            None => None,
        },
        9 => both(words),
        _ => None,
    }
}

/// The form that a digit tells, with what was before.
fn form_of(digit: &str, before: Option<Before>) -> Option<Form>
    ensures { result ≡ form_of digit.now before }
{
    match before {
        None if digit == "1" => Some(Form::One),
        None if digit == "2" => Some(Form::Two),
        Some(before) if digit == "3" => Some(Form::Three(before)),
        _ => None,
    }
}

/// What the words of a first line say.
fn head_of(words: &[&str]) -> Option<HeadLine>
    ensures { HeadAs result (words_head (map (λ w. w.now) words.now)) }
{
    if words.len() < SIZE_WORDS {
        return None;
    }
    let config = sizes(&words[..SIZE_WORDS])?;
    let More { name, before } = more_of(&words[SIZE_WORDS..])?;
    let form = form_of(words[1], before)?;
    Some(HeadLine { form, config, name })
}

/// The words of a text, which single spaces separate.
fn words_of<'a>(alloc: Global, text: &'a str) -> Result<Vec<&'a str>, AllocError>
    ensures { IfOk result (λ v. map (λ w. w.now) v.items ≡ slice_split (λ b. b == 32) text.entry.now) }
{
    text.split(' ').collect(alloc)
}

/// Why words are those of no first line.
fn fault_of(words: &[&str]) -> HeadFault
    ensures { result ≢ HeadFault.Memory }
{
    match *words {
        ["chunkkeep", version, ..] if version != "1" && version != "2" && version != "3" => {
            HeadFault::Version
        }
        _ => HeadFault::Other,
    }
}

/// Whether a text is the first line of a log that says this.
fn is_head(alloc: Global, said: &HeadLine, text: &str) -> Result<bool, AllocError>
    ensures { IfOk result (λ is. (is ≡ true → text.now ≡ head_text said.now.form (sizes_of said.now.config) (bytes_of said.now.name))
        × (is ≡ false → text.now ≢ head_text said.now.form (sizes_of said.now.config) (bytes_of said.now.name))) }
{
    let again = head(alloc, said.form, &said.config, said.name)?;
    Ok(again.as_str() == text)
}

/// What the first line of a log says, without its end. A line is taken exactly as [`head`] writes it: with no number written otherwise,
/// no space more, no upper case in the name or a digest, and no size of which there is no store.
pub fn read_head(alloc: Global, line: &[u8]) -> Result<HeadLine, HeadFault>
    ensures { Reads result line.now }
{
    let Ok(text) = str::from_utf8(line) else {
        return Err(HeadFault::Other);
    };
    let words = words_of(alloc, text)?;
    let Some(said) = head_of(&words) else {
        return Err(fault_of(&words));
    };
    if is_head(alloc, &said, text)? {
        return Ok(said);
    }
    Err(HeadFault::Other)
}
