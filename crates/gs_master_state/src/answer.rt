// Answers, as records tell them and as they are read from their texts.
ghost use Rattle.std.specs.Prelude.{◌==◌, ◌≡◌, IfOk, map, option_map, Some};
ghost use Rattle.std.specs.Char.{digit_value};
ghost use Rattle.std.specs.List.{slice_split};
ghost use Rattle.std.specs.Str.Parse.{digits_value};
ghost use Rattle.gs_path.specs.Rules.{parse_hidden};
ghost use Rattle.gs_master_record.specs.Plain.{plain_outcome, plain_reply};
ghost use Rattle.gs_master_spec.specs.Replies.{client_cmp, if_text, numbers_in, told_answer, told_numbers, told_path, told_result};
ghost use Rattle.gs_master_state.specs.inner.ToldNumbers.{all_held, held, place_in, told_primary, told_table};
ghost use Rattle.gs_base_table.specs.Slots.{live};

use crate::checkpoint::answer_text;
use gs_base::{ClientId, Handle, Members, Moment, Refusal, ServerId, Stamp};
use gs_base_table::Table;
use gs_lease::{Term, View};
use gs_master_record::{KeptOutcome, Reply};
use gs_master_spec::reply::KeptReply;
use gs_msg::Answer;
use gs_path::Path;
use std::alloc::{AllocError, Global};

/// The value of a digit, also of one above nine.
fn digit_value(code: u8) -> u64
    ensures { result ≡ digit_value code }
{
    let code = u64::from(code);
    if code < 48 {
        return 36;
    }
    if code < 58 {
        return code - 48;
    }
    if code < 65 {
        return 36;
    }
    if code < 91 {
        return code - 55;
    }
    if code < 97 {
        return 36;
    }
    if code < 123 {
        return code - 87;
    }
    36
}

/// The number that digits write, if eight bytes hold it.
fn number_of(part: &str) -> Option<u64>
    ensures { result ≡ held (digits_value 10 part.now) }
{
    let mut number: u64 = 0;
    for digit in part.as_bytes() {
        let Some(tens) = number.checked_mul(10) else {
            return None;
        };
        let Some(next) = tens.checked_add(digit_value(*digit)) else {
            return None;
        };
        number = next;
    }
    Some(number)
}

/// The parts of a text between its spaces.
fn parts_of<'a>(alloc: Global, text: &'a str) -> Result<Vec<&'a str>, AllocError>
    ensures { IfOk result (λ parts. map (λ part. part.now) parts.items ≡ slice_split (λ c. c == 32) text.entry.now) }
{
    text.split(' ').collect(alloc)
}

/// The numbers between the spaces of a text, if eight bytes hold each.
fn numbers_of(alloc: Global, text: &str) -> Result<Option<Vec<u64>>, AllocError>
    ensures { IfOk result (λ numbers. option_map (λ numbers. numbers.items) numbers ≡ all_held (numbers_in text.now)) }
{
    let parts = parts_of(alloc, text)?;
    let mut numbers = Vec::new(alloc);
    for place in 0..parts.len() {
        let Some(number) = number_of(parts[place]) else {
            return Ok(None);
        };
        numbers.push(number)?;
    }
    Ok(Some(numbers))
}

/// The primary of a lease and its end, or none where the primary is told as 255.
fn told_primary(primary: u64, end: u64) -> Option<Option<Term>>
    ensures { result ≡ told_primary primary end }
{
    if primary == 255 {
        return Some(None);
    }
    let primary = ServerId::new(primary)?;
    let end = Moment(end);
    Some(Some(Term { primary, end }))
}

/// Where a chunk is, if the types hold these numbers.
fn place_in(numbers: &[u64]) -> Option<Answer>
    ensures { result ≡ place_in numbers.now }
{
    let [chunk, at, version, count, bits, primary, end, epoch] = *numbers else {
        return None;
    };
    let handle = Handle::new(chunk)?;
    if bits > 65_535 {
        return None;
    }
    let term = told_primary(primary, end)?;
    let stamp = Stamp { epoch: at, version };
    let members = Members::from_bits(bits as u16);
    let view = View {
        stamp,
        count,
        members,
        term,
    };
    Some(Answer::Location {
        handle,
        view,
        epoch,
    })
}

/// The answer, if this is its text.
fn if_text(alloc: Global, text: &str, answer: Answer) -> Result<Option<Answer>, AllocError>
    ensures { IfOk result (λ told. told ≡ if_text text.now (Some answer)) }
{
    let own = answer_text(alloc, &answer)?;
    if own.as_str() == text {
        return Ok(Some(answer));
    }
    Ok(None)
}

/// Where a chunk is, by a text of numbers.
fn told_numbers(alloc: Global, text: &str) -> Result<Option<Answer>, AllocError>
    ensures { IfOk result (λ told. told ≡ told_numbers text.now (numbers_in text.now)) }
{
    let Some(numbers) = numbers_of(alloc, text)? else {
        return Ok(None);
    };
    match place_in(&numbers) {
        Some(answer) => if_text(alloc, text, answer),
        None => Ok(None),
    }
}

/// The path of a text, if it is one.
fn told_path(alloc: Global, text: &str) -> Result<Option<Answer>, AllocError>
    ensures { IfOk result (λ told. told ≡ told_path (parse_hidden text.now)) }
{
    match Path::parse_hidden(alloc, text) {
        Ok(path) => Ok(Some(Answer::Path(path))),
        Err(Refusal::Memory) => Err(AllocError),
        Err(_) => Ok(None),
    }
}

/// The answer of a text: nothing, a path, or where a chunk is.
fn told_answer(alloc: Global, text: &str) -> Result<Option<Answer>, AllocError>
    ensures { IfOk result (λ told. told ≡ told_answer text.now) }
{
    match text.as_bytes().first() {
        None => Ok(Some(Answer::Nothing)),
        Some(b'/') => told_path(alloc, text),
        Some(_) => told_numbers(alloc, text),
    }
}

/// The reply of an outcome, if its text is that of an answer.
fn told_result(
    alloc: Global,
    outcome: &KeptOutcome,
) -> Result<Option<Result<Answer, Refusal>>, AllocError>
    ensures { IfOk result (λ told. told ≡ told_result (plain_outcome outcome.now)) }
{
    match outcome {
        KeptOutcome::Accepted(text) => match told_answer(alloc, text.as_str())? {
            Some(answer) => Ok(Some(Ok(answer))),
            None => Ok(None),
        },
        KeptOutcome::Refused(refusal) => Ok(Some(Err(refusal.copy(alloc)?))),
    }
}

/// The replies that are told, if each outcome has its answer. Of a client that is told twice the first reply stands.
pub fn told_replies(
    alloc: Global,
    replies: &[Reply],
) -> Result<Option<Table<ClientId, KeptReply>>, AllocError>
    ensures { IfOk result (λ told. option_map (live client_cmp) told ≡ told_table (map plain_reply replies.now)) }
{
    let mut table = Table::new(alloc);
    let mut left = replies.len();
    while left > 0 {
        left -= 1;
        let reply = &replies[left];
        let Some(result) = told_result(alloc, &reply.outcome)? else {
            return Ok(None);
        };
        let number = reply.to.number;
        table.reserve(reply.to.client)?;
        table.put(reply.to.client, KeptReply { number, result });
    }
    Ok(Some(table))
}
