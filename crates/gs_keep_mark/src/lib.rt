//! The marks of a log: each says how many lines stand before it, and the digests of all bytes before it and of all answers to its lines.
#![tactic(auto)]

ghost use Rattle.std.specs.Prelude.{◌≡◌, ◌==◌, ◌++◌, ℕ, List, false, length, IfOk, OnOk};
ghost use Rattle.sha2.specs.Hashers.{Holds256};
ghost use Rattle.sha2.specs.Sha256.{sha256};
ghost use Rattle.gs_keep_mark.specs.Marks.{Totals, begins_from, digest, digits_of, is_whole_mark, mark_of, noted, passed, starts_mark};
ghost use Rattle.gs_keep_mark.specs.Ledgers.{IsLedger, is_full};

use sha2::{Digest as _, Sha256};
use std::alloc::{AllocError, Global};

mod promises;

pub use promises::{a_start_runs_what_was_answered, logs_that_are_told_alike_are_the_same};

/// What a mark says of a log, as far as the log has grown: how many lines it has, and the digests of its bytes and of the answers to its lines.
#[derive(Drop)]
pub struct Ledger {
    lines: u64,
    text: Sha256,
    answers: Sha256,
}

/// Puts so many decimal digits of a number behind some bytes.
fn push_digits(bytes: &mut Vec<u8>, places: u64, count: u64) -> Result<(), AllocError>
    ensures { OnOk result (bytes.new.items ≡ bytes.old.items ++ digits_of places count) }
{
    if places == 0 {
        return Ok(());
    }
    push_digits(bytes, places - 1, count / 10)?;
    let digit = b'0' + (count % 10) as u8;
    bytes.extend_from_slice(&[digit])?;
    Ok(())
}

/// The digest of what a hasher holds.
fn sum_of(hasher: &Sha256) -> Result<[u8; 32], AllocError>
    ensures { IfOk result (λ sum. (m : List ℕ) → Holds256 hasher.now m → sum ≡ sha256 m) }
{
    let sum: [u8; 32] = hasher.clone()?.finalize();
    Ok(sum)
}

/// The digest of what a hasher holds, as hexadecimal digits.
fn digest_of(hasher: &Sha256) -> Result<[u8; 64], AllocError>
    ensures { IfOk result (λ digits. (m : List ℕ) → Holds256 hasher.now m → digits ≡ digest m) }
{
    let sum = sum_of(hasher)?;
    let mut digits = [0u8; 64];
    let _ = hex::encode_to_slice(sum, &mut digits);
    Ok(digits)
}

/// Whether a line of a log is a mark.
pub fn is_mark(line: &[u8]) -> bool
    ensures { result ≡ starts_mark line.now }
{
    line.first() == Some(&b'#')
}

/// Whether a line is a mark with its end.
pub fn is_whole_mark(line: &[u8]) -> bool
    ensures { result ≡ is_whole_mark line.now }
{
    let n = line.len();
    is_mark(line) && (n > 0 && line[n - 1] == b'\n' && n == 153)
}

impl Ledger {
    /// That of a log that has its first line alone. The logs before have so many lines: 0 where there are none. Else `head` tells what they are.
    pub fn of(head: &[u8], before: u64) -> Ledger
        ensures { IsLedger result (begins_from head.now before) }
    {
        let mut text = Sha256::new();
        text.update(head);
        Ledger {
            lines: before,
            text,
            answers: Sha256::new(),
        }
    }

    /// How many lines the log has and those before it, without their marks.
    pub fn lines(&self) -> u64
        ensures { (t : Totals) → IsLedger self.now t → result ≡ t.count }
    {
        self.lines
    }

    /// The digest of all bytes of the log, its first line and its marks too.
    pub fn text(&self) -> Result<[u8; 32], AllocError>
        ensures { IfOk result (λ sum. (t : Totals) → IsLedger self.now t → sum ≡ sha256 t.text) }
    {
        sum_of(&self.text)
    }

    /// The digest of all answers to the log's lines, each with its end.
    pub fn answers(&self) -> Result<[u8; 32], AllocError>
        ensures { IfOk result (λ sum. (t : Totals) → IsLedger self.now t → sum ≡ sha256 t.answers) }
    {
        sum_of(&self.answers)
    }

    /// Whether no line more can be counted.
    pub fn is_full(&self) -> bool
        ensures { result ≡ is_full self.now }
    {
        self.lines == u64::MAX
    }

    /// A line with its end, and its answer, stand behind all others.
    pub fn note(&mut self, line: &[u8], answer: &[u8])
        requires { is_full self.old ≡ false }
        ensures { (t : Totals) → IsLedger self.old t → IsLedger self.new (noted t (record { line = line.now; answer = answer.now })) }
    {
        self.lines += 1;
        self.text.update(line);
        self.answers.update(answer);
        self.answers.update(b"\n");
    }

    /// The mark that is to stand next, with its end.
    pub fn mark(&self, alloc: Global) -> Result<Vec<u8>, AllocError>
        ensures { IfOk result (λ bytes. (t : Totals) → IsLedger self.now t → bytes.items ≡ mark_of t) }
    {
        let text = digest_of(&self.text)?;
        let answers = digest_of(&self.answers)?;
        let mut bytes = Vec::new(alloc);
        bytes.extend_from_slice(b"# ")?;
        push_digits(&mut bytes, 20, self.lines)?;
        bytes.extend_from_slice(b" ")?;
        bytes.extend_from_slice(&text)?;
        bytes.extend_from_slice(b" ")?;
        bytes.extend_from_slice(&answers)?;
        bytes.extend_from_slice(b"\n")?;
        Ok(bytes)
    }

    /// The mark stands behind all others.
    pub fn pass(&mut self, mark: &[u8])
        ensures ledger { (t : Totals) → IsLedger self.old t → mark.now ≡ mark_of t → IsLedger self.new (passed t) }
        ensures full { is_full self.new ≡ is_full self.old }
    {
        self.text.update(mark);
    }
}
