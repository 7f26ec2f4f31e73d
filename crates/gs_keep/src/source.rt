// What a start asks of what is outside of it.
use crate::keeping::Keeping;
use crate::rest::Rest;
use std::alloc::Global;
use std::io::{self, BufRead};

/// What a log is read from, over and over.
pub trait Source {
    ghost use Rattle.std.specs.Prelude.{◌≡◌, ℕ, List, length, take, drop, Option, Some, IfOk, IfSome};

    type Reader: BufRead + Drop;

    /// All that it gives, where that is known.
    ghost bytes: { Self → Option (List ℕ) };

    /// How many bytes these are.
    fn len(&mut self) -> io::Result<u64>
        ensures len { IfOk result (λ n. IfSome (bytes self.old) (λ xs. n ≡ length xs)) }
        ensures same { bytes self.new ≡ bytes self.old };

    /// A reader of those from one place on, up to another. No reader that was given before is read from after that.
    fn part(&mut self, alloc: Global, from: u64, to: u64) -> io::Result<Self::Reader>
        ensures part { IfOk result (λ reader. IfSome (bytes self.old) (λ xs. Self.Reader.remaining reader ≡ Some (drop from (take to xs)))) }
        ensures same { bytes self.new ≡ bytes self.old };
}

/// A machine for a log.
#[derive(Drop)]
pub struct Made<M> {
    pub machine: M,
    /// Whether the log is of the second form.
    pub is_second: bool,
    /// How many lines the logs before have: 0 for a log that begins a new store.
    pub before: u64,
}

/// What makes a machine for a log, by its first line.
pub trait Making {
    ghost use Rattle.std.specs.Prelude.{ℕ, List, Bool, IfErr, IfOk};

    type Machine: Keeping + Drop;

    /// Why a first line is refused.
    type Fault: Drop;

    /// Whether a machine is one to begin with, for a log that has this first line, is of the second form or not, and has so many lines before it.
    ghost Begins: { Self → List ℕ → Bool → ℕ → Self.Machine → Type 0 };

    /// Whether a first line may be refused so.
    ghost Refuses: { Self → List ℕ → Self.Fault → Type 0 };

    /// A machine for a log with this first line, which has its end. It stands where the lines before have led: it is new where there are none.
    fn make(&self, alloc: Global, head: &[u8]) -> Result<Made<Self::Machine>, Self::Fault>
        ensures begins { IfOk result (λ made. Begins self.now head.now made.is_second made.before made.machine) }
        ensures refuses { IfErr result (λ e. Refuses self.now head.now e) };
}

/// What is to be put aside is told by the one who looked for it.
pub trait Aside: Rest {
    ghost use Rattle.std.specs.Prelude.{◌≡◌};

    /// These bytes stand in the log after what is run again.
    fn hold(&mut self, bytes: Vec<u8>)
        ensures { Self.bytes self.new ≡ bytes.items };
}
