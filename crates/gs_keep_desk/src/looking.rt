// A desk that is only looked at.
ghost use Rattle.std.specs.Prelude.{◌≡◌, IfOk, OnErr, string_bytes};

use crate::lines::only_looks;
use gs_journal::Disk;
use gs_shell_desk::Desk;
use gs_shell_grammar::LineError;
use gs_shell_script::Answering;
use std::alloc::{AllocError, Global};

/// The answer to a line that would change something.
const READ_ONLY: &str = "refused 40 ReadOnly";

/// A client's desk of which lines are answered that only look. Any other line of the grammar is refused, and changes nothing.
pub struct LookingDesk<D: Disk> {
    desk: Desk<D>,
}

impl<D: Disk + Drop> Drop for LookingDesk<D> {
    fn drop(self) {
        let Self { desk: _ } = self;
    }
}

impl<D: Disk + Drop> LookingDesk<D> {
    /// What a desk has come to is looked at from now on.
    pub fn new(desk: Desk<D>) -> LookingDesk<D>
        ensures { result.desk ≡ desk }
    {
        LookingDesk { desk }
    }
}

impl<D: Disk + Drop> Answering for LookingDesk<D> {
    ghost use Rattle.gs_keep_desk.specs.Looks.{LooksAt};

    ghost Answers = { λ old line text new. LooksAt D.seen D.failures old line text new };

    fn answer(&mut self, alloc: Global, line: &[u8]) -> Result<String, AllocError> {
        match gs_shell_grammar::parse(alloc, line) {
            Ok(command) => {
                let looks = only_looks(&command);
                drop(command);
                if !looks {
                    return String::from_str(alloc, READ_ONLY);
                }
            }
            Err(LineError::BadLine) => {}
            Err(LineError::Memory) => return Err(AllocError),
        }
        self.desk.answer(alloc, line)
    }
}
