// The answers to lines.
ghost use Rattle.std.specs.Prelude.{IfOk, OnErr, string_bytes};
ghost use Rattle.gs_shell_desk.specs.Answering.{AnswersText};
ghost use Rattle.gs_shell_script.specs.Run.{memory_text};

use crate::desk::Desk;
use gs_base::Refusal;
use gs_journal::Disk;
use gs_shell_grammar::LineError;
use gs_shell_script::Answering;
use std::alloc::{AllocError, Global};

impl<D: Disk + Drop> Desk<D> {
    /// The text of the answer to a line, both without their ends.
    fn answer_text(&mut self, alloc: Global, line: &[u8]) -> Result<String, AllocError>
        ensures ok { IfOk result (λ text. AnswersText D.seen D.failures self.old line.now (string_bytes text) self.new) }
        ensures err { OnErr result (AnswersText D.seen D.failures self.old line.now memory_text self.new) }
    {
        match gs_shell_grammar::parse(alloc, line) {
            Ok(command) => {
                let answer = self.step(command);
                let text = gs_shell_calls::text(alloc, &answer);
                drop(answer);
                text
            }
            Err(LineError::BadLine) => gs_shell_calls::text(alloc, &Err(Refusal::BadLine)),
            Err(LineError::Memory) => Err(AllocError),
        }
    }
}

impl<D: Disk + Drop> Answering for Desk<D> {
    ghost Answers = { λ old line text new. AnswersText D.seen D.failures old line text new };

    fn answer(&mut self, alloc: Global, line: &[u8]) -> Result<String, AllocError> {
        self.answer_text(alloc, line)
    }
}
