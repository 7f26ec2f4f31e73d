// The answers to lines.
ghost use Rattle.gs_shell_script.specs.Run.{memory_text};
ghost use Rattle.gs_shell_threads.specs.Answering.{AnswersText};
ghost use Rattle.std.specs.Prelude.{IfOk, OnErr, string_bytes};

use crate::desk::Desk;
use gs_base::Refusal;
use gs_cluster_node::Plan;
use gs_journal::Disk;
use gs_shell_grammar::LineError;
use gs_shell_script::Answering;
use std::alloc::{AllocError, Global};
use std::sync::Wait;
use std::time::Clock;

impl<N: Plan, D: Disk + Drop, T: Wait + Clock + Drop> Desk<N, D, T> {
    /// The text of the answer to a line, both without their ends.
    fn answer_text(&mut self, alloc: Global, line: &[u8]) -> Result<String, AllocError>
        ensures ok { IfOk result (λ text. AnswersText D.seen D.failures self.old line.now (string_bytes text) self.new) }
        ensures err { OnErr result (AnswersText D.seen D.failures self.old line.now memory_text self.new) }
    {
        match gs_shell_grammar::parse(alloc, line) {
            Ok(command) => {
                let answer = self.step(command);
                let text = gs_shell_calls::text(alloc, &answer);
                drop(answer);
                text
            }
            Err(LineError::BadLine) => gs_shell_calls::text(alloc, &Err(Refusal::BadLine)),
            Err(LineError::Memory) => Err(AllocError),
        }
    }
}

impl<N: Plan, D: Disk + Drop, T: Wait + Clock + Drop> Answering for Desk<N, D, T> {
    ghost Answers = { λ old line text new. AnswersText D.seen D.failures old line text new };

    fn answer(&mut self, alloc: Global, line: &[u8]) -> Result<String, AllocError> {
        self.answer_text(alloc, line)
    }
}
