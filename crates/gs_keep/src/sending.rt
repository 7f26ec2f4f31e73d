// Answers are written.
ghost use Rattle.std.specs.Prelude.{◌≡◌, ◌≢◌, ◌≤◌, ◌<◌, ◌+◌, ℕ, false, true, length, take, IfOk, OnOk, OnErr, IfErr};
ghost use Rattle.std.specs.IoError.{error_kind};
ghost use Rattle.std.specs.Io.KnownBytes.{Appends, Keeps};
ghost use Rattle.gs_shell_script.specs.Run.{AppendsBeginning};
ghost use Rattle.gs_keep.specs.Sending.{CallFails, HasStopped, MakesCall, sent};

use crate::fault::KeepFault;
use std::io::{self, ErrorKind, Write};

/// Where answers go, which knows whether a call of the writer has failed.
#[derive(Drop)]
pub struct Answers<W> {
    writer: W,
    /// How many calls were made of it.
    calls: u64,
    /// Whether one of them has failed, otherwise than by an interruption.
    has_failed: bool,
}

impl<W: Write> Answers<W> {
    /// Of a writer of which no call has failed.
    pub fn new(writer: W) -> Answers<W>
        ensures sent { sent W.contents result ≡ W.contents writer }
        ensures calls { (result.calls ≡ 0) × (result.has_failed ≡ false) }
    {
        Answers {
            writer,
            calls: 0,
            has_failed: false,
        }
    }

    /// Writes a beginning of some bytes, and says how long it is: nothing, if the write is interrupted. A writer that takes nothing fails.
    fn write(&mut self, bytes: &[u8]) -> io::Result<usize>
        requires room { self.old.calls < 18446744073709551615 }
        ensures bound { IfOk result (λ n. n ≤ length bytes.now) }
        ensures ok { IfOk result (λ n. Appends (sent W.contents self.old) (sent W.contents self.new) (take n bytes.now)) }
        ensures err { OnErr result (Keeps (sent W.contents self.old) (sent W.contents self.new)) }
        ensures made { OnOk result (MakesCall self.old self.new) }
        ensures failed { OnErr result (CallFails self.old self.new) }
        ensures retried { IfErr result (λ e. error_kind e ≢ ErrorKind.Interrupted) }
    {
        self.calls += 1;
        match self.writer.write(bytes) {
            Ok(0) => {
                self.has_failed = true;
                Err(io::Error::from(ErrorKind::WriteZero))
            }
            Ok(count) => Ok(count),
            Err(error) if error.kind() == ErrorKind::Interrupted => Ok(0),
            Err(error) => {
                self.has_failed = true;
                Err(error)
            }
        }
    }

    /// Flushes what is written, and says whether that was done: not, if it is interrupted.
    fn flush(&mut self) -> io::Result<bool>
        requires room { self.old.calls < 18446744073709551615 }
        ensures sent { Keeps (sent W.contents self.old) (sent W.contents self.new) }
        ensures made { OnOk result (MakesCall self.old self.new) }
        ensures failed { OnErr result (CallFails self.old self.new) }
        ensures retried { IfErr result (λ e. error_kind e ≢ ErrorKind.Interrupted) }
    {
        self.calls += 1;
        match self.writer.flush() {
            Ok(()) => Ok(true),
            Err(error) if error.kind() == ErrorKind::Interrupted => Ok(false),
            Err(error) => {
                self.has_failed = true;
                Err(error)
            }
        }
    }

    /// Writes all of some bytes. An interrupted write is made again.
    fn write_out(&mut self, bytes: &[u8]) -> Result<(), KeepFault>
        ensures ok { OnOk result (Appends (sent W.contents self.old) (sent W.contents self.new) bytes.now) }
        ensures err { OnErr result (AppendsBeginning (sent W.contents self.old) (sent W.contents self.new) bytes.now) }
        ensures fault { IfErr result (λ e. e ≡ KeepFault.Write) }
        ensures stopped { OnErr result (HasStopped self.new) }
    {
        let mut written = 0;
        while self.calls < u64::MAX {
            if written == bytes.len() {
                return Ok(());
            }
            match self.write(&bytes[written..]) {
                Ok(count) => written += count,
                Err(_) => return Err(KeepFault::Write),
            }
        }
        Err(KeepFault::Write)
    }

    /// Flushes what is written. An interrupted flush is made again.
    fn flush_out(&mut self) -> Result<(), KeepFault>
        ensures sent { Keeps (sent W.contents self.old) (sent W.contents self.new) }
        ensures fault { IfErr result (λ e. e ≡ KeepFault.Write) }
        ensures stopped { OnErr result (HasStopped self.new) }
    {
        while self.calls < u64::MAX {
            match self.flush() {
                Ok(true) => return Ok(()),
                Ok(false) => {}
                Err(_) => return Err(KeepFault::Write),
            }
        }
        Err(KeepFault::Write)
    }

    /// Writes answers and flushes them, if there are any.
    pub(crate) fn send(&mut self, answers: &[u8]) -> Result<(), KeepFault>
        ensures ok { OnOk result (Appends (sent W.contents self.old) (sent W.contents self.new) answers.now) }
        ensures err { OnErr result (AppendsBeginning (sent W.contents self.old) (sent W.contents self.new) answers.now) }
        ensures fault { IfErr result (λ e. e ≡ KeepFault.Write) }
        ensures stopped { OnErr result (HasStopped self.new) }
    {
        if answers.is_empty() {
            return Ok(());
        }
        if let Err(fault) = self.write_out(answers) {
            return Err(fault);
        }
        self.flush_out()
    }
}
