ghost use Rattle.std.specs.Prelude.{◌≡◌, ◌≤◌, length, IfOk, IfSome, OnOk, OnErr};
ghost use Rattle.gs_keep_log.specs.Log.{LogDoes, LogDoesPart, partly_appended, partly_shortened, settled, shortened, synced, whole};

use std::io;
use thiserror::Error;

/// Why a call of a log's file failed, with the text for standard error, behind the file's name.
#[derive(Debug, Drop, Error)]
pub enum FileFault {
    /// The system refused it.
    #[error("{0}")]
    System(io::Error),
    #[error("no file has its name any more: it was taken away or renamed below this run")]
    Gone,
    #[error("another file has its name: it was renamed or replaced below this run")]
    Replaced,
    #[error("it has {found} bytes where this run knows of {known}: another program has changed it")]
    Changed { known: u64, found: u64 },
}

/// What a log asks of a file. What a file of the system does of it is trusted: of that nothing is known, so its calls may by
/// contract do anything.
pub trait LogFile {
    ghost use Rattle.std.specs.Prelude.{Option};
    ghost use Rattle.gs_keep_log.specs.Log.{Held};

    /// What the file holds, where that is known.
    ghost holds: { Self → Option Held };

    /// Looks whether the file still has its name, and is so long.
    fn check(&self, len: u64) -> Result<(), FileFault>
        ensures { OnOk result (IfSome (holds self.now) (λ h. length (whole h) ≡ len)) };

    /// Writes a beginning of the bytes behind all that stands, and says how long it is. Where it fails nothing is written.
    fn write_end(&mut self, bytes: &[u8]) -> io::Result<usize>
        ensures bound { IfOk result (λ count. count ≤ length bytes.now) }
        ensures ok { IfOk result (λ count. LogDoes (partly_appended bytes.now count) (holds self.old) (holds self.new)) }
        ensures err { OnErr result (holds self.new ≡ holds self.old) };

    /// Waits until each crash leaves all that was written. Where it fails, that may hold for a beginning of it.
    fn sync(&mut self) -> io::Result<()>
        ensures ok { OnOk result (LogDoes synced (holds self.old) (holds self.new)) }
        ensures err { OnErr result (LogDoesPart settled (holds self.old) (holds self.new)) };

    /// Cuts the file behind its first `len` bytes, and waits until each crash leaves these. Where it fails, a crash may leave any
    /// length from the old one to the new one. A file that hasn't its name any more, or isn't as long as is `known`, isn't cut.
    fn cut(&mut self, known: u64, len: u64) -> Result<(), FileFault>
        requires { IfSome (holds self.old) (λ h. len ≤ length (whole h)) }
        ensures ok { OnOk result (LogDoes (shortened len) (holds self.old) (holds self.new)) }
        ensures err { OnErr result (LogDoesPart (partly_shortened len) (holds self.old) (holds self.new)) };

    /// Cuts the file behind its first `len` bytes, if it still has its name and is longer, syncs it, and says whether it was cut.
    /// Nothing is claimed of what it holds from then on: it is called where another call has failed.
    fn cut_back(&mut self, len: u64) -> Result<bool, FileFault>;
}
