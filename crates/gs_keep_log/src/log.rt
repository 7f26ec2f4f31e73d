ghost use Rattle.std.specs.Prelude.{◌≡◌, ◌≤◌, false, length, IfSome, OnOk, OnErr, is_err};
ghost use Rattle.gs_keep_log.specs.Log.{LogDoes, LogDoesPart, appended, partly_appended, partly_shortened, settled, shortened, synced, whole};

/// A call of a log failed. The log says elsewhere why.
#[derive(Clone, Copy, Debug, PartialEq, Eq)]
pub struct Failed;

/// Bytes that grow at their end. A crash leaves what was synced, and behind it any bytes, no more than were appended since.
///
/// Of a log that isn't known nothing is said but whether it has failed. Once a call has failed no other may be made: what a
/// disk does behind a failure nobody promises.
pub trait Log {
    ghost use Rattle.std.specs.Prelude.{Bool, Option};
    ghost use Rattle.gs_keep_log.specs.Log.{Held};

    /// What the log holds, where that is known.
    ghost holds: { Self → Option Held };

    /// Whether a call has failed.
    ghost has_failed: { Self → Bool };

    /// Puts bytes behind all that stands. Where it fails, a beginning of them may stand there.
    fn append(&mut self, bytes: &[u8]) -> Result<(), Failed>
        requires { has_failed self.old ≡ false }
        ensures ok { OnOk result (LogDoes (appended bytes.now) (holds self.old) (holds self.new)) }
        ensures err { OnErr result (LogDoesPart (partly_appended bytes.now) (holds self.old) (holds self.new)) }
        ensures failed { has_failed self.new ≡ is_err result };

    /// Waits until each crash leaves all that was appended. Where it fails, that may hold for a beginning of it.
    fn sync(&mut self) -> Result<(), Failed>
        requires { has_failed self.old ≡ false }
        ensures ok { OnOk result (LogDoes synced (holds self.old) (holds self.new)) }
        ensures err { OnErr result (LogDoesPart settled (holds self.old) (holds self.new)) }
        ensures failed { has_failed self.new ≡ is_err result };

    /// Cuts the log behind its first `len` bytes, and waits until each crash leaves these. Where it fails, a crash may leave any
    /// length from the old one to the new one.
    fn cut(&mut self, len: u64) -> Result<(), Failed>
        requires goes_on { has_failed self.old ≡ false }
        requires within { IfSome (holds self.old) (λ h. len ≤ length (whole h)) }
        ensures ok { OnOk result (LogDoes (shortened len) (holds self.old) (holds self.new)) }
        ensures err { OnErr result (LogDoesPart (partly_shortened len) (holds self.old) (holds self.new)) }
        ensures failed { has_failed self.new ≡ is_err result };
}
