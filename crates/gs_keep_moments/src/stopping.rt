// A log that stops.
ghost use Rattle.std.specs.Prelude.{◌≡◌, ◌≤◌, ◌-◌, ◌==◌, ◌||◌, false, not, length, IfSome, OnOk, OnErr, is_err};
ghost use Rattle.gs_keep_log.specs.Log.{LogDoes, LogDoesPart, appended, partly_appended, partly_shortened, settled, shortened, synced, whole};
ghost use Rattle.gs_keep_moments.specs.Moments.{Stops};

use gs_keep_log::{Failed, Log};

/// A log over another, of which so many appends and syncs pass, and every later one fails and does nothing. Those that pass, and each
/// cut, are calls of the log below.
#[derive(Drop)]
pub struct StoppingLog<L> {
    log: L,
    calls: u64,
    has_stopped: bool,
}

/// Counts a call, and says whether it passes.
fn takes_call(calls: &mut u64) -> bool
    ensures counted { calls.new ≡ calls.old - 1 }
    ensures passes { result ≡ not (calls.old == 0) }
{
    if *calls == 0 {
        return false;
    }
    *calls -= 1;
    true
}

impl<L> StoppingLog<L> {
    /// A log over this one, of which so many appends and syncs pass.
    pub fn new(log: L, calls: u64) -> StoppingLog<L>
        ensures log { result.log ≡ log }
        ensures calls { result.calls ≡ calls }
        ensures goes_on { result.has_stopped ≡ false }
    {
        StoppingLog {
            log,
            calls,
            has_stopped: false,
        }
    }

    /// The log below.
    pub fn into_log(self) -> L
        ensures { result ≡ self.log }
    {
        let Self {
            log,
            calls: _,
            has_stopped: _,
        } = self;
        log
    }
}

impl<L: Log> Log for StoppingLog<L> {
    ghost use Rattle.std.specs.Prelude.{◌||◌};

    ghost holds = { λ s. L.holds s.log };

    ghost has_failed = { λ s. s.has_stopped || L.has_failed s.log };

    fn append(&mut self, bytes: &[u8]) -> Result<(), Failed>
        requires { (self.old.has_stopped || L.has_failed self.old.log) ≡ false }
        ensures ok { OnOk result (LogDoes (appended bytes.now) (L.holds self.old.log) (L.holds self.new.log)) }
        ensures err { OnErr result (LogDoesPart (partly_appended bytes.now) (L.holds self.old.log) (L.holds self.new.log)) }
        ensures failed { (self.new.has_stopped || L.has_failed self.new.log) ≡ is_err result }
        ensures stops { Stops self.old self.new }
    {
        if takes_call(&mut self.calls) {
            return self.log.append(bytes);
        }
        self.has_stopped = true;
        Err(Failed)
    }

    fn sync(&mut self) -> Result<(), Failed>
        requires { (self.old.has_stopped || L.has_failed self.old.log) ≡ false }
        ensures ok { OnOk result (LogDoes synced (L.holds self.old.log) (L.holds self.new.log)) }
        ensures err { OnErr result (LogDoesPart settled (L.holds self.old.log) (L.holds self.new.log)) }
        ensures failed { (self.new.has_stopped || L.has_failed self.new.log) ≡ is_err result }
        ensures stops { Stops self.old self.new }
    {
        if takes_call(&mut self.calls) {
            return self.log.sync();
        }
        self.has_stopped = true;
        Err(Failed)
    }

    fn cut(&mut self, len: u64) -> Result<(), Failed>
        requires goes_on { (self.old.has_stopped || L.has_failed self.old.log) ≡ false }
        requires within { IfSome (L.holds self.old.log) (λ h. len ≤ length (whole h)) }
        ensures ok { OnOk result (LogDoes (shortened len) (L.holds self.old.log) (L.holds self.new.log)) }
        ensures err { OnErr result (LogDoesPart (partly_shortened len) (L.holds self.old.log) (L.holds self.new.log)) }
        ensures failed { (self.new.has_stopped || L.has_failed self.new.log) ≡ is_err result }
        ensures calls { (self.new.calls ≡ self.old.calls) × (self.new.has_stopped ≡ self.old.has_stopped) }
    {
        self.log.cut(len)
    }
}
