// Which calls of a disk fail.
ghost use Rattle.std.specs.Prelude.{◌≡◌, ◌-◌, ◌==◌, not};
ghost use Rattle.gs_journal.specs.Faults.{fails, next};

/// Which calls of a disk fail, counted from when the disk is given the fault. A call that fails does nothing, but for what
/// `Tear` says.
#[derive(Debug, Drop)]
pub enum Fault {
    /// No call fails.
    Never,
    /// So many calls pass, and the one behind them fails.
    Fail(u64),
    /// So many calls pass, and each one behind them fails.
    Stop(u64),
    /// The same, where a write that fails leaves these bytes in place of the first of those that it was given, or as many of
    /// them as it was given.
    Tear(u64, Vec<u8>),
}

/// Counts a call, and says whether it passes.
pub(crate) fn takes_call(calls: &mut u64) -> bool
    ensures counted { calls.new ≡ calls.old - 1 }
    ensures passes { result ≡ not (calls.old == 0) }
{
    if *calls == 0 {
        return false;
    }
    *calls -= 1;
    true
}

impl Fault {
    /// Counts a call, and says whether it passes.
    pub(crate) fn passes(&mut self) -> bool
        ensures passes { result ≡ not (fails self.old) }
        ensures next { self.new ≡ next self.old }
    {
        match self {
            Fault::Never => true,
            Fault::Fail(0) => {
                *self = Fault::Never;
                false
            }
            Fault::Fail(calls) => takes_call(calls),
            Fault::Stop(calls) => takes_call(calls),
            Fault::Tear(calls, _) => takes_call(calls),
        }
    }
}
