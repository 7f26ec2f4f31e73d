use std::fmt;

/// How an epoch ended.
#[derive(Clone, Copy, Debug, PartialEq, Eq)]
pub enum EpochEnd {
    /// An upgrade began.
    Prepare,
    /// The upgrade was kept.
    Finalize,
    /// The upgrade was taken back.
    Rollback,
}

impl fmt::Display for EpochEnd {
    ghost use Rattle.std.specs.Prelude.{Some};
    ghost use Rattle.gs_base.specs.Texts.{end_text};

    ghost output = { λ end. Some (end_text end) };

    fn fmt<W: fmt::Write>(&self, f: &mut fmt::Formatter<W>) -> fmt::Result {
        match self {
            EpochEnd::Prepare => f.write_str("prepare"),
            EpochEnd::Finalize => f.write_str("finalize"),
            EpochEnd::Rollback => f.write_str("rollback"),
        }
    }
}
