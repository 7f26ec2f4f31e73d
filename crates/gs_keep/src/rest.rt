use gs_keep_log::Failed;

/// What stands in a log after what is run again. It is put aside before it is cut off, so that nothing goes that somebody may look for.
pub trait Rest {
    ghost use Rattle.std.specs.Prelude.{◌≡◌, ℕ, Bool, List, is_err};

    /// Its bytes.
    ghost bytes: { Self → List ℕ };

    /// Whether they stand in the log alone, as far as is known: each crash leaves them elsewhere too, where they don't.
    ghost is_alone: { Self → Bool };

    /// Puts them aside, and waits until each crash leaves them there. Where there are none, nothing has to be done.
    fn put_aside(&mut self) -> Result<(), Failed>
        ensures aside { is_alone self.new ≡ is_err result }
        ensures same { bytes self.new ≡ bytes self.old };
}
