use crate::refusal::Refusal;

/// A call that takes a value for good and is refused hands it back, also where it has no memory.
#[derive(Debug, Drop)]
pub struct Refused<T> {
    pub refusal: Refusal,
    /// What the call was given, as it was.
    pub given: T,
}

impl<T: Drop> From<Refused<T>> for Refusal {
    ghost use Rattle.std.specs.Prelude.{◌≡◌};

    ghost from_gives = { λ refused e. e ≡ refused.refusal };

    fn from(refused: Refused<T>) -> Refusal {
        refused.refusal
    }
}
