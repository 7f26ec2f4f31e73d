use gs_shell_script::Answering;
use std::alloc::{AllocError, Global};

/// What answers lines, and says which of them may change it.
pub trait Keeping: Answering {
    ghost use Rattle.std.specs.Prelude.{◌≡◌, ◌⊎◌, ◌∷◌, ℕ, Bool, false, List, Option, Some, IfOk, option_map};
    ghost use Rattle.gs_shell_script.specs.Run.{bad_line_text, memory_text};
    ghost use Rattle.gs_keep.specs.Lines.{IsOwnLine};

    /// Whether a line given without its end may change anything.
    ghost is_kept: { List ℕ → Bool };

    /// Whether a line given without its end, which may stand in a log, isn't taken from the input.
    ghost is_turned_away: { Self → List ℕ → Bool };

    /// The line of its own that is due, with its end.
    ghost own: { Self → Option (List ℕ) };

    /// Whether a line given without its end may change anything. `Err` where memory is lacking to tell.
    fn keeps(&self, alloc: Global, line: &[u8]) -> Result<bool, AllocError>
        ensures { IfOk result (λ kept. kept ≡ is_kept line.now) };

    /// Whether a line given without its end isn't taken from the input. Then it isn't asked about. `Err` where memory is lacking to tell.
    fn turns_away(&self, alloc: Global, line: &[u8]) -> Result<bool, AllocError>
        ensures { IfOk result (λ away. away ≡ is_turned_away self.now line.now) };

    /// The line of its own that is to be run behind what it was asked, with its end, if one is due. It is logged as those of the input are,
    /// and its answer isn't sent.
    fn own_line(&self) -> Option<&'static [u8]>
        ensures { option_map (λ line. line.now) result ≡ own self.now };

    /// Such a line may stand in a log, and isn't turned away.
    ghost own_lines_stand: { (s : Self) (line : List ℕ) → own s ≡ Some line → IsOwnLine is_kept is_turned_away s line };

    /// A line that may change nothing doesn't.
    ghost changes_nothing: { (old new : Self) (line text : List ℕ) → is_kept line ≡ false → Self.Answers old line text new → new ≡ old };

    /// And it is refused as a bad line, unless memory is lacking for it.
    ghost is_refused: { (old new : Self) (line text : List ℕ) → is_kept line ≡ false → Self.Answers old line text new → (text ≡ bad_line_text) ⊎ (text ≡ memory_text) };

    /// What begins as a mark is such a line.
    ghost marks_are_none: { (line : List ℕ) → is_kept (35 ∷ line) ≡ false };
}
