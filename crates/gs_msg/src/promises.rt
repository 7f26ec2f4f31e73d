//! What holds of all kinds of messages.

ghost use Rattle.std.specs.Prelude.{◌≡◌, List, ℕ, Some};
ghost use Rattle.gs_msg.specs.Kinds.{name_of, named};
ghost use Rattle.gs_msg.specs.declared.kind.Kind.{Kind as AnyKind};

/// A kind is the one of its name, and of no other word.
pub fn a_kind_is_known_by_its_name()
    ensures own { (kind : AnyKind) → named (name_of kind) ≡ Some kind }
    ensures alone { (word : List ℕ) (kind : AnyKind) → named word ≡ Some kind → name_of kind ≡ word }
{}
