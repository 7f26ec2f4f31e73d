//! What holds of all refusals and stamps.

ghost use Rattle.std.specs.Prelude.{◌≡◌, ◌↔◌, IsTrue, true, false};
ghost use Rattle.gs_base.specs.Refusals.{number_of};
ghost use Rattle.gs_base.specs.Stamps.{is_before};
ghost use Rattle.gs_base.specs.Told.{detail_text, IsRefusal};
ghost use Rattle.gs_base.specs.declared.numbers.Stamp.{Stamp as AnyStamp};
ghost use Rattle.gs_base.specs.declared.refusal.Refusal.{Refusal as AnyRefusal};

use crate::refusal::Refusal;

/// Number and detail tell a refusal from every other.
pub fn a_refusal_is_told_by_number_and_detail()
    ensures { (r s : AnyRefusal) → IsRefusal r → IsRefusal s → number_of r ≡ number_of s → detail_text r ≡ detail_text s → r ≡ s }
{}

/// Whether two refusals are the same, their details too.
pub fn are_same(left: &Refusal, right: &Refusal) -> bool
    ensures { IsTrue result ↔ (left.now ≡ right.now) }
{
    left == right
}

/// Of two stamps exactly one comes before the other, or they are the same; and the order carries over.
pub fn stamps_are_ordered()
    ensures before { (a b : AnyStamp) → is_before a b ≡ true → is_before b a ≡ false }
    ensures same { (a b : AnyStamp) → is_before a b ≡ false → is_before b a ≡ false → a ≡ b }
    ensures along { (a b c : AnyStamp) → is_before a b ≡ true → is_before b c ≡ true → is_before a c ≡ true }
{}
