// What one who has an end of a channel knows of it, and the steps that change that.
use crossbeam_channel::protocol::{Join, Lesson, Outcome, Protocol, Split};
use gs_msg::Sent;
use std::collections::LinkedList;

/// What a pass has put and taken, and what it has of the whole: of 1,024 parts, and of the one ear. No value of it is made.
pub struct Hand {
    pub parts: u64,
    pub ears: u64,
    pub put: LinkedList<Sent>,
    pub taken: LinkedList<Sent>,
}

/// The rule of a channel.
pub struct Carries;

impl Protocol<Sent, Hand> for Carries {
    ghost use Rattle.gs_cluster_channel.specs.Carried.{Carried, whole};

    ghost holds = { Carried };

    ghost first = { whole };
}

/// A new pass gets one part.
pub struct Cut;

impl Split<Hand> for Cut {
    ghost use Rattle.std.specs.Prelude.{[], ◌-◌};
    ghost use Rattle.gs_cluster_channel.specs.Carried.{hand};

    ghost left = { λ v. hand (v.parts - 1) v.ears v.put v.taken };

    ghost right = { λ v. hand 1 0 [] [] };
}

/// A pass gets all that another has.
pub struct Joined;

impl Join<Hand> for Joined {
    ghost use Rattle.std.specs.Prelude.{[]};
    ghost use Rattle.gs_cluster_channel.specs.Carried.{hand, joined};

    ghost both = { joined };

    ghost spent = { hand 0 0 [] [] };
}

/// A try to send, of which the list put alone changes.
pub struct Puts;

impl Outcome<Sent, Hand> for Puts {
    ghost use Rattle.std.specs.Prelude.{◌≡◌, [], ◌∷◌, ◌++◌};
    ghost use Rattle.gs_cluster_channel.specs.Carried.{hand};

    ghost then = { λ v x w. w ≡ hand v.parts v.ears (v.put ++ x ∷ []) v.taken };
}

impl Lesson<Sent, Hand> for Puts {
    ghost use Rattle.std.specs.Prelude.{⊤};

    ghost fact = { λ v items. ⊤ };
}

/// A receive, of which the list taken alone changes.
pub struct Takes;

impl Outcome<Sent, Hand> for Takes {
    ghost use Rattle.std.specs.Prelude.{◌≡◌, [], ◌∷◌, ◌++◌};
    ghost use Rattle.gs_cluster_channel.specs.Carried.{hand};

    ghost then = { λ v x w. w ≡ hand v.parts v.ears v.put (v.taken ++ x ∷ []) };
}

impl Lesson<Sent, Hand> for Takes {
    ghost use Rattle.std.specs.Prelude.{⊤};

    ghost fact = { λ v items. ⊤ };
}

/// What the pass with every part learns: all that it has taken it has put.
pub struct Total;

impl Lesson<Sent, Hand> for Total {
    ghost use Rattle.gs_cluster_history.specs.Histories.{Among};
    ghost use Rattle.gs_msg.specs.declared.sent.Sent.{Sent};

    ghost fact = { λ v items. (x : Sent) → Among v.taken x → Among v.put x };
}

/// What a pass with two ears learns: there is none.
pub struct TwoEars;

impl Lesson<Sent, Hand> for TwoEars {
    ghost fact = { λ v items. ⊥ };
}
