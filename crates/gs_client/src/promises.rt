//! What holds of all calls of a client.
ghost use Rattle.std.specs.Prelude.{◌≡◌, ◌≤◌, ◌+◌, ℕ, List, length, false};
ghost use Rattle.gs_client.specs.Laws.{CallsAreServed, EachPartBeginsBehind, EachPartHasBytes, EditsAreServed};
ghost use Rattle.gs_client_part.specs.Writing.{part_start, part_bytes, part_count, is_out};
ghost use Rattle.gs_client.specs.Writing.{first_parts};

use crate::link::Link;

/// A link whose replies are a function of a world.
pub trait Serve: Link {
    ghost use Rattle.std.specs.Prelude.{◌≡◌};
    ghost use Rattle.gs_base.specs.declared.numbers.ReqId.{ReqId};
    ghost use Rattle.gs_msg.specs.declared.event.Request.{Request};
    ghost use Rattle.gs_client.specs.declared.link.Reply.{Reply};

    type World;

    /// The reply, and the world then.
    ghost serve: { Self.World → ReqId → Request → Reply × Self.World };

    /// The world of the link.
    ghost world: { Self → Self.World };

    ghost exact: { (old : Self) (req : ReqId) (request : Request) (reply : Reply) (new : Self) → Self.Carries old req request reply new → (reply, world new) ≡ serve (world old) req request };
}

/// Over such a link each call that doesn't lack memory of its own comes to what the function gives.
pub fn a_call_is_what_is_served<L: Serve, A>()
    ensures { CallsAreServed L.Carries L.serve L.world A }
{}

/// The same of the calls of a file that is open for writing, with how many of its edits are acknowledged.
pub fn an_edit_is_what_is_served<L: Serve, A>()
    ensures { EditsAreServed L.Carries L.serve L.world A }
{}

/// The parts of a write, one after another, are its bytes. Each part has some, fits into its chunk, and begins in the file where
/// the parts before it end.
pub fn the_parts_of_a_write_are_its_bytes()
    ensures joined { (size offset : ℕ) (bytes : List ℕ) → 1 ≤ size → is_out size offset bytes ≡ false → first_parts size offset bytes (part_count size offset bytes) ≡ bytes }
    ensures fits { (size offset : ℕ) (bytes : List ℕ) (i : ℕ) → 1 ≤ size → part_start size offset i + length (part_bytes size offset bytes i) ≤ size }
    ensures some { EachPartHasBytes }
    ensures begins { EachPartBeginsBehind }
{}
