//! What becomes of an edit that a chunkserver has refused: the server numbers it at no later event.

ghost use Rattle.gs_laws_server.specs.refusals.Refused.{OverChangeNothing, OverAreNotNumbered, OverStay, QuietTicks, RefusedAreNeverNumbered, RefusedAreNotNumbered, RefusedAreOver, TellsRefusals};

/// An edit that a chunkserver has refused is over, unless it was refused as older than another one of its client.
/// Over means that the server keeps a refusal of that client, under the edit's number or a greater one.
/// It stays over after each event: its message again, other edits, epochs, copies, losses and restarts.
/// An edit that is over isn't numbered. Its message leaves the server as it is. It is answered by a refusal or by nothing, or by how it was done, where another server has numbered it.
/// The same holds of each older edit of that client, of whichever chunk. So an edit that no earlier event has numbered is numbered at none.
/// An edit may be numbered first and refused later, as where its replica has gone. The other members that have it may still settle it.
pub fn a_refused_edit_is_never_numbered()
    ensures over { RefusedAreOver }
    ensures stay { OverStay }
    ensures unchanged { OverChangeNothing }
    ensures unnumbered { OverAreNotNumbered }
    ensures later { RefusedAreNotNumbered }
    ensures never { RefusedAreNeverNumbered }
{}

/// A server tells a client that its edit is refused only where it hears that edit and refuses it so. It tells so at no other message, and at no tick.
pub fn refusals_are_told_where_edits_are_refused()
    ensures heard { TellsRefusals }
    ensures ticked { QuietTicks }
{}
