//! What holds of one chunk: each member of its settled view has its replica, unless that was lost.

ghost use Rattle.gs_laws_chunk.specs.members.Kept.{MembersAreThere};

/// This holds in each world of each run of a chunk's machine, where the master knows the chunk and no rollback goes on.
/// Each member of the settled view has a live replica, unless it was lost there after the member had promised what it promises.
/// So no message that was ever sent makes a member drop its replica, however late it comes. Nor does one go at a rollback that a member learns of late.
fn members_keep_their_replicas()
    ensures { MembersAreThere }
{}
