//! How a store goes on, from where lines led to and from its image.
ghost use Rattle.gs_laws_image.specs.Laws.{ClosedDesksGoOn, ClosedDesksRest, GoOnAlike, ImagesGoOn, ImagesGoOnAlike, LinesGoOn, NewStoresGoOn, ReadDesksAreAlike, RestartsDropAll, ServersAreOfTheirStore, StoresGoOnFromImages};

use gs_block::promises::configurations_have_sizes;

/// A new store goes on as a store without disks, and so does one to which lines lead from there: that is what lines are answered, and what they leave. It is
/// said where memory isn't wanting and no disk fails.
pub fn a_store_goes_on_as_one_without_disks<D>()
    ensures begun { NewStoresGoOn D }
    ensures lines { LinesGoOn D }
{}

/// Two desks that go on as the same answer the same lines by the same texts, and are the same behind them but for their disks. What these are, and what
/// stood on them before, is of no account.
pub fn stores_that_go_on_as_the_same_answer_alike<D, E>()
    ensures { GoOnAlike D E }
{}

/// Where each server of such a store is restarted by a line, ascending, a restart has nothing to drop of any of them: no lease, and no bytes that were pushed.
pub fn restarts_drop_all<D>()
    ensures { RestartsDropAll D }
{}

/// Each server of such a store is one of its number and its sizes, and each of its slots is one of a store of the sizes: so is what stands of a chunk, what is
/// sealed, and what is in the trash. There are as many servers as the configuration says.
pub fn servers_are_of_their_store<D>()
    ensures { ServersAreOfTheirStore D }
{
    configurations_have_sizes();
}

/// The disks of a desk's master were closed. Of another desk all is the same, but for the past of its disks and what is kept of messages as text. A restart
/// of the master, and then any lines, are answered by that as by the first desk, had its disks never been closed. Both are the same behind these lines
/// but for their disks. So is the desk answered that was closed. It is said where memory wasn't wanting for these lines and no disk failed in
/// them. The other desk may be closed and have an image in turn.
pub fn desks_that_are_alike_go_on_alike()
    ensures function { ImagesGoOn }
    ensures closed { ClosedDesksGoOn }
    ensures alike { ImagesGoOnAlike }
{}

/// A store goes on from its image as from where it was closed. The disks of its master are closed, its image is written, and another desk is read of
/// that. A restart of the master, and then any lines, are answered by both alike, and leave the same but for the disks. It is said where memory isn't wanting
/// and no disk fails. The store that the image tells of is to be one that is read again: `is_desk_held` says so where a restart has nothing to drop of any server.
pub fn a_store_goes_on_from_its_image<D>()
    ensures rests { ClosedDesksRest D }
    ensures read { ReadDesksAreAlike }
    ensures goes_on { StoresGoOnFromImages }
{}
