//! What holds of each request of a caller.
ghost use Rattle.gs_cluster.specs.Laws.{KeptClientsAreOfTheirNumber, RepliesAreFromTheHistory};

use gs_journal::Disk;

/// The reply to a request of a caller is from what its history took in that request: a message brings it, or its own node refuses what is asked, of which the
/// history tells; or memory is wanting for the copy of a reply that a message brings, its clock is at its last value, or it isn't the client of the request.
pub fn a_reply_is_from_what_the_history_took<D: Disk + Drop>()
    ensures { RepliesAreFromTheHistory D.seen D.failures }
{}

/// A client that is kept is the client of its own number: so what is brought to it answers its own requests.
pub fn a_kept_client_is_the_client_of_its_number<D: Disk + Drop>()
    ensures { KeptClientsAreOfTheirNumber D.seen D.failures }
{}
