//! What the master answers to calls of the tree, also to those that wait: what the plain machine answers, with the command that its records say.

ghost use Rattle.gs_laws_plain.specs.replies.Replies.{MessagesReplyAsPlain, TicksReplyAsPlain};
ghost use Rattle.gs_laws_plain.specs.replies.Steady.{MessagesAreMeek, MessagesReplyPlainly, TicksAreMeek, TicksReplyPlainly};
ghost use Rattle.gs_laws_plain.specs.replies.Waited.{MessagesAnswerWaited, TicksAnswerWaited};

use crate::calls_of_the_tree_do_what_they_answer;

/// A snapshot that has waited is answered as the plain tree answers it, by the names that stand behind the first records of its event, whatever texts the chunks have, or refused by the store. These are the records before its own,
/// which says the command that it is where it is made, and else its refusal; where that isn't recorded they are those up to some place. No other record of the event edits for it, or refuses it. Several may go on in one event, each by
/// what those before it have left.
fn snapshots_that_waited_are_answered_plainly()
    ensures messages { MessagesAnswerWaited }
    ensures ticks { TicksAnswerWaited }
{}

/// So each reply of an event, whoever gets it: it is what the plain tree answers to the call of the tree that comes, or to a snapshot that has waited, with the command that its records say, each under its number, or a refusal by the store; or it is
/// kept, and given once more to a call that comes again; or it is to a call that isn't of the tree.
fn replies_to_calls_of_the_tree_are_plain()
    ensures messages { MessagesReplyAsPlain }
    ensures ticks { TicksReplyAsPlain }
{
    calls_of_the_tree_do_what_they_answer();
}

/// A master whose state stands, as it does in each run, has the counts of chunks that its tree has, and no snapshot that waits names anything hidden: so each of its replies is such, by what is durable and by what the records of its
/// event lead to. So is each of one of which a disk has failed: that records nothing, and replies to nobody but the call that comes, which it refuses, or to which it gives what it keeps.
fn a_master_that_stands_replies_plainly()
    ensures messages { MessagesReplyPlainly }
    ensures ticks { TicksReplyPlainly }
    ensures failed { MessagesAreMeek }
    ensures failed_ticks { TicksAreMeek }
{
    calls_of_the_tree_do_what_they_answer();
}
