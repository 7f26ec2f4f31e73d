//! What holds of all calls of a client.
ghost use Rattle.std.specs.Prelude.{ℕ, IfSome};
ghost use Rattle.gs_client_dialogue.specs.Heard.{Says};
ghost use Rattle.gs_client.specs.Edits.{Edits};
ghost use Rattle.gs_client.specs.Sends.{Sends};
ghost use Rattle.gs_shell_grammar.specs.Grammar.{Request as Line};
ghost use Rattle.gs_shell_calls.specs.Asked.{asked_by};
ghost use Rattle.gs_shell_calls.specs.declared.answer.Answer.{Answer};
ghost use Rattle.gs_laws_causes.specs.Calls.{OfEachCall};
ghost use Rattle.gs_laws_causes.specs.Carried.{Carried, Explains};
ghost use Rattle.gs_laws_causes.specs.Laws.{CallsAreWays, WaysAreCalls, CausesCameOverTheLink};

use gs_client::Link;

/// What a call comes to is told by its requests with their replies: they are a way through its dialogue, each carried by the link, one after the other; and
/// each such way is a call.
fn a_call_is_a_way_through_its_dialogue<L: Link, A>()
    ensures goes { CallsAreWays L.Carries A }
    ensures comes { WaysAreCalls L.Carries A }
{}

/// Over any link, each 28 and 29 of a call is from one of the replies that came in that very call, and its place among them is told. Nothing is assumed of
/// the link.
///
/// A 28 is from a refusal that says so; from no answer to a call that only looks; or from the location of a chunk that has no members, or none of whose
/// members answered. A 29 is from a refusal that says so; or, of a request that may change something, from a refusal for memory or for a
/// disk, or from no answer. Where memory of the client's own is wanting that is the answer (33), and so is that it has no number left (31): both are no
/// cause, and the reply that is one came over the link.
fn an_unsure_answer_has_a_cause<L: Link>()
    ensures calls { OfEachCall (Explains (Sends L.Carries)) }
    ensures edits { OfEachCall (Explains (Edits L.Carries)) }
    ensures link { CausesCameOverTheLink L.Carries }
{}

/// The same of what a line asks, which may be several calls.
fn an_unsure_line_has_a_cause<L: Link>()
    ensures { (size : ℕ) (line : Line) → IfSome (asked_by size line) (Explains (Sends L.Carries) Answer) }
{}
