//! What holds of all calls of a caller.
ghost use Rattle.std.specs.Prelude.{ℕ, IfSome};
ghost use Rattle.gs_client.specs.Edits.{Edits};
ghost use Rattle.gs_client.specs.Sends.{Sends};
ghost use Rattle.gs_client.specs.declared.client.Client.{Client};
ghost use Rattle.gs_cluster.specs.Linked.{carried};
ghost use Rattle.gs_cluster.specs.declared.caller.Caller.{Caller};
ghost use Rattle.gs_shell_calls.specs.declared.answer.Answer.{Answer};
ghost use Rattle.gs_shell_grammar.specs.Grammar.{Request as Line};
ghost use Rattle.gs_shell_threads.specs.Asked.{asked_in_threads};
ghost use Rattle.gs_laws_causes.specs.Calls.{OfEachCall};
ghost use Rattle.gs_laws_threads.specs.Told.{Tells};

use gs_cluster_node::Plan;
use gs_journal::Disk;
use std::sync::Wait;
use std::time::Clock;

/// Each 28 and 29 of a call of a caller has a cause that its history took in that call.
///
/// A 28 is from a message that brings that refusal, or the location of a chunk without members; or nothing came to a look-up, or from any member of a chunk
/// that was found. A 29 is from a message that brings that refusal, or that memory or a disk was wanting for a request that may change something; or
/// nothing came to such a request; or memory of the caller's own was wanting for it, or for the copy of a reply that has a path, names, a status or bytes.
/// That nothing came means: of what its history took from the request on, until its next request or the end of the call, nothing answers that request.
/// Neither is from a clock or a number at its last value.
pub fn an_unsure_caller_has_a_cause<N: Plan, D: Disk + Drop, R: Wait + Clock + Drop>()
    ensures calls { OfEachCall (Tells (Sends (carried {N = N} {R = R} D.seen D.failures)) (λ (s : Client × Caller N D R). s.1.node)) }
    ensures edits { OfEachCall (Tells (Edits (carried {N = N} {R = R} D.seen D.failures)) (λ (s : Client × ℕ × Caller N D R). s.2.node)) }
    ensures lines { (size : ℕ) (line : Line) → IfSome (asked_in_threads size line) (Tells (Sends (carried {N = N} {R = R} D.seen D.failures)) (λ (s : Client × Caller N D R). s.1.node) Answer) }
{}
