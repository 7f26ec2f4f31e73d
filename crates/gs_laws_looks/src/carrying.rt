//! What a desk carries for a client is a call with its answer, as the laws of calls have it.

ghost use Rattle.gs_laws_looks.specs.carrying.Asked.{RequestsAreCarried};
ghost use Rattle.gs_laws_looks.specs.carrying.Carried.{CallsAreCarried};
ghost use Rattle.gs_laws_looks.specs.carrying.Exchanged.{LooksAreCarried};
ghost use Rattle.std.specs.Prelude.{List, ℕ};

/// A desk carries a call of a client to an answer: that is a run of a store, in which the client asks under that number, and has the answer behind deliveries and ticks, at which nothing is asked; and then it takes it.
fn a_call_that_is_carried_has_its_answer<D>()
    ensures { (seen : D → List ℕ) (failures : D → ℕ) → CallsAreCarried seen failures }
{}

/// A desk carries a look-up, or a fetch, of a client to a reply: that is a run of a store, in which the client asks under that number, and has an answer, or a part of a chunk, behind steps at which nothing is asked of the
/// master but look-ups; and then it takes it. Where it is refused, or nothing comes, nothing else is asked of the master meanwhile either.
fn a_look_that_is_carried_has_its_reply<D>()
    ensures { (seen : D → List ℕ) (failures : D → ℕ) → LooksAreCarried seen failures }
{}

/// A desk carries a request of a client, whatever it asks: a call that waits, or an edit, too. That is a run of a store: the client asks under a number that is fresh, behind that messages are delivered and nodes tick, and nothing else happens, and then the
/// client takes what it has. What the request comes to is that, or where it has nothing that the request is lost. Or the client is refused at once, and nothing else happens.
fn each_request_that_is_carried_has_its_reply<D>()
    ensures { (seen : D → List ℕ) (failures : D → ℕ) → RequestsAreCarried seen failures }
{}
