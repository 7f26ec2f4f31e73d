// Histories by their clocks.
ghost use Rattle.std.specs.Prelude.{◌≡◌, IfOk, Option, map};
ghost use Rattle.std.specs.VecDeque.{deque_items};
ghost use Rattle.gs_cluster_notes.specs.inner.Firsts.{Next, first_in, sooner_of};
ghost use Rattle.gs_cluster_notes.specs.inner.Noting.{AreMerged};
ghost use Rattle.gs_cluster_notes.specs.declared.merging.First.{First as AFirst};

use crate::notes::Dated;
use gs_msg::Event;
use std::alloc::{AllocError, Global};
use std::collections::VecDeque;

/// Which list's first event comes first, and its clock.
#[derive(Clone, Copy)]
struct First {
    at: usize,
    clock: u64,
}

/// The one of the lesser clock, the former of equal ones.
fn sooner(at: usize, list: &VecDeque<Dated>, first: Option<First>) -> Option<First>
    ensures { result ≡ sooner_of at list.now.items first }
{
    let Some(dated) = list.front() else {
        return first;
    };
    let here = First {
        at,
        clock: dated.clock,
    };
    match first {
        Some(other) if other.clock < here.clock => Some(other),
        _ => Some(here),
    }
}

/// The list whose first event has the least clock, the foremost of several.
fn first_of(lists: &Vec<VecDeque<Dated>>) -> Option<First>
    ensures { result ≡ first_in 0 (map deque_items lists.now.items) }
{
    let mut first = None;
    let mut at = lists.len();
    while at > 0 {
        at -= 1;
        first = sooner(at, &lists[at], first);
    }
    first
}

/// Takes the event that comes first, if one is left.
fn next_of(lists: &mut Vec<VecDeque<Dated>>) -> Option<Event>
    ensures { Next (map deque_items lists.old.items) result (map deque_items lists.new.items) }
{
    let First { at, clock: _ } = first_of(lists)?;
    let Dated { clock: _, event } = lists[at].pop_front()?;
    Some(event)
}

/// The events of all histories by (clock, history), where each list is a history of its events with their clocks.
pub(crate) fn merged(alloc: Global, lists: Vec<VecDeque<Dated>>) -> Result<Vec<Event>, AllocError>
    ensures { IfOk result (λ events. AreMerged (map deque_items lists.items) events.items) }
{
    let mut lists = lists;
    let mut events = Vec::new(alloc);
    while let Some(event) = next_of(&mut lists) {
        events.push(event)?;
    }
    Ok(events)
}
