// What notes of several nodes tell.
ghost use Rattle.std.specs.Prelude.{◌≡◌, IfErr, IfOk, List, map};
ghost use Rattle.std.specs.VecDeque.{deque_items};
ghost use Rattle.gs_base.specs.declared.refusal.Refusal.TheVariants as refusals;
ghost use Rattle.gs_msg.specs.Posts.{Posted};
ghost use Rattle.gs_cluster_history.specs.Histories.{Entry, Listed};
ghost use Rattle.gs_cluster_notes.specs.Notes.{AllKeep, TellsEvents, TellsSent, dated_all};

use crate::merging::merged;
use crate::notes::{Dated, Notes};
use gs_base::Refusal;
use gs_msg::{Event, Outbox};
use std::alloc::Global;
use std::collections::VecDeque;

/// The events of nodes, each of which has its clock, in one order, and what each has sent.
#[derive(Drop)]
pub struct Told {
    pub events: Vec<Event>,
    pub sent: Vec<Outbox>,
}

/// Whole notes, taken apart. `Memory` where they aren't whole, too.
fn parts_of(
    alloc: Global,
    notes: Vec<Notes>,
) -> Result<(Vec<VecDeque<Dated>>, Vec<Outbox>), Refusal>
    ensures events { IfOk result (λ p. (histories : List (List Entry)) (sent : List (List Listed)) → AllKeep notes.items histories sent → map deque_items p.0.items ≡ dated_all histories) }
    ensures sent { IfOk result (λ p. TellsSent notes.items (map (λ (o : Posted). o.posts) p.1.items)) }
    ensures refused { IfErr result (λ refusal. refusal ≡ refusals.Memory) }
{
    let mut lists = Vec::new(alloc);
    let mut outboxes = Vec::new(alloc);
    for one in notes {
        let Notes {
            events,
            sent,
            is_whole,
        } = one;
        if !is_whole {
            return Err(Refusal::Memory);
        }
        lists.push(events)?;
        outboxes.push(sent)?;
    }
    Ok((lists, outboxes))
}

/// What whole notes of nodes tell: all events by (clock, node), and what each node has sent. `Memory` where memory is wanting, or was
/// wanting for a note, or notes were not wanted.
pub fn told_by(alloc: Global, notes: Vec<Notes>) -> Result<Told, Refusal>
    ensures events { IfOk result (λ told. TellsEvents notes.items told.events.items) }
    ensures sent { IfOk result (λ told. TellsSent notes.items (map (λ (o : Posted). o.posts) told.sent.items)) }
    ensures refused { IfErr result (λ refusal. refusal ≡ refusals.Memory) }
{
    let (lists, sent) = parts_of(alloc, notes)?;
    let events = merged(alloc, lists)?;
    Ok(Told { events, sent })
}
