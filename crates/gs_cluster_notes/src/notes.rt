// What is kept of a node's history at run time.
ghost use Rattle.std.specs.Prelude.{◌≡◌, [], IfSome, IsTrue, map};
ghost use Rattle.gs_base.specs.declared.numbers.Moment.{Moment as AMoment};
ghost use Rattle.gs_msg.specs.Posts.{posted};
ghost use Rattle.gs_cluster_history.specs.Histories.{listed};
ghost use Rattle.gs_cluster_history.specs.Merging.{event_of};
ghost use Rattle.gs_cluster_notes.specs.Notes.{Keeps, KeepsOneMore};
ghost use Rattle.gs_cluster_notes.specs.inner.Noting.{Adds, Posts};

use gs_base::Moment;
use gs_cluster_history::Took;
use gs_msg::{Event, Happening, Message, MsgId, Outbox};
use std::alloc::Global;
use std::collections::VecDeque;

/// An event of a node, and the node's clock at it.
#[derive(Debug, Drop)]
pub struct Dated {
    pub clock: u64,
    pub event: Event,
}

/// A node's events in their order, and all that it has sent, as long as nothing was wanting for them: then the notes are whole.
#[derive(Drop)]
pub struct Notes {
    pub events: VecDeque<Dated>,
    pub sent: Outbox,
    pub is_whole: bool,
}

/// Sends copies of messages, until memory is wanting for one. The answer is whether all were sent.
fn post_all(alloc: Global, outbox: &mut Outbox, moment: Moment, messages: &[Message]) -> bool
    ensures { Posts moment messages.now result outbox.old.posts outbox.new.posts }
{
    for message in messages.iter() {
        let Ok(copy) = message.copy(alloc) else {
            return false;
        };
        if outbox.post(moment, copy).is_err() {
            return false;
        }
    }
    true
}

/// The event that taking something is.
fn event_from(alloc: Global, took: &Took) -> Option<Event>
    ensures { IfSome result (λ event. event ≡ event_of took.now) }
{
    match took {
        Took::Heard(sent) => Some(Event {
            moment: sent.moment,
            happening: Happening::Deliver(MsgId {
                sender: sent.from,
                place: sent.place,
            }),
        }),
        Took::Did(event) => event.copy(alloc).ok(),
    }
}

impl Notes {
    /// Of a node that has taken nothing, with what it sends at first. Where they aren't wanted, nothing is ever noted.
    pub fn first(alloc: Global, are_wanted: bool, sent: &[Message]) -> Notes
        ensures { Keeps result [] (map (listed 0 (record { 0 = 0 })) sent.now) }
    {
        let mut outbox = Outbox::new(alloc);
        let is_whole = are_wanted && post_all(alloc, &mut outbox, Moment(0), sent);
        Notes {
            events: VecDeque::new(alloc),
            sent: outbox,
            is_whole,
        }
    }

    /// What is to be noted of an event at this clock, if anything is, and there is memory for it.
    pub fn dated(&self, alloc: Global, clock: u64, took: &Took) -> Option<Dated>
        ensures { IfSome result (λ d. d ≡ record { clock = clock; event = event_of took.now }) }
    {
        if !self.is_whole {
            return None;
        }
        match event_from(alloc, took) {
            Some(event) => Some(Dated { clock, event }),
            None => None,
        }
    }

    /// Notes an event and copies of what was sent at it. The answer is whether there was memory for all of it.
    fn add(&mut self, alloc: Global, dated: Dated, sent: &[Message]) -> bool
        ensures { Adds dated sent.now result self.old self.new }
    {
        let moment = dated.event.moment;
        if self.events.push_back(dated).is_err() {
            return false;
        }
        post_all(alloc, &mut self.sent, moment, sent)
    }

    /// Notes an event, and what was sent at it. Where one of them can't be, nothing is noted from then on.
    pub fn note(&mut self, alloc: Global, dated: Option<Dated>, sent: &[Message])
        ensures { KeepsOneMore dated sent.now self.old self.new }
    {
        let Some(dated) = dated else {
            self.is_whole = false;
            return;
        };
        if self.add(alloc, dated, sent) {
            return;
        }
        self.is_whole = false;
    }
}
