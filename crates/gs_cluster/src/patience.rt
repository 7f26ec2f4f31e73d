// How long a caller waits for a reply.
ghost use Rattle.std.specs.Prelude.{◌≡◌, ◌+◌, ◌≤◌, ◌↔◌, IsTrue};
ghost use Rattle.gs_cluster.specs.Calling.{most_vain};
ghost use Rattle.gs_cluster.specs.inner.Looking.{AsksAgain, Begins};

use gs_cluster_threads::Rounds;

/// So often a caller asks in vain, one time after the other, before it gives a request up. Before each of these times nothing was under way any more, and
/// the clock of a node where something waits had time to tick. No request needs more than three ticks: a chunk that is shared is made quiet, copied and
/// leased before it is written to, and one tick ends each of these steps whoever has answered.
const MOST_VAIN: u64 = 8;

/// How long a caller has waited: how often it has looked since it heard or asked, in which round it asked last, and how often it has asked in vain, over
/// its life and up to when it heard last.
#[derive(Drop)]
pub(crate) struct Patience {
    pub(crate) looks: u32,
    since: u64,
    pub(crate) vain: u64,
    heard: u64,
}

impl Patience {
    /// That of a caller that has asked nothing.
    pub(crate) fn new() -> Patience {
        Patience {
            looks: 0,
            since: 0,
            vain: 0,
            heard: 0,
        }
    }

    /// It has asked something new.
    pub(crate) fn begin(&mut self, rounds: &Rounds)
        ensures { Begins self.old self.new }
    {
        self.since = rounds.now();
        self.hear();
    }

    /// It has heard something.
    pub(crate) fn hear(&mut self)
        ensures { Begins self.old self.new }
    {
        self.looks = 0;
        self.heard = self.vain;
    }

    /// It has asked once more: in vain, where nothing is under way any more that came of when it asked before.
    pub(crate) fn ask_again(&mut self, rounds: &Rounds)
        ensures { AsksAgain self.old self.new }
    {
        if rounds.are_behind(self.since) {
            self.vain = self.vain.saturating_add(1);
        }
        self.since = rounds.now();
        self.looks = 0;
    }

    /// Whether it has asked in vain for so often that it gives up.
    pub(crate) fn is_over(&self) -> bool
        ensures { IsTrue result ↔ (self.now.heard + most_vain ≤ self.now.vain) }
    {
        self.vain.saturating_sub(self.heard) >= MOST_VAIN
    }
}
