ghost use Rattle.std.specs.Prelude.{◌≡◌, ◌++◌, ◌∷◌, [], ℕ, List, MatchOption};
ghost use Rattle.gs_place.specs.Needs.{shortfall, is_needy, needs_more, needier, most_needed_of, NoneIsNeedy, IsMostNeeded};

use gs_base::{Config, Handle};

/// What the choice of a chunk for a new replica looks at.
#[derive(Clone, Copy, Debug)]
pub struct Need {
    pub handle: Handle,
    /// How many places of files refer to the chunk.
    pub references: u32,
    /// Whether one of these files stands at a visible path.
    pub is_visible: bool,
    /// How many members its settled view has.
    pub members: u64,
}

/// The chunk that needs a new replica most, of those that lack one and have a reference and a member: that of the
/// greatest shortfall, then of a visible path before others, then the lowest. After the GFS paper on re-replication, where
/// chunks are ordered by how far they are from their goal, and those of live files come first.
pub fn most_needed(config: &Config, needs: &[Need]) -> Option<Handle>
    ensures function { result ≡ most_needed_of config.now.replicas needs.now }
    ensures most { MatchOption result (NoneIsNeedy config.now.replicas needs.now) (IsMostNeeded config.now.replicas needs.now) }
{
    let mut needed = Needed::new(config);
    for need in needs {
        needed.offer(*need);
    }
    needed.handle()
}

/// The chunk that needs a new replica most of those that were offered. It keeps no list of them.
#[derive(Clone, Copy, Debug)]
pub struct Needed {
    replicas: u64,
    most: Option<Need>,
}

impl Needed {
    ghost use Rattle.gs_place.specs.Offered.{IsNeeded};

    /// Of no chunk.
    pub fn new(config: &Config) -> Needed
        ensures { IsNeeded config.now.replicas [] result }
    {
        Needed {
            replicas: config.replicas,
            most: None,
        }
    }

    /// Offers one more chunk.
    pub fn offer(&mut self, need: Need)
        ensures { (replicas : ℕ) (needs : List Need) → IsNeeded replicas needs self.old → IsNeeded replicas (needs ++ need ∷ []) self.new }
    {
        self.most = needier(self.replicas, self.most, need);
    }

    /// The chunk that needs a new replica most of all that were offered.
    pub fn handle(&self) -> Option<Handle>
        ensures function { (replicas : ℕ) (needs : List Need) → IsNeeded replicas needs self.now → result ≡ most_needed_of replicas needs }
        ensures most { (replicas : ℕ) (needs : List Need) → IsNeeded replicas needs self.now → MatchOption result (NoneIsNeedy replicas needs) (IsMostNeeded replicas needs) }
    {
        let need = self.most?;
        Some(need.handle)
    }
}

/// The chunk that needs more, of one that is needy and another, if that is needy.
fn needier(replicas: u64, most: Option<Need>, need: Need) -> Option<Need>
    ensures { result ≡ needier replicas most need }
{
    if !is_needy(replicas, &need) {
        return most;
    }
    match most {
        Some(other) => {
            if needs_more(replicas, &need, &other) {
                Some(need)
            } else {
                Some(other)
            }
        }
        None => Some(need),
    }
}

fn is_needy(replicas: u64, need: &Need) -> bool
    ensures { result ≡ is_needy replicas need.now }
{
    need.references > 0 && need.members > 0 && need.members < replicas
}

fn shortfall(replicas: u64, need: &Need) -> u64
    ensures { result ≡ shortfall replicas need.now }
{
    replicas.saturating_sub(need.members)
}

fn needs_more(replicas: u64, need: &Need, other: &Need) -> bool
    ensures { result ≡ needs_more replicas need.now other.now }
{
    let (lacks, other_lacks) = (shortfall(replicas, need), shortfall(replicas, other));
    if lacks != other_lacks {
        return other_lacks < lacks;
    }
    if need.is_visible != other.is_visible {
        return need.is_visible;
    }
    need.handle < other.handle
}
