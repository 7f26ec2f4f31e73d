ghost use Rattle.std.specs.Prelude.{◌≡◌, ◌<◌, ℕ, false, IfSome, IfNone, IfOk, OnErr};
ghost use Rattle.gs_place.specs.Targets.{is_rack_used, is_candidate, comes_before, earlier, first_candidate, GivesTargets, IsFirst, AreTargets, RunsOut};

use gs_base::{Config, Members, Refusal, ServerId};

/// As many servers as are wanted for replicas of a chunk that has these members now: of a new chunk none. `replicas` says
/// of each server how many views have it as member. They are picked one by one: a server on a rack that neither a member
/// nor a target stands on, if there is one, then the server with the fewest replicas, then the lowest. `NoServer` where a
/// pick finds no server that is neither member nor target. Spreading over racks is after the GFS paper.
pub fn targets(
    config: &Config,
    replicas: &[u64; 16],
    present: Members,
    wanted: u64,
) -> Result<Members, Refusal>
    ensures targets { GivesTargets config.now.servers config.now.racks replicas.now present wanted result }
    ensures first { IfOk result (AreTargets config.now.servers config.now.racks replicas.now present wanted) }
    ensures none { OnErr result (RunsOut config.now.servers config.now.racks replicas.now present wanted) }
{
    let mut taken = present;
    let mut targets = Members::none();
    for _pick in 0..wanted {
        let Some(target) = first_candidate(config, replicas, taken) else {
            return Err(Refusal::NoServer);
        };
        taken.insert(target);
        targets.insert(target);
    }
    Ok(targets)
}

fn first_candidate(config: &Config, replicas: &[u64; 16], taken: Members) -> Option<ServerId>
    ensures function { result ≡ first_candidate config.now.servers config.now.racks replicas.now taken }
    ensures first { IfSome result (IsFirst config.now.servers config.now.racks replicas.now taken) }
    ensures none { IfNone result ((server : ℕ) → is_candidate config.now.servers taken server ≡ false) }
{
    let mut first = None;
    for number in 0..config.servers {
        let server = ServerId::new(number).unwrap();
        first = earlier(config, replicas, taken, first, server);
    }
    first
}

/// The first of a candidate and a server, if that is one.
fn earlier(
    config: &Config,
    replicas: &[u64; 16],
    taken: Members,
    first: Option<ServerId>,
    server: ServerId,
) -> Option<ServerId>
    ensures { result ≡ earlier config.now.racks replicas.now taken first server }
{
    if taken.contains(server) {
        return first;
    }
    match first {
        Some(best) if !comes_before(config, replicas, taken, server, best) => first,
        _ => Some(server),
    }
}

fn comes_before(
    config: &Config,
    replicas: &[u64; 16],
    taken: Members,
    server: ServerId,
    other: ServerId,
) -> bool
    ensures { result ≡ comes_before config.now.racks replicas.now taken server other }
{
    let is_used = is_rack_used(config, taken, server);
    if is_used != is_rack_used(config, taken, other) {
        return !is_used;
    }
    let (server, other) = (server.number() as usize, other.number() as usize);
    if replicas[server] != replicas[other] {
        return replicas[server] < replicas[other];
    }
    server < other
}

fn is_rack_used(config: &Config, taken: Members, server: ServerId) -> bool
    ensures { result ≡ is_rack_used config.now.racks taken server }
{
    let rack = u64::from(server.number()) % config.racks;
    let mut left = taken;
    while let Some(other) = left.pop_first() {
        if u64::from(other.number()) % config.racks == rack {
            return true;
        }
    }
    false
}
