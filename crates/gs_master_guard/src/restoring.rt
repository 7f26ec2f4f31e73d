// Who has a chunk as it was sealed, behind a rollback that was begun.
ghost use Rattle.std.specs.Prelude.{◌≡◌, ◌&&◌, if◌then◌else◌};
ghost use Rattle.gs_base.specs.Members.{is_member, with_member};
ghost use Rattle.gs_master_spec.specs.Applied.{is_prepared_on};
ghost use Rattle.gs_master_spec.specs.Upgrades.{lacks_answer, restored_on};

use gs_base::{Members, ServerId};
use gs_master_spec::asking::Prepared;

/// Whether a server was a member at prepare, or holds a copy with its sealed image since.
fn is_prepared_on(prepared: &Prepared, server: ServerId) -> bool
    ensures { result ≡ is_prepared_on prepared.now server }
{
    prepared.view.members.contains(server) || prepared.holders.contains(server)
}

/// Whether a server has told that it has a chunk as it was sealed, and is a prepared member or a holder.
fn is_taken(prepared: &Prepared, told: Members, server: ServerId) -> bool
    ensures { result ≡ (is_member told server && is_prepared_on prepared.now server) }
{
    told.contains(server) && is_prepared_on(prepared, server)
}

/// These servers, and one more if it is taken.
fn with_server_if(servers: Members, is_taken: bool, server: ServerId) -> Members
    ensures { result ≡ (if is_taken then with_member servers server else servers) }
{
    let mut servers = servers;
    if is_taken {
        servers.insert(server);
    }
    servers
}

/// Of those who have told that they have a chunk as it was sealed, the prepared members and the holders.
pub fn restored_on(prepared: Option<Prepared>, told: Members) -> Members
    ensures { result ≡ restored_on prepared told }
{
    let mut servers = Members::none();
    let Some(prepared) = prepared else {
        return servers;
    };
    for number in 0..16 {
        let server = ServerId::new(number).unwrap();
        servers = with_server_if(servers, is_taken(&prepared, told, server), server);
    }
    servers
}

/// Whether a chunk that was listed with so many references at prepare has no answer, and needs one.
pub fn lacks_answer(prepared: Option<Prepared>, told: Members, count: u32) -> bool
    ensures { result ≡ lacks_answer (λ chunk. prepared) (λ chunk. told) (0, count) }
{
    0 < count && restored_on(prepared, told).is_empty()
}
