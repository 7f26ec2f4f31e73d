ghost use Rattle.std.specs.Prelude.{◌≡◌};
ghost use Rattle.std.specs.Option.{option_or};
ghost use Rattle.gs_store_seal.specs.Trash.{trash_of};

use gs_replica::Replica;

/// What stands in the trash behind a replica that goes: the replica where it is sealed, in place of what stood there.
pub fn trash_behind(replica: Replica, trash: Option<Replica>) -> Option<Replica>
    ensures { result ≡ trash_of replica.sealed replica trash }
{
    if replica.is_sealed() {
        return Some(replica);
    }
    trash
}

/// What stands in the trash behind a copy: the sealed replica that it has carried, in place of the handle's own. A copy that
/// carries none leaves the trash as it is.
pub fn trash_with(carried: Option<Replica>, own: Option<Replica>) -> Option<Replica>
    ensures { result ≡ option_or carried own }
{
    if carried.is_some() {
        return carried;
    }
    own
}
