ghost use Rattle.std.specs.Prelude.{◌≡◌, ◌≤◌, [], Ok, IfOk, option_map, position};
ghost use Rattle.std.specs.Map.{lookup, remove_entry};
ghost use Rattle.std.specs.Option.{option_copied};
ghost use Rattle.std.specs.VecDeque.{deque_capacity, deque_len};
ghost use Rattle.gs_base.specs.Calls.{FollowsOf};
ghost use Rattle.gs_store.specs.Buffers.{push, pushed, same_request, without};

use gs_base::{Refusal, Refused, ReqId};
use std::alloc::{AllocError, Global};
use std::collections::VecDeque;
use std::marker::Model;

/// For how many requests bytes are kept.
const REQUESTS: usize = 64;

/// The bytes that clients have pushed and that no edit has used, for the 64 requests that were pushed last, the newest first. Mostly
/// there are few.
#[derive(Drop)]
pub(crate) struct PushBuffer {
    pushes: VecDeque<(ReqId, Vec<u8>)>,
}

impl Model for PushBuffer {
    ghost use Rattle.gs_store.specs.Buffers.{Pushes, coded_pushes};
    ghost use Rattle.gs_store.specs.inner.Cached.{bytes_of};

    ghost Value = { Pushes };

    ghost coded = { coded_pushes };

    ghost view = { λ b. bytes_of b.pushes.items };
}

impl PushBuffer {
    pub(crate) fn new(alloc: Global) -> Result<PushBuffer, AllocError>
        ensures { IfOk result (λ b. b ≡ []) }
    {
        Ok(PushBuffer {
            pushes: VecDeque::new(alloc),
        })
    }

    /// Puts bytes under a request, in place of those that it had, as the newest. The oldest goes where there are 65.
    /// Where there is no memory it hands back the bytes.
    pub(crate) fn push(&mut self, req: ReqId, bytes: Vec<u8>) -> Result<(), Refused<Vec<u8>>>
        ensures { FollowsOf bytes (Ok (push req bytes.items self.old)) result self.old self.new }
    {
        if self.pushes.reserve(1).is_err() {
            return Err(Refused {
                refusal: Refusal::Memory,
                given: bytes,
            });
        }
        drop(take_out(&mut self.pushes, req));
        self.pushes.truncate(REQUESTS - 1);
        self.pushes.push_front_reserved((req, bytes));
        Ok(())
    }

    /// The bytes of a request. It leaves the order as it is.
    pub(crate) fn get(&self, req: ReqId) -> Option<&[u8]>
        ensures { option_copied result ≡ pushed req self.now }
    {
        let place = place_of(&self.pushes, req)?;
        match self.pushes.get(place) {
            Some(push) => Some(push.1.as_slice()),
            None => None,
        }
    }

    /// Takes the bytes of a request out. It takes no memory.
    pub(crate) fn take(&mut self, req: ReqId) -> Option<Vec<u8>>
        ensures taken { option_map (λ bytes. bytes.items) result ≡ pushed req self.old }
        ensures without { self.new ≡ without req self.old }
    {
        take_out(&mut self.pushes, req)
    }

    /// Drops all bytes. It takes no memory.
    pub(crate) fn clear(&mut self)
        ensures { self.new ≡ [] }
    {
        self.pushes.clear();
    }
}

/// Where the bytes of a request stand, if there are some.
fn place_of(pushes: &VecDeque<(ReqId, Vec<u8>)>, req: ReqId) -> Option<usize>
    ensures { result ≡ position (λ e. same_request req e.0) pushes.now.items }
{
    pushes.iter().position(|push| req == push.0)
}

/// Takes the bytes of a request out of a list. It takes no memory.
fn take_out(pushes: &mut VecDeque<(ReqId, Vec<u8>)>, req: ReqId) -> Option<Vec<u8>>
    ensures taken { result ≡ lookup (same_request req) pushes.old.items }
    ensures without { pushes.new.items ≡ remove_entry (same_request req) pushes.old.items }
    ensures len { deque_len pushes.new ≤ deque_len pushes.old }
    ensures capacity { deque_capacity pushes.new ≡ deque_capacity pushes.old }
{
    let place = place_of(pushes, req)?;
    let (_, bytes) = pushes.remove(place)?;
    Some(bytes)
}
