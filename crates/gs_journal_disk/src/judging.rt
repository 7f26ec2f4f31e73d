// What is judged before a disk is called, and behind the call.
ghost use Rattle.std.specs.Prelude.{◌≡◌, nat_le, is_err};

use gs_base::Refusal;

/// Whether so many bytes may be put onto a disk that may grow by `room` bytes.
pub fn fits(added: usize, room: u32) -> bool
    ensures { result ≡ nat_le added room }
{
    added <= room as usize
}

/// Whether a disk has failed in a call, of which each refusal is a failure.
pub fn has_failed(outcome: &Result<(), Refusal>) -> bool
    ensures { result ≡ is_err outcome.now }
{
    outcome.is_err()
}
