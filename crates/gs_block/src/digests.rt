ghost use Rattle.std.specs.Prelude.{◌≡◌, ◌≤◌, ◌<◌, ◌+◌, ◌-◌, ◌*◌, ◌/◌, ◌%◌, ◌++◌, List, ℕ, length, take, drop, min, IfOk};
ghost use Rattle.std.specs.Str.{bytes_eq};
ghost use Rattle.sha2.specs.Sha256.{sha256};
ghost use Rattle.sha2.specs.Hashers.{Holds256};
ghost use Rattle.gs_block.specs.Stored.{count_of, block_at, digest_at, digests_from, digests_of, is_intact, first_damaged, are_digests};

use sha2::{Digest as _, Sha256};
use std::alloc::{AllocError, Global};

/// A digest under SHA-256 (FIPS 180-4).
pub type Digest = [u8; 32];

/// How many blocks of `size` bytes so many bytes take.
#[tactic(auto, unfolding(crate::specs::Stored::count_of))]
pub(crate) fn count_of(size: usize, many: usize) -> usize
    requires some { 1 ≤ size }
    requires size_fits { size ≤ 65536 }
    requires many_fits { many ≤ 67108864 }
    ensures { result ≡ count_of size many }
{
    (many + size - 1) / size
}

/// The bytes of a block.
#[tactic(auto, using(crate::proofs::Counts::starts))]
pub(crate) fn block_of(bytes: &[u8], size: usize, index: usize) -> &[u8]
    requires some { 1 ≤ size }
    requires size_fits { size ≤ 65536 }
    requires bytes_fit { length bytes.now ≤ 67108864 }
    requires within { index < count_of size (length bytes.now) }
    ensures { result.now ≡ block_at size index bytes.now }
{
    let start = index * size;
    let end = (start + size).min(bytes.len());
    &bytes[start..end]
}

pub(crate) fn digest_of(block: &[u8]) -> Digest
    ensures { result ≡ sha256 block.now }
{
    Sha256::digest(block)
}

pub(crate) fn is_same(left: &Digest, right: &Digest) -> bool
    ensures { result ≡ bytes_eq left.now right.now }
{
    left == right
}

/// Whether a block has its digest.
#[tactic(auto, unfolding(crate::specs::Stored::is_intact, crate::specs::Stored::digest_at))]
pub(crate) fn is_intact(bytes: &[u8], size: usize, digests: &[Digest], index: usize) -> bool
    requires some { 1 ≤ size }
    requires size_fits { size ≤ 65536 }
    requires bytes_fit { length bytes.now ≤ 67108864 }
    requires each { length digests.now ≡ count_of size (length bytes.now) }
    requires within { index < length digests.now }
    ensures { result ≡ is_intact size bytes.now digests.now index }
{
    let digest = digest_of(block_of(bytes, size, index));
    is_same(&digest, &digests[index])
}

/// The lowest block without its digest, from `first` on and below `end`.
#[tactic(auto, using(crate::proofs::Verified::damaged_more, crate::proofs::Verified::damaged_here, crate::proofs::Verified::damaged_none))]
pub(crate) fn first_damaged(
    bytes: &[u8],
    size: usize,
    digests: &[Digest],
    first: usize,
    end: usize,
) -> Option<usize>
    requires some { 1 ≤ size }
    requires size_fits { size ≤ 65536 }
    requires bytes_fit { length bytes.now ≤ 67108864 }
    requires each { length digests.now ≡ count_of size (length bytes.now) }
    requires within { end ≤ length digests.now }
    ensures { result ≡ first_damaged size bytes.now digests.now first (end - first) }
{
    for index in first..end {
        if !is_intact(bytes, size, digests, index) {
            return Some(index);
        }
    }
    None
}

/// The digests of all blocks.
pub(crate) fn digests_of(
    alloc: Global,
    bytes: &[u8],
    size: usize,
) -> Result<Vec<Digest>, AllocError>
    requires some { 1 ≤ size }
    requires size_fits { size ≤ 65536 }
    requires bytes_fit { length bytes.now ≤ 67108864 }
    ensures { IfOk result (λ digests. digests.items ≡ digests_of size bytes.now) }
{
    let mut digests = Vec::new(alloc);
    for index in 0..count_of(size, bytes.len()) {
        digests.push(digest_of(block_of(bytes, size, index)))?;
    }
    Ok(digests)
}

/// Whether these are the digests of all blocks.
pub(crate) fn are_digests(bytes: &[u8], size: usize, digests: &[Digest]) -> bool
    requires some { 1 ≤ size }
    requires size_fits { size ≤ 65536 }
    requires bytes_fit { length bytes.now ≤ 67108864 }
    ensures test { result ≡ are_digests size bytes.now digests.now }
{
    let count = count_of(size, bytes.len());
    digests.len() == count && first_damaged(bytes, size, digests, 0, count).is_none()
}

/// A hasher of the bytes of a place's block that stand before the place.
pub(crate) fn hasher_to(bytes: &[u8], size: usize, at: usize) -> Sha256
    requires some { 1 ≤ size }
    requires within { at ≤ length bytes.now }
    ensures { Holds256 result (take (at % size) (drop (at / size * size) bytes.now)) }
{
    let mut hasher = Sha256::new();
    hasher.update(&bytes[at / size * size..at]);
    hasher
}

/// The digest of what a hasher holds with more bytes behind it.
pub(crate) fn digest_with(mut hasher: Sha256, rest: &[u8]) -> Digest
    ensures { (held : List ℕ) → Holds256 hasher held → result ≡ sha256 (held ++ rest.now) }
{
    hasher.update(rest);
    hasher.finalize()
}

/// The bytes of a place's block from the place on.
pub(crate) fn rest_of_block(bytes: &[u8], size: usize, at: usize) -> &[u8]
    requires some { 1 ≤ size }
    requires size_fits { size ≤ 65536 }
    requires bytes_fit { length bytes.now ≤ 67108864 }
    requires within { at ≤ length bytes.now }
    ensures { result.now ≡ take (size - at % size) (drop at bytes.now) }
{
    let end = (at + (size - at % size)).min(bytes.len());
    &bytes[at..end]
}

/// The lowest stored block without its digest, of those with a byte from `at` on and below `end`. The hasher holds what
/// stands before `at` in its block.
#[tactic(auto, using(crate::proofs::Verified::whole_at, crate::proofs::Verified::head_intact, crate::proofs::Verified::damaged_more, crate::proofs::Verified::damaged_here, crate::proofs::Verified::damaged_none))]
pub(crate) fn first_damaged_between(
    hasher: Sha256,
    bytes: &[u8],
    size: usize,
    digests: &[Digest],
    at: usize,
    end: usize,
) -> Option<usize>
    requires some { 1 ≤ size }
    requires size_fits { size ≤ 65536 }
    requires bytes_fit { length bytes.now ≤ 67108864 }
    requires end_fits { end ≤ 67108864 }
    requires each { length digests.now ≡ count_of size (length bytes.now) }
    requires within { at ≤ length bytes.now }
    requires hasher { Holds256 hasher (take (at % size) (drop (at / size * size) bytes.now)) }
    ensures { result ≡ first_damaged size bytes.now digests.now (at / size) (min (count_of size end) (length digests.now) - at / size) }
{
    let first = at / size;
    let last = count_of(size, end).min(digests.len());
    if last <= first {
        return None;
    }
    let digest = digest_with(hasher, rest_of_block(bytes, size, at));
    if !is_same(&digest, &digests[first]) {
        return Some(first);
    }
    first_damaged(bytes, size, digests, first + 1, last)
}

/// Takes the digests of the blocks with a byte from `at` on and below `end` anew. The hasher holds what stands before `at`
/// in its block.
#[tactic(auto, using(crate::proofs::Anew::anew_start, crate::proofs::Anew::anew_more, crate::proofs::Anew::anew_done, crate::proofs::Anew::anew_none, crate::proofs::Anew::head_digest, crate::proofs::Counts::count_mono, crate::proofs::Counts::first_counted))]
pub(crate) fn digest_anew(
    hasher: Sha256,
    bytes: &[u8],
    size: usize,
    digests: &mut [Digest],
    at: usize,
    end: usize,
)
    requires some { 1 ≤ size }
    requires size_fits { size ≤ 65536 }
    requires bytes_fit { length bytes.now ≤ 67108864 }
    requires each { length digests.old ≡ count_of size (length bytes.now) }
    requires order { at ≤ end }
    requires within { end ≤ length bytes.now }
    requires hasher { Holds256 hasher (take (at % size) (drop (at / size * size) bytes.now)) }
    ensures { digests.new ≡ take (at / size) digests.old ++ (digests_from size bytes.now (at / size) (count_of size end - at / size) ++ drop (count_of size end) digests.old) }
{
    let first = at / size;
    let last = count_of(size, end);
    if last <= first {
        return;
    }
    digests[first] = digest_with(hasher, rest_of_block(bytes, size, at));
    for index in first + 1..last {
        digests[index] = digest_of(block_of(bytes, size, index));
    }
}
