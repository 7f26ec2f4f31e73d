//! What holds of each chunk that was written with some bytes, whatever was damaged since.

ghost use Rattle.std.specs.Prelude.{◌≡◌, ◌≤◌, ℕ, List, [], Bool, Ok, true};
ghost use Rattle.gs_base.specs.Configs.{is_config};
ghost use Rattle.gs_block.specs.Chunk.{appended, padded};
ghost use Rattle.gs_block.specs.Stored.{Stored, empty};
ghost use Rattle.gs_block.specs.Edits.{append, pad, damage};
ghost use Rattle.gs_block.specs.Kept.{Others};
ghost use Rattle.gs_block.specs.Written.{WasWritten, ToldApart, TellsApart, HasBlocks};
ghost use Rattle.gs_block.specs.Promises.{WritesGoOn, IntactBlocksHold, ReadsGiveWhatWasWritten, UndamagedChunksHold};

/// The sizes of each configuration are those of chunks.
pub fn configurations_have_sizes()
    ensures { (servers racks replicas block chunk : ℕ) → is_config servers racks replicas block chunk ≡ true → (1 ≤ block) × (block ≤ 65536) × (chunk ≤ 67108864) }
{}

/// What a chunk was written with, call by call: an edit that is accepted edits it plainly, and damage leaves it. A call that
/// digests bytes anew has for a premise that digests tell the stored blocks from those that were written, where they differ.
pub fn chunks_were_written()
    ensures new { (block chunk : ℕ) → 1 ≤ block → block ≤ 65536 → chunk ≤ 67108864 → WasWritten (empty block chunk) [] }
    ensures write { WritesGoOn }
    ensures append { (s s2 : Stored) (bytes piece : List ℕ) → WasWritten s bytes → ToldApart s.block s.bytes bytes → append s piece ≡ Ok s2 → WasWritten s2 (appended piece bytes) }
    ensures pad { (s s2 : Stored) (bytes : List ℕ) → WasWritten s bytes → ToldApart s.block s.bytes bytes → pad s ≡ Ok s2 → WasWritten s2 (padded s.chunk bytes) }
    ensures damage { (s s2 : Stored) (bytes : List ℕ) (index : ℕ) → WasWritten s bytes → damage s index ≡ Ok s2 → WasWritten s2 bytes }
{}

/// A block with its digest holds what was written, under the same premise; so does what a read gives, and the whole chunk where
/// no block is damaged.
pub fn intact_blocks_hold_what_was_written()
    ensures block { IntactBlocksHold }
    ensures read { ReadsGiveWhatWasWritten }
    ensures whole { UndamagedChunksHold }
{}

/// Where different blocks among some have different digests, and all blocks of two texts are among them, digests tell the two
/// apart.
pub fn digests_tell_blocks_apart()
    ensures { (among : List ℕ → Bool) (size : ℕ) (xs ys : List ℕ) → TellsApart among → HasBlocks size among xs → HasBlocks size among ys → ToldApart size xs ys }
{}

/// Damage of a block leaves every other block, all digests, and how many bytes there are.
pub fn damage_leaves_the_other_blocks()
    ensures { (s s2 : Stored) (index : ℕ) → 1 ≤ s.block → damage s index ≡ Ok s2 → Others index s s2 }
{}
