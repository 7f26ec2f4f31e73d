//! What lines of the tree and of an upgrade are answered, at the beginning of a script, is what a plain machine answers, which copies the whole tree.

ghost use Rattle.std.specs.Prelude.{ℕ, List};
ghost use Rattle.gs_base.specs.declared.config.Config.{Config};
ghost use Rattle.gs_laws_scripts.specs.plain.Scripts.{ArePlainUntilAReadFails, ArePlainUntilAWriteFails, ScriptsArePlain};

/// So long as the lines of a script are of the tree (`mkdir`, `create`, `ls`, `mv`, `rm`, `undelete`, `snapshot`), of an upgrade (`rollingUpgrade` with each of its four words), `at`, or bad, and no answer is that
/// there is no room (30) or that a counter has no value left (31), `run` answers them as the plain machine does, line for line: over empty disks, and where memory isn't wanting and no disk fails. So it answers them too where a read of the
/// script or a write of an answer fails and ends the run: the lines whose answers were written before, and, where a write has failed, these with the line of that answer, which was made though no more than a beginning of it is written. The machine has
/// a tree of names and texts, of which a prepare keeps a copy, and a rollback puts that back: it has no handles, counts, replicas, stamps, journal or inverses.
pub fn scripts_are_answered_as_by_the_plain_machine<D>()
    ensures ended { (seen : D → List ℕ) (failures : D → ℕ) (config : Config) (disks : D × D) → ScriptsArePlain seen failures config disks }
    ensures read_fails { (seen : D → List ℕ) (failures : D → ℕ) (config : Config) (disks : D × D) → ArePlainUntilAReadFails seen failures config disks }
    ensures write_fails { (seen : D → List ℕ) (failures : D → ℕ) (config : Config) (disks : D × D) → ArePlainUntilAWriteFails seen failures config disks }
{}
