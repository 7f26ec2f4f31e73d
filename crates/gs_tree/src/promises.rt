//! What holds of each tree, whatever was done to it.

ghost use Rattle.std.specs.Prelude.{◌≡◌, ℕ, Bool, true, false, List, Ok};
ghost use Rattle.std.specs.List.Sorted.{IsPermutation};
ghost use Rattle.gs_path.specs.Path.{Path, begins};
ghost use Rattle.gs_tree.specs.Plain.{Plain, Same};
ghost use Rattle.gs_tree.specs.Find.{Rows, at, IsWithin, most_elements};
ghost use Rattle.gs_tree.specs.Edits.{mkdirs, create, rename, hide, unhide, remove, add_chunk, set_chunk, snapshot};
ghost use Rattle.gs_tree.specs.Mapped.{mapped, mapped_result};
ghost use Rattle.gs_tree.specs.Build.{rooted_rows, is_short, is_tree};
ghost use Rattle.gs_tree.specs.Lists.{made_paths, is_made, made_inverse, IsSameInverse};
ghost use Rattle.gs_tree.specs.declared.inverse.TreeInverse.TheVariants as inverses;
ghost use Rattle.gs_tree.specs.Commands.{Command, done, made_path, TestsDepth, IsClosed};
ghost use Rattle.gs_tree.specs.Laws.{SnapshotsFollowChunks, EditsLeaveTheOtherSide, EntriesBuildAgain, RemovedListsUndoTheSame, RemovedListsAreWhole, UndoesBalanceTheChunks, EditsBalanceTheChunks};

/// Each command gives the same in a tree whose files hold the texts of the chunks: it looks at no chunk.
pub fn texts_follow_chunks()
    ensures mkdirs { (text : ℕ → List ℕ) (m : Plain ℕ) (p : Path) → mkdirs (mapped text m) p ≡ mapped_result text (mkdirs m p) }
    ensures create { (text : ℕ → List ℕ) (m : Plain ℕ) (p : Path) → create (mapped text m) p ≡ mapped_result text (create m p) }
    ensures rename { (text : ℕ → List ℕ) (is_deep : Path → Bool) (m : Plain ℕ) (from to : Path) → rename is_deep (mapped text m) from to ≡ mapped_result text (rename is_deep m from to) }
    ensures hide { (text : ℕ → List ℕ) (m : Plain ℕ) (p : Path) (moment number : ℕ) → hide (mapped text m) p moment number ≡ mapped_result text (hide m p moment number) }
    ensures unhide { (text : ℕ → List ℕ) (m : Plain ℕ) (p : Path) → unhide (mapped text m) p ≡ mapped_result text (unhide m p) }
    ensures remove { (text : ℕ → List ℕ) (m : Plain ℕ) (p : Path) → remove (mapped text m) p ≡ mapped_result text (remove m p) }
    ensures add_chunk { (text : ℕ → List ℕ) (m : Plain ℕ) (p : Path) (chunk : ℕ) → add_chunk (mapped text m) p (text chunk) ≡ mapped_result text (add_chunk m p chunk) }
    ensures set_chunk { (text : ℕ → List ℕ) (m : Plain ℕ) (p : Path) (index chunk : ℕ) → set_chunk (mapped text m) p index (text chunk) ≡ mapped_result text (set_chunk m p index chunk) }
    ensures snapshot { SnapshotsFollowChunks }
{}

/// The two sides of a snapshot are apart: neither path begins with the other, and an edit of which each path is at or under
/// the one leaves what stands at and under the other.
pub fn snapshots_stay_apart()
    ensures apart { (is_deep : Path → Bool) (m n : Plain ℕ) (from to : Path) → IsClosed m → snapshot is_deep m from to ≡ Ok n → (begins from to ≡ false) × (begins to from ≡ false) }
    ensures stay { EditsLeaveTheOtherSide }
{}

/// The entries of a tree build it again, memory aside. They do so in any order: whether they are a tree's, and what they have
/// at a path then, doesn't depend on it.
pub fn entries_build_their_tree()
    ensures again { EntriesBuildAgain }
    ensures order { (rows other : Rows ℕ) → IsPermutation rows other → is_tree rows ≡ true → (is_tree other ≡ true) × Same (at (rooted_rows other)) (at (rooted_rows rows)) }
{}

/// An inverse that is written as a list and made of it again does the same, and its list is one of an inverse: of paths that
/// were made, always; of what was removed, where no path has more than 64 elements.
pub fn lists_undo_the_same()
    ensures made { (path : Path) (above : ℕ) → (is_made (made_paths path above) ≡ true) × IsSameInverse (inverses.Made path above) (made_inverse (made_paths path above)) }
    ensures removed { RemovedListsUndoTheSame }
    ensures whole { RemovedListsAreWhole }
{}

/// The chunks of a tree before and after an inverse is undone, however they are counted: those that go and those that come
/// make the difference. So too of an edit, whose inverse leads from the new tree to the old.
pub fn inverses_balance_the_chunks()
    ensures undo { UndoesBalanceTheChunks }
    ensures edit { EditsBalanceTheChunks }
{}

/// No path of a tree gets more than 64 elements: an accepted command leaves none longer, if none was, and the path that it
/// makes isn't.
pub fn paths_stay_short()
    ensures { (c : Command ℕ) (m n : Plain ℕ) → TestsDepth c m → is_short (made_path c) ≡ true → IsWithin most_elements m → done c m ≡ Ok n → IsWithin most_elements n }
{}
