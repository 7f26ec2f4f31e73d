ghost use Rattle.std.specs.Prelude.{◌≡◌, IfOk, IsSome, OnOk, OnErr, Some, None, Ok, MatchBool, is_none, is_ok, true};
ghost use Rattle.std.specs.FinMap as fin;
ghost use Rattle.gs_refs.specs.Counts.{raised, lowered, raised_listed, raised_each, lowered_each, has_count, IsCountOf, is_zero, unlisted, taken_each, put_each, is_at_zero, ascends, CountsDo, CountsFollow, orphans, Counts};
ghost use Rattle.std.specs.List.{list_all};

use gs_base::{Handle, Refusal};
use std::alloc::{AllocError, Global};
use std::collections::BTreeMap;
use std::marker::Model;

/// The chunks that a master lists, each with the count of the files' entries that refer to it. A chunk without references
/// stays listed until it is taken out.
#[derive(Debug)]
pub struct Refs {
    counts: BTreeMap<Handle, u32>,
}

impl Drop for Refs {
    fn drop(self) {
        let Self { counts: _ } = self;
    }
}

impl Model for Refs {
    ghost use Rattle.std.specs.Prelude.{ℕ};
    ghost use Rattle.std.specs.Ordering.{nat_cmp};
    ghost use Rattle.std.specs.FinMap as fin;
    ghost use Rattle.std.specs.Coded.{coded_ℕ};

    ghost Value = { fin.FinMap nat_cmp ℕ };

    ghost coded = { fin.code coded_ℕ coded_ℕ };

    ghost view = { λ a. fin.from_entries a.counts.entries };
}

impl Refs {
    /// No chunk is listed.
    pub fn new(alloc: Global) -> Refs
        ensures { result ≡ fin.empty }
    {
        Refs {
            counts: BTreeMap::new(alloc),
        }
    }

    /// How many references a chunk has, if it is listed.
    pub fn count(&self, handle: Handle) -> Option<u32>
        ensures { result ≡ fin.get self.now handle }
    {
        self.counts.get(&handle).copied()
    }

    /// One more reference to a chunk, which gets listed if it isn't. `Exhausted` after the last count.
    pub fn raise(&mut self, handle: Handle) -> Result<(), Refusal>
        ensures edit { CountsFollow (raised self.old handle) result self.old self.new }

        // A chunk that is listed takes no memory.
        ensures listed { IsSome (fin.get self.old handle) → CountsDo (raised self.old handle) result self.old self.new }
    {
        if self.count(handle).is_none() {
            self.write(handle, 1)?;
            return Ok(());
        }
        self.raise_listed(handle)
    }

    /// One reference less to a chunk, which stays listed. `BadLine` if it has none or isn't listed. It takes no memory.
    pub fn lower(&mut self, handle: Handle) -> Result<(), Refusal>
        ensures edit { CountsDo (lowered self.old handle) result self.old self.new }
        ensures count { IfOk result (λ _. has_count (fin.get self.old handle) ≡ true) }
    {
        match self.count(handle) {
            None | Some(0) => return Err(Refusal::BadLine),
            Some(count) => self.set(handle, count - 1),
        }
        Ok(())
    }

    /// Lists a chunk of one reference no more. `BadLine` where it has another count or isn't listed. It takes no memory.
    pub fn unlist(&mut self, handle: Handle) -> Result<(), Refusal>
        ensures { CountsDo (unlisted self.old handle) result self.old self.new }
    {
        if self.count(handle) != Some(1) {
            return Err(Refusal::BadLine);
        }
        self.remove(handle);
        Ok(())
    }

    /// One more reference to each chunk of a list, as often as it stands there. `BadLine` where one isn't listed,
    /// `Exhausted` after the last count: what the first chunk that can't have it is refused. It takes no memory.
    pub fn raise_each(&mut self, handles: &[Handle]) -> Result<(), Refusal>
        ensures edit { CountsDo (raised_each self.old handles.now) result self.old self.new }
        ensures back { IfOk result (λ _. lowered_each self.new handles.now ≡ Ok self.old) }
    {
        for (index, handle) in handles.iter().enumerate() {
            match self.raise_listed(*handle) {
                Ok(()) => {}
                Err(refusal) => {
                    self.lower_back(&handles[..index]);
                    return Err(refusal);
                }
            }
        }
        Ok(())
    }

    /// One reference less to each chunk of a list, as often as it stands there. Each stays listed. `BadLine` where one has
    /// none left or isn't listed. It takes no memory.
    pub fn lower_each(&mut self, handles: &[Handle]) -> Result<(), Refusal>
        ensures edit { CountsDo (lowered_each self.old handles.now) result self.old self.new }
        ensures back { IfOk result (λ _. raised_each self.new handles.now ≡ Ok self.old) }
    {
        for (index, handle) in handles.iter().enumerate() {
            match self.lower(*handle) {
                Ok(()) => {}
                Err(refusal) => {
                    self.raise_back(&handles[..index]);
                    return Err(refusal);
                }
            }
        }
        Ok(())
    }

    /// Lists the chunks of a list no more. `BadLine` unless their handles rise and each is listed without references. It
    /// takes no memory.
    pub fn take_out_each(&mut self, handles: &[Handle]) -> Result<(), Refusal>
        ensures { CountsDo (taken_each self.old handles.now) result self.old self.new }
    {
        if !ascend(handles) || !self.each_is_at_zero(handles) {
            return Err(Refusal::BadLine);
        }
        for handle in handles {
            self.remove(*handle);
        }
        Ok(())
    }

    /// Lists the chunks of a list without references. `BadLine` unless their handles rise and none is listed. It copies
    /// the counts.
    pub fn put_back_each(&mut self, alloc: Global, handles: &[Handle]) -> Result<(), Refusal>
        ensures { CountsFollow (put_each self.old handles.now) result self.old self.new }
    {
        if !ascend(handles) || !self.lists_none(handles) {
            return Err(Refusal::BadLine);
        }
        let mut refs = self.copy(alloc)?;
        for handle in handles {
            refs.write(*handle, 0)?;
        }
        *self = refs;
        Ok(())
    }

    /// Whether the count of each chunk is how often it stands in a list. It copies the counts.
    pub fn counts(&self, alloc: Global, handles: &[Handle]) -> Result<bool, AllocError>
        ensures { IfOk result (λ same. MatchBool same (IsCountOf handles.now self.now) (IsCountOf handles.now self.now → ⊥)) }
    {
        let mut rest = self.copy(alloc)?;
        match rest.lower_each(handles) {
            Ok(()) => Ok(rest.is_zero()),
            Err(_) => Ok(false),
        }
    }

    /// The listed chunks without references, ascending.
    pub fn orphans(&self, alloc: Global) -> Result<Vec<Handle>, AllocError>
        ensures { IfOk result (λ found. found.items ≡ orphans self.now) }
    {
        let mut found = Vec::new(alloc);
        for (handle, count) in self.counts.iter() {
            if *count == 0 {
                found.push(*handle)?;
            }
        }
        Ok(found)
    }

    /// The listed chunks with their counts, ascending.
    pub fn entries(&self, alloc: Global) -> Result<Vec<(Handle, u32)>, AllocError>
        ensures { IfOk result (λ entries. entries.items ≡ fin.entries self.now) }
    {
        let mut entries = Vec::new(alloc);
        for (handle, count) in self.counts.iter() {
            entries.push((*handle, *count))?;
        }
        Ok(entries)
    }

    /// The chunks of a list with their counts, in any order. Where a handle stands twice, its first count holds.
    pub fn of(alloc: Global, entries: &[(Handle, u32)]) -> Result<Refs, AllocError>
        ensures counts { IfOk result (λ refs. refs ≡ fin.from_entries entries.now) }

        // The entries of counts make these counts again.
        ensures back { (counts : Counts) → entries.now ≡ fin.entries counts → IfOk result (λ refs. refs ≡ counts) }
    {
        let mut refs = Refs::new(alloc);
        for (handle, count) in entries.iter().rev() {
            refs.write(*handle, *count)?;
        }
        Ok(refs)
    }

    pub fn copy(&self, alloc: Global) -> Result<Refs, AllocError>
        ensures { IfOk result (λ refs. refs ≡ self.now) }
    {
        let entries = self.entries(alloc)?;
        Refs::of(alloc, &entries)
    }

    /// Lists a chunk with a count, in place of the one that it has.
    fn write(&mut self, handle: Handle, count: u32) -> Result<(), AllocError>
        ensures ok { OnOk result (self.new ≡ fin.insert self.old handle count) }
        ensures err { OnErr result (self.new ≡ self.old) }
        ensures absent { OnErr result (fin.get self.old handle ≡ None) }
    {
        self.counts.insert(handle, count)?;
        Ok(())
    }

    /// Changes the count of a listed chunk. It takes no memory.
    fn set(&mut self, handle: Handle, count: u32)
        requires { IsSome (fin.get self.old handle) }
        ensures { self.new ≡ fin.insert self.old handle count }
    {
        let _written = self.write(handle, count);
    }

    /// One more reference to a listed chunk.
    fn raise_listed(&mut self, handle: Handle) -> Result<(), Refusal>
        ensures { CountsDo (raised_listed self.old handle) result self.old self.new }
    {
        match self.count(handle) {
            None => return Err(Refusal::BadLine),
            Some(u32::MAX) => return Err(Refusal::Exhausted),
            Some(count) => self.set(handle, count + 1),
        }
        Ok(())
    }

    /// One reference less to each chunk of a list, where each has it.
    fn lower_back(&mut self, handles: &[Handle])
        requires { is_ok (lowered_each self.old handles.now) ≡ true }
        ensures { lowered_each self.old handles.now ≡ Ok self.new }
    {
        for handle in handles {
            let _ = self.lower(*handle);
        }
    }

    /// One more reference to each chunk of a list, where each can have it.
    fn raise_back(&mut self, handles: &[Handle])
        requires { is_ok (raised_each self.old handles.now) ≡ true }
        ensures { raised_each self.old handles.now ≡ Ok self.new }
    {
        for handle in handles {
            let _ = self.raise_listed(*handle);
        }
    }

    /// Whether no listed chunk has references.
    fn is_zero(&self) -> bool
        ensures { result ≡ is_zero self.now }
    {
        for (_, count) in self.counts.iter() {
            if *count != 0 {
                return false;
            }
        }
        true
    }

    /// Whether each chunk of a list is listed without references.
    fn each_is_at_zero(&self, handles: &[Handle]) -> bool
        ensures { result ≡ list_all (λ h. is_at_zero (fin.get self.now h)) handles.now }
    {
        handles.iter().all(|handle| self.count(*handle) == Some(0))
    }

    /// Whether no chunk of a list is listed.
    fn lists_none(&self, handles: &[Handle]) -> bool
        ensures { result ≡ list_all (λ h. is_none (fin.get self.now h)) handles.now }
    {
        handles.iter().all(|handle| self.count(*handle).is_none())
    }

    fn remove(&mut self, handle: Handle)
        ensures { self.new ≡ fin.remove self.old handle }
    {
        self.counts.remove(&handle);
    }
}

/// Whether the handles strictly rise.
fn ascend(handles: &[Handle]) -> bool
    ensures { result ≡ ascends handles.now }
{
    let [first, rest @ ..] = handles else {
        return true;
    };
    let mut last = *first;
    for handle in rest {
        if *handle <= last {
            return false;
        }
        last = *handle;
    }
    true
}
