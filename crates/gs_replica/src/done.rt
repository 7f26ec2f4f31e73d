ghost use Rattle.std.specs.Prelude.{◌≡◌, ◌↔◌, IsTrue, IfOk, OnOk, OnErr, None, is_some, true};
ghost use Rattle.std.specs.FinMap as fin;
ghost use Rattle.gs_replica.specs.Undo.{entry_before};
ghost use Rattle.gs_replica.specs.First.{done_before};
ghost use Rattle.gs_replica.specs.Inside.{HasSealed, has_one, has_each};

use crate::first::FirstEntries;
use crate::op::Done;
use gs_base::ClientId;
use std::alloc::{AllocError, Global};
use std::collections::BTreeMap;
use std::collections::btree_map::Iter;
use std::marker::Model;

/// The last applied request of each client that has one.
#[derive(Debug)]
pub struct DoneTable {
    alloc: Global,
    entries: BTreeMap<u32, Done>,
}

impl Drop for DoneTable {
    fn drop(self) {
        let Self {
            alloc: _,
            entries: _,
        } = self;
    }
}

impl Model for DoneTable {
    ghost use Rattle.std.specs.Ordering.{nat_cmp};
    ghost use Rattle.std.specs.FinMap as fin;
    ghost use Rattle.std.specs.Coded.{coded_ℕ};
    ghost use Rattle.gs_replica.specs.declared.op.Done.{Done};
    ghost use Rattle.gs_replica.specs.contracts.op.Done as done_code;

    ghost Value = { fin.FinMap nat_cmp Done };

    ghost coded = { fin.code coded_ℕ done_code.the_row.coded };

    ghost view = { λ a. fin.from_entries a.entries.entries };
}

impl DoneTable {
    /// No client has a request.
    pub fn new(alloc: Global) -> DoneTable
        ensures { result ≡ fin.empty }
    {
        DoneTable {
            alloc,
            entries: BTreeMap::new(alloc),
        }
    }

    /// A table of the same requests.
    pub fn copy(&self) -> Result<DoneTable, AllocError>
        ensures { IfOk result (λ table. table ≡ self.now) }
    {
        Ok(DoneTable {
            alloc: self.alloc,
            entries: self.entries.clone()?,
        })
    }

    /// Whether another table is of the same requests.
    pub fn is_same(&self, other: &DoneTable) -> bool
        ensures { IsTrue result ↔ (self.now ≡ other.now) }
    {
        if self.entries.len() != other.entries.len() {
            return false;
        }
        self.entries == other.entries
    }

    /// Each client's last applied request, in the order of the clients.
    pub fn iter(&self) -> Iter<'_, u32, Done>
        ensures { result ≡ fin.entries self.entry.now }
    {
        self.entries.iter()
    }

    /// A client's last applied request.
    pub fn get(&self, client: ClientId) -> Option<Done>
        ensures { result ≡ fin.get self.now client.0 }
    {
        self.entries.get(&client.0).copied()
    }

    /// Takes a client's request as its last. A client that has one takes no memory.
    pub fn put(&mut self, client: ClientId, done: Done) -> Result<(), AllocError>
        ensures ok { OnOk result (self.new ≡ fin.insert self.old client.0 done) }
        ensures err { OnErr result (self.new ≡ self.old) }
        ensures absent { OnErr result (fin.get self.old client.0 ≡ None) }
    {
        match self.entries.insert(client.0, done) {
            Ok(_replaced) => {}
            Err(_) => return Err(AllocError),
        }
        Ok(())
    }

    /// Forgets a client's request. It takes no memory.
    pub fn remove(&mut self, client: ClientId)
        ensures { self.new ≡ fin.remove self.old client.0 }
    {
        self.entries.remove(&client.0);
    }

    /// Puts a client's request back as it was before, where that is one, in place of one that stands in the table. It takes no
    /// memory.
    pub fn restore(&mut self, client: ClientId, before: Option<Done>)
        requires { is_some before ≡ true → is_some (fin.get self.old client.0) ≡ true }
        ensures { self.new ≡ entry_before self.old client.0 before }
    {
        match before {
            Some(done) => {
                let _put = self.put(client, done);
            }
            None => self.remove(client),
        }
    }

    /// Whether a client has a request, where it had one when a replica was sealed.
    fn has_one(&self, client: u32, before: &Option<Done>) -> bool
        ensures { result ≡ has_one self.now (client, before.now) }
    {
        before.is_none() || self.get(ClientId(client)).is_some()
    }

    /// Whether each client with a first entry has a request, where it had one when a replica was sealed.
    fn has_each(&self, first: &FirstEntries) -> bool
        ensures { result ≡ has_each first.now self.now }
    {
        for (client, before) in first.iter() {
            if !self.has_one(*client, before) {
                return false;
            }
        }
        true
    }

    /// Whether these are first entries of the table: each client that had a request when it was sealed has one.
    #[tactic(auto, using(crate::proofs::Belonging::decides_sealed))]
    pub(crate) fn has_sealed(&self, first: &FirstEntries) -> bool
        ensures { IsTrue result ↔ HasSealed first.now self.now }
    {
        self.has_each(first)
    }

    /// First entries of a replica as it stands: none yet.
    pub(crate) fn seal(&self) -> FirstEntries
        ensures { result ≡ fin.empty }
    {
        FirstEntries::new(self.alloc)
    }

    /// Puts each client's first entry back. It takes no memory.
    pub(crate) fn put_back(&mut self, first: FirstEntries)
        requires { HasSealed first self.old }
        ensures { self.new ≡ done_before first self.old }
    {
        let mut left = first;
        while let Some((client, before)) = left.pop_first() {
            self.restore(client, before);
        }
    }

    /// A table of the requests as they were sealed: each client's first entry laid over what stands.
    pub(crate) fn copy_before(&self, first: &FirstEntries) -> Result<DoneTable, AllocError>
        requires { HasSealed first.now self.now }
        ensures { IfOk result (λ table. table ≡ done_before first.now self.now) }
    {
        let mut done = self.copy()?;
        done.put_back(first.copy()?);
        Ok(done)
    }
}
