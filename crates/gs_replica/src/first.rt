ghost use Rattle.std.specs.Prelude.{◌≡◌, ◌<◌, IfOk, OnOk, OnErr, IfSome, OnSome, IfNone, cond, not, None, Some, is_some};
ghost use Rattle.std.specs.FinMap as fin;
ghost use Rattle.gs_replica.specs.First.{keep_first, fits};

use crate::op::Done;
use gs_base::ClientId;
use std::alloc::{AllocError, Global};
use std::collections::BTreeMap;
use std::collections::btree_map::Iter;
use std::marker::Model;

/// Of each client that an edit has changed since a seal, its request as it was sealed, if it had one.
#[derive(Debug, Drop)]
pub struct FirstEntries {
    entries: BTreeMap<u32, Option<Done>>,
}

impl Model for FirstEntries {
    ghost use Rattle.std.specs.FinMap as fin;
    ghost use Rattle.std.specs.Coded.{coded_ℕ, coded_option};
    ghost use Rattle.gs_replica.specs.First.{First};
    ghost use Rattle.gs_replica.specs.contracts.op.Done as done_code;

    ghost Value = { First };

    ghost coded = { fin.code coded_ℕ (coded_option done_code.the_row.coded) };

    ghost view = { λ a. fin.from_entries a.entries.entries };
}

impl FirstEntries {
    /// No client is changed.
    pub fn new(alloc: Global) -> FirstEntries
        ensures { result ≡ fin.empty }
    {
        FirstEntries {
            entries: BTreeMap::new(alloc),
        }
    }

    /// The same entries.
    pub(crate) fn copy(&self) -> Result<FirstEntries, AllocError>
        ensures { IfOk result (λ entries. entries ≡ self.now) }
    {
        Ok(FirstEntries {
            entries: self.entries.clone()?,
        })
    }

    /// Each client's first entry, in the order of the clients.
    pub fn iter(&self) -> Iter<'_, u32, Option<Done>>
        ensures { result ≡ fin.entries self.entry.now }
    {
        self.entries.iter()
    }

    /// A client's first entry.
    fn get(&self, client: ClientId) -> Option<Option<Done>>
        ensures { result ≡ fin.get self.now client.0 }
    {
        self.entries.get(&client.0).copied()
    }

    /// Sets a client's first entry.
    pub fn put(&mut self, client: ClientId, before: Option<Done>) -> Result<(), AllocError>
        ensures ok { OnOk result (self.new ≡ fin.insert self.old client.0 before) }
        ensures err { OnErr result (self.new ≡ self.old) }
    {
        match self.entries.insert(client.0, before) {
            Ok(_none) => {}
            Err(_) => return Err(AllocError),
        }
        Ok(())
    }

    /// Takes a client's request as its first entry, unless it has one, and answers whether it had none.
    pub(crate) fn keep(
        &mut self,
        client: ClientId,
        before: Option<Done>,
    ) -> Result<bool, AllocError>
        ensures ok { OnOk result (self.new ≡ keep_first client.0 before self.old) }
        ensures is_first { IfOk result (λ is_first. is_first ≡ not (is_some (fin.get self.old client.0))) }
        ensures err { OnErr result (self.new ≡ self.old) }
    {
        let is_first = self.get(client).is_none();
        if is_first {
            self.put(client, before)?;
        }
        Ok(is_first)
    }

    /// Forgets the entry that `keep` took of a client, if it answered that it took one. It takes no memory.
    pub(crate) fn take_back(&mut self, client: ClientId, is_first: bool)
        ensures { self.new ≡ cond is_first (fin.remove self.old client.0) self.old }
    {
        if is_first {
            self.forget(client);
        }
    }

    /// Forgets a client's first entry.
    fn forget(&mut self, client: ClientId)
        ensures { self.new ≡ fin.remove self.old client.0 }
    {
        self.entries.remove(&client.0);
    }

    /// Whether an edit of a client can be undone that leaves it this request.
    pub(crate) fn fits(&self, client: ClientId, before: Option<Done>) -> bool
        ensures { result ≡ fits (fin.get self.now client.0) before }
    {
        match self.get(client) {
            Some(Some(_sealed)) => before.is_some(),
            Some(None) => true,
            None => false,
        }
    }

    /// Takes the entry of the lowest client out.
    pub(crate) fn pop_first(&mut self) -> Option<(ClientId, Option<Done>)>
        ensures entry { IfSome result (λ e. fin.get self.old e.0.0 ≡ Some e.1) }
        ensures left { IfSome result (λ e. self.new ≡ fin.remove self.old e.0.0) }
        ensures less { OnSome result (fin.len self.new < fin.len self.old) }
        ensures none { IfNone result (self.old ≡ fin.empty) }
    {
        let (client, before) = self.entries.pop_first()?;
        Some((ClientId(client), before))
    }
}
