ghost use Rattle.std.specs.Prelude.{◌≡◌, ◌+◌, ◌<◌, ◌^◌, OnOk, OnErr};
ghost use Rattle.gs_lock.specs.Tallies.{count_in, SameCounts, Adds, Subtracts, IsTight};

use std::alloc::{AllocError, Global};
use std::collections::BTreeMap;

/// How often keys stand in a list.
#[derive(Drop)]
pub(crate) struct Tally<K: Ord> {
    pub(crate) counts: BTreeMap<K, u64>,
}

impl<K: Ord + Drop> Tally<K> {
    pub(crate) fn new(alloc: Global) -> Self
        ensures none { (key : K) → count_in K.cmp result.counts key ≡ 0 }
        ensures tight { IsTight K.cmp result.counts }
    {
        Self {
            counts: BTreeMap::new(alloc),
        }
    }

    pub(crate) fn count(&self, key: &K) -> u64
        ensures { result ≡ count_in K.cmp self.now.counts key.now }
    {
        match self.counts.get(key) {
            Some(count) => *count,
            None => 0,
        }
    }

    /// Adds a key.
    pub(crate) fn add(&mut self, key: K) -> Result<(), AllocError>
        requires { count_in K.cmp self.old.counts key + 1 < 2 ^ 64 }
        ensures ok { OnOk result (Adds K.cmp self.old.counts self.new.counts key) }
        ensures err { OnErr result (SameCounts K.cmp self.old.counts self.new.counts) }
        ensures tight { IsTight K.cmp self.old.counts → IsTight K.cmp self.new.counts }
    {
        if let Some(count) = self.counts.get_mut(&key) {
            *count += 1;
            return Ok(());
        }
        self.counts.insert(key, 1)?;
        Ok(())
    }

    /// Takes a key out once that stands in the list. It takes no memory.
    pub(crate) fn subtract(&mut self, key: &K)
        requires { 0 < count_in K.cmp self.old.counts key.now }
        ensures subtracts { Subtracts K.cmp self.old.counts self.new.counts key.now }
        ensures tight { IsTight K.cmp self.old.counts → IsTight K.cmp self.new.counts }
    {
        if self.count(key) == 1 {
            self.counts.remove(key);
            return;
        }
        if let Some(count) = self.counts.get_mut(key) {
            *count -= 1;
        }
    }
}
