ghost use Rattle.std.specs.Prelude.{◌≡◌, OnOk, OnErr, OnSome, IfOk, Some, None, is_none, is_some, length, map, ◌<◌, ◌^◌};
ghost use Rattle.std.specs.Option.{option_copied, option_flatten};
ghost use Rattle.std.specs.FinMap as fin;
ghost use Rattle.std.specs.List.Sorted.{IsStrictlySortedBy};
ghost use Rattle.gs_base_table.specs.Slots.{live, HasRoom, KeepsRoom, GivesUpRoom, IsWritten};

use crate::entries::Entries;
use crate::key::Key;
use std::alloc::{AllocError, Global};
use std::collections::BTreeMap;
use std::marker::Model;
use std::mem::replace;

/// A map in which room is made for a key first, so that putting a value at it takes no memory. It is seen as its slots;
/// what lives in them is the map that callers speak of.
pub struct Table<K: Ord, V> {
    slots: BTreeMap<K, Option<V>>,
}

impl<K: Ord + Drop, V: Drop> Drop for Table<K, V> {
    fn drop(self) {
        let Self { slots: _ } = self;
    }
}

impl<K: Ord, V> Model for Table<K, V> {
    ghost use Rattle.std.specs.Prelude.{List, Option};
    ghost use Rattle.std.specs.Coded.{coded_list, coded×, coded_option};

    ghost Value = { List (K × Option V) };

    ghost coded = { coded_list (coded× K.code (coded_option V.code)) };

    ghost view = { λ t. t.slots.entries };
}

impl<K: Key + Drop, V: Drop> Table<K, V> {
    pub fn new(alloc: Global) -> Self
        ensures { live K.cmp result ≡ fin.empty }
    {
        Self {
            slots: BTreeMap::new(alloc),
        }
    }

    /// What stands at a key. A key at which something stands has room.
    pub fn get(&self, key: K) -> Option<&V>
        ensures value { option_copied result ≡ fin.get (live K.cmp self.now) key }
        ensures room { OnSome result (HasRoom K.cmp self.now key) }
    {
        match self.slots.get(&key) {
            Some(slot) => slot.as_ref(),
            None => None,
        }
    }

    /// What lives, in the order of the keys.
    pub fn iter(&self) -> Entries<'_, K, V>
        ensures entries { result ≡ fin.entries (live K.cmp self.entry.now) }
        ensures ordered { IsStrictlySortedBy K.cmp (map (λ entry. entry.0) result) }
        ensures fits { length result < 2 ^ 63 }
    {
        Entries {
            slots: self.slots.iter(),
        }
    }

    /// How many keys something stands at. It looks at each.
    pub fn len(&self) -> usize
        ensures { result ≡ fin.len (live K.cmp self.now) }
    {
        self.iter().count()
    }

    fn has(&self, key: K) -> bool
        ensures { result ≡ is_some (fin.find K.cmp key self.now) }
    {
        self.slots.contains_key(&key)
    }

    fn write(&mut self, key: K, value: Option<V>) -> Result<Option<V>, AllocError>
        ensures ok { OnOk result (IsWritten K.cmp self.old self.new key value) }
        ensures was { IfOk result (λ old. old ≡ option_flatten (fin.find K.cmp key self.old)) }
        ensures err { OnErr result (self.new ≡ self.old) }
        ensures absent { OnErr result (fin.find K.cmp key self.old ≡ None) }
    {
        match self.slots.insert(key, value) {
            Ok(Some(old)) => Ok(old),
            Ok(None) => Ok(None),
            Err(_) => Err(AllocError),
        }
    }

    /// Writes the slot of a key that has one, where it stands, and answers what it held. It takes no memory.
    fn swap(&mut self, key: K, value: Option<V>) -> Option<V>
        requires { HasRoom K.cmp self.old key }
        ensures written { IsWritten K.cmp self.old self.new key value }
        ensures was { result ≡ option_flatten (fin.find K.cmp key self.old) }
    {
        let Some(slot) = self.slots.get_mut(&key) else {
            return None;
        };
        replace(slot, value)
    }

    /// Makes room for a key.
    pub fn reserve(&mut self, key: K) -> Result<(), AllocError>
        ensures same { live K.cmp self.new ≡ live K.cmp self.old }
        ensures ok { OnOk result (HasRoom K.cmp self.new key) }
        ensures keeps { KeepsRoom K.cmp self.old self.new }
    {
        if self.has(key) {
            return Ok(());
        }
        self.write(key, None)?;
        Ok(())
    }

    /// Puts a value at a key that has room. It takes no memory.
    pub fn put(&mut self, key: K, value: V)
        requires { HasRoom K.cmp self.old key }
        ensures put { live K.cmp self.new ≡ fin.insert (live K.cmp self.old) key value }
        ensures keeps { KeepsRoom K.cmp self.old self.new }
    {
        self.replace(key, value);
    }

    /// Puts a value at a key that has room, and answers what stood there. It takes no memory.
    pub fn replace(&mut self, key: K, value: V) -> Option<V>
        requires { HasRoom K.cmp self.old key }
        ensures value { result ≡ fin.get (live K.cmp self.old) key }
        ensures put { live K.cmp self.new ≡ fin.insert (live K.cmp self.old) key value }
        ensures keeps { KeepsRoom K.cmp self.old self.new }
    {
        self.swap(key, Some(value))
    }

    /// Takes out what stands at a key, and leaves its room. It takes no memory.
    pub fn take(&mut self, key: K) -> Option<V>
        ensures value { result ≡ fin.get (live K.cmp self.old) key }
        ensures taken { live K.cmp self.new ≡ fin.remove (live K.cmp self.old) key }
        ensures keeps { KeepsRoom K.cmp self.old self.new }
    {
        let Some(slot) = self.slots.get_mut(&key) else {
            return None;
        };
        slot.take()
    }

    /// Takes out what stands at a key, and gives up its room. It takes no memory.
    pub fn remove(&mut self, key: K) -> Option<V>
        ensures value { result ≡ fin.get (live K.cmp self.old) key }
        ensures removed { live K.cmp self.new ≡ fin.remove (live K.cmp self.old) key }
        ensures room { GivesUpRoom K.cmp self.old self.new key }
    {
        self.slots.remove(&key).flatten()
    }

    fn is_free(&self, key: K) -> bool
        ensures { result ≡ is_none (fin.get (live K.cmp self.now) key) }
    {
        self.get(key).is_none()
    }

    /// Gives up the room of a key at which nothing stands. It takes no memory.
    pub fn release(&mut self, key: K)
        ensures same { live K.cmp self.new ≡ live K.cmp self.old }
        ensures empty { fin.get (live K.cmp self.old) key ≡ None → GivesUpRoom K.cmp self.old self.new key }
        ensures kept { OnSome (fin.get (live K.cmp self.old) key) (self.new ≡ self.old) }
    {
        if self.is_free(key) {
            let _nothing = self.remove(key);
        }
    }
}
