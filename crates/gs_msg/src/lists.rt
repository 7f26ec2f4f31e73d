ghost use Rattle.std.specs.Prelude.{◌≡◌, ◌↔◌, IsTrue, IfOk};

use gs_base::Handle;
use gs_path::Name;
use std::alloc::{AllocError, Global};
use std::marker::Model;

/// The bytes that a message carries.
#[derive(Debug)]
pub struct Bytes {
    bytes: Vec<u8>,
}

impl Drop for Bytes {
    fn drop(self) {
        let Self { bytes: _ } = self;
    }
}

impl Model for Bytes {
    ghost use Rattle.std.specs.Prelude.{List, ℕ};

    ghost Value = { List ℕ };

    ghost view = { λ b. b.bytes.items };
}

impl Bytes {
    pub fn new(bytes: Vec<u8>) -> Bytes
        ensures { result ≡ bytes.items }
    {
        Bytes { bytes }
    }

    pub fn as_slice(&self) -> &[u8]
        ensures { result.now ≡ self.now }
    {
        &self.bytes
    }

    /// The same bytes, in memory of their own.
    pub fn copy(&self, alloc: Global) -> Result<Bytes, AllocError>
        ensures { IfOk result (λ bytes. bytes ≡ self.now) }
    {
        Ok(Bytes {
            bytes: Vec::from_slice(alloc, &self.bytes)?,
        })
    }

    /// Whether other bytes are the same.
    pub fn is_same(&self, other: &Bytes) -> bool
        ensures { IsTrue result ↔ (self.now ≡ other.now) }
    {
        self.bytes.as_slice() == other.bytes.as_slice()
    }

    /// The bytes themselves. It takes no memory.
    pub fn into_vec(self) -> Vec<u8>
        ensures { result.items ≡ self }
    {
        let Self { bytes } = self;
        bytes
    }
}

/// A list that a message carries, of items without memory of their own.
#[derive(Debug)]
pub struct Items<T> {
    items: Vec<T>,
}

impl<T: Drop> Drop for Items<T> {
    fn drop(self) {
        let Self { items: _ } = self;
    }
}

impl<T> Model for Items<T> {
    ghost use Rattle.std.specs.Prelude.{List};
    ghost use Rattle.std.specs.Coded.{coded_list};

    ghost Value = { List T };

    ghost coded = { coded_list T.code };

    ghost view = { λ l. l.items.items };
}

impl<T: Copy + Drop> Items<T> {
    pub fn new(items: Vec<T>) -> Self
        ensures { result ≡ items.items }
    {
        Self { items }
    }

    pub fn as_slice(&self) -> &[T]
        ensures { result.now ≡ self.now }
    {
        &self.items
    }

    /// The same list, in memory of its own.
    pub fn copy(&self, alloc: Global) -> Result<Self, AllocError>
        ensures { IfOk result (λ items. items ≡ self.now) }
    {
        Ok(Self {
            items: Vec::from_slice(alloc, &self.items)?,
        })
    }
}

impl Items<Handle> {
    /// Whether another list is the same.
    pub fn is_same(&self, other: &Self) -> bool
        ensures { IsTrue result ↔ (self.now ≡ other.now) }
    {
        same_handles(&self.items, &other.items)
    }
}

/// A name in a directory.
#[derive(Debug, PartialEq, Eq, Drop)]
pub struct ListedName {
    pub name: Name,
    pub is_directory: bool,
}

impl ListedName {
    /// The same name, in memory of its own.
    pub fn copy(&self, alloc: Global) -> Result<ListedName, AllocError>
        ensures { IfOk result (λ name. name ≡ self.now) }
    {
        Ok(ListedName {
            name: self.name.copy(alloc)?,
            is_directory: self.is_directory,
        })
    }
}

/// The names in a directory, in the order of their bytes.
#[derive(Debug)]
pub struct Names {
    names: Vec<ListedName>,
}

impl Drop for Names {
    fn drop(self) {
        let Self { names: _ } = self;
    }
}

impl Model for Names {
    ghost use Rattle.std.specs.Prelude.{List};
    ghost use Rattle.gs_msg.specs.declared.lists.ListedName.{ListedName};

    ghost Value = { List ListedName };

    ghost view = { λ n. n.names.items };
}

impl Names {
    /// Whether other names are the same.
    pub fn is_same(&self, other: &Names) -> bool
        ensures { IsTrue result ↔ (self.now ≡ other.now) }
    {
        same_names(&self.names, &other.names)
    }

    pub fn new(names: Vec<ListedName>) -> Names
        ensures { result ≡ names.items }
    {
        Names { names }
    }

    pub fn as_slice(&self) -> &[ListedName]
        ensures { result.now ≡ self.now }
    {
        &self.names
    }

    /// The same names, in memory of their own.
    pub fn copy(&self, alloc: Global) -> Result<Names, AllocError>
        ensures { IfOk result (λ names. names ≡ self.now) }
    {
        Ok(Names {
            names: copied(alloc, &self.names)?,
        })
    }
}

fn same_handles(left: &[Handle], right: &[Handle]) -> bool
    ensures { IsTrue result ↔ (left.now ≡ right.now) }
{
    left == right
}

fn same_names(left: &[ListedName], right: &[ListedName]) -> bool
    ensures { IsTrue result ↔ (left.now ≡ right.now) }
{
    left == right
}

fn copied(alloc: Global, names: &[ListedName]) -> Result<Vec<ListedName>, AllocError>
    ensures { IfOk result (λ v. v.items ≡ names.now) }
{
    let mut v = Vec::new(alloc);
    for name in names {
        v.push(name.copy(alloc)?)?;
    }
    Ok(v)
}
