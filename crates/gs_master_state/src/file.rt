// Files and directories: what stands at a path, what is told of it, and the names of what was deleted.
ghost use Rattle.std.specs.Prelude.{◌≡◌, IfOk, is_some, map, Ok};
ghost use Rattle.std.specs.FinMap as fin;
ghost use Rattle.std.specs.Ordering.{nat_cmp};
ghost use Rattle.gs_edit.specs.Plain.{unhide_target};
ghost use Rattle.gs_master_spec.specs.Applied.{is_visible};
ghost use Rattle.gs_master_spec.specs.Calls.{chunk_status, found_chunk, has_visible_child, is_shared, listing, location, references, status};
ghost use Rattle.gs_master_state.specs.inner.Judging.{length_at, listed_name};
ghost use Rattle.gs_master_state.specs.inner.Recorded.{durable_of};
ghost use Rattle.gs_master_state.specs.inner.Surveying.{AreVisible, IsScanOf};
ghost use Rattle.gs_base_table.specs.Slots.{live};
ghost use Rattle.gs_tree.specs.Edits.{beside, hidden_path, old_name, parent};
ghost use Rattle.gs_tree.specs.Listing.{pairs_of};

use crate::known::chunk_set;
use crate::recorded::Recorded;
use gs_base::{Handle, Members, Moment, Refusal};
use gs_base_table::Table;
use gs_edit::Scan;
use gs_msg::{Answer, ChunkStatus, Items, ListedName, Names, Status};
use gs_path::{Name, Path};
use gs_tree::{Listed, Status as Found};
use std::alloc::{AllocError, Global};

impl Recorded {
    /// How often files have a chunk.
    pub fn references(&self, chunk: Handle) -> u32
        ensures { result ≡ references (durable_of self.now).names chunk }
    {
        self.names.refs().count(chunk).unwrap_or(0)
    }

    /// Whether a chunk stands in several places.
    pub fn is_shared(&self, chunk: Handle) -> bool
        ensures { result ≡ is_shared (durable_of self.now).names chunk }
    {
        1 < self.references(chunk)
    }

    /// What is told of a chunk of a file.
    fn chunk_status(&self, chunk: Handle) -> ChunkStatus
        ensures { result ≡ chunk_status (durable_of self.now) chunk }
    {
        let members = match self.view(chunk) {
            Some(view) => view.members,
            None => Members::none(),
        };
        ChunkStatus {
            handle: chunk,
            references: self.references(chunk),
            members,
        }
    }

    /// What is told of the chunks of a file.
    fn chunk_statuses(&self, chunks: &[Handle]) -> Result<Vec<ChunkStatus>, AllocError>
        ensures { IfOk result (λ told. told.items ≡ map (chunk_status (durable_of self.now)) chunks.now) }
    {
        let mut told = Vec::new(self.alloc);
        for chunk in chunks {
            told.push(self.chunk_status(*chunk))?;
        }
        Ok(told)
    }

    /// What stands at a path.
    pub fn status(&self, path: &Path) -> Result<Result<Answer, Refusal>, AllocError>
        ensures { IfOk result (λ told. told ≡ status (durable_of self.now) (fin.get (durable_of self.now).names.tree path.now)) }
    {
        let status = match self.names.status(path) {
            Ok(Found::Dir) => Status::Directory,
            Ok(Found::File(chunks)) => Status::File(Items::new(self.chunk_statuses(chunks)?)),
            Err(refusal) => return Ok(Err(refusal)),
        };
        Ok(Ok(Answer::Status(status)))
    }

    /// The chunk at a place of a file.
    pub fn found_chunk(&self, path: &Path, index: u64) -> Result<Handle, Refusal>
        ensures { result ≡ found_chunk (fin.get (durable_of self.now).names.tree path.now) index }
    {
        let Found::File(chunks) = self.names.status(path)? else {
            return Err(Refusal::IsADirectory);
        };
        match chunks.get(index as usize) {
            Some(chunk) => Ok(*chunk),
            None => Err(Refusal::Range),
        }
    }

    /// Where a chunk is, by its settled view.
    pub fn location(&self, chunk: Handle) -> Result<Answer, Refusal>
        ensures { result ≡ location (durable_of self.now) (Ok chunk) }
    {
        let Some(view) = self.view(chunk) else {
            return Err(Refusal::NoReplica);
        };
        Ok(Answer::Location {
            handle: chunk,
            view,
            epoch: self.epoch,
        })
    }
}

/// The names that are listed, as they are told.
fn names_of(alloc: Global, listed: Vec<Listed>) -> Result<Vec<ListedName>, AllocError>
    ensures { IfOk result (λ names. names.items ≡ map listed_name (pairs_of listed.items)) }
{
    let mut names = Vec::new(alloc);
    for one in listed {
        names.push(ListedName {
            name: one.name,
            is_directory: one.is_dir,
        })?;
    }
    Ok(names)
}

impl Recorded {
    /// What is listed at a path: the visible children of a directory, or a file's own name.
    pub fn listing(&self, path: &Path) -> Result<Result<Answer, Refusal>, AllocError>
        ensures { IfOk result (λ told. told ≡ listing (fin.entries (durable_of self.now).names.tree) path.now (fin.get (durable_of self.now).names.tree path.now)) }
    {
        let listed = match self.names.list(path) {
            Ok(listed) => listed,
            Err(Refusal::Memory) => return Err(AllocError),
            Err(refusal) => return Ok(Err(refusal)),
        };
        let names = names_of(self.alloc, listed)?;
        Ok(Ok(Answer::Names(Names::new(names))))
    }

    /// Whether something stands at a path.
    pub fn stands(&self, path: &Path) -> bool
        ensures { result ≡ is_some (fin.get (durable_of self.now).names.tree path.now) }
    {
        self.names.status(path).is_ok()
    }

    /// Whether a directory has a child whose name isn't hidden.
    pub fn has_visible_child(&self, path: &Path) -> bool
        ensures { result ≡ has_visible_child (fin.entries (durable_of self.now).names.tree) path.now }
    {
        self.names.has_visible(path)
    }

    /// Where the chunk at a place of a file is.
    pub fn location_at(&self, path: &Path, index: u64) -> Result<Answer, Refusal>
        ensures { result ≡ location (durable_of self.now) (found_chunk (fin.get (durable_of self.now).names.tree path.now) index) }
    {
        match self.found_chunk(path, index) {
            Ok(chunk) => self.location(chunk),
            Err(refusal) => Err(refusal),
        }
    }

    /// How many chunks a file has.
    pub fn length_at(&self, path: &Path) -> Result<u64, Refusal>
        ensures { result ≡ length_at (fin.get (durable_of self.now).names.tree path.now) }
    {
        match self.names.status(path) {
            Ok(Found::File(chunks)) => Ok(chunks.len() as u64),
            Ok(Found::Dir) => Err(Refusal::IsADirectory),
            Err(refusal) => Err(refusal),
        }
    }

    /// The chunks of files that no hidden name is above.
    pub fn visible_chunks(&self) -> Result<Table<Handle, bool>, AllocError>
        ensures { IfOk result (λ visible. AreVisible (fin.entries (durable_of self.now).names.tree) (live nat_cmp visible)) }
    {
        let root = Path::root(self.alloc);
        let chunks = self.names.visible_chunks_under(self.alloc, &root)?;
        chunk_set(self.alloc, &chunks)
    }

    /// The chunks of files that no hidden name is above are found, and kept until the names change. Where memory is wanting they aren't.
    pub fn see_visible(&mut self)
        ensures { self.new ≡ self.old }
    {
        if self.names.visible().is_some() {
            return;
        }
        if let Ok(chunks) = self.visible_chunks() {
            self.names.keep_visible(chunks);
        }
    }

    /// What a scan at a moment takes out. It fails where a chunk stands more often in what goes than its count says, which no
    /// edit leads to.
    pub fn scan(&self, moment: Moment) -> Result<Scan, AllocError>
        ensures { IfOk result (IsScanOf moment (durable_of self.now).names) }
    {
        match self.names.scan(moment) {
            Ok(scan) => Ok(scan),
            Err(_) => Err(AllocError),
        }
    }
}

/// Whether no element of a path begins as the names of deleted entries do.
pub fn is_visible(path: &Path) -> bool
    ensures { result ≡ is_visible path.now }
{
    !path.elements().iter().any(|name| name.is_hidden())
}

/// The directory in which a path is.
fn directory(alloc: Global, path: &Path) -> Result<Path, AllocError>
    ensures { IfOk result (λ directory. directory ≡ parent path.now) }
{
    match path.parent(alloc)? {
        Some(parent) => Ok(parent),
        None => Ok(Path::root(alloc)),
    }
}

/// A name in the directory in which a path is.
fn beside(alloc: Global, path: &Path, name: Name) -> Result<Path, AllocError>
    ensures { IfOk result (λ other. other ≡ beside path.now name) }
{
    let mut other = directory(alloc, path)?;
    other.push(name)?;
    Ok(other)
}

/// Where a path is once it is deleted.
pub fn hidden_path(
    alloc: Global,
    path: &Path,
    moment: Moment,
    number: u64,
) -> Result<Path, AllocError>
    ensures { IfOk result (λ hidden. hidden ≡ hidden_path path.now moment.0 number) }
{
    let Some((name, _)) = path.elements().split_last() else {
        return Ok(Path::root(alloc));
    };
    let hidden = Name::hidden(alloc, moment, number, name)?;
    beside(alloc, path, hidden)
}

/// The name that a deleted entry had.
pub fn old_name(alloc: Global, path: &Path) -> Result<Option<Name>, AllocError>
    ensures { IfOk result (λ name. name ≡ old_name path.now) }
{
    let Some((name, _)) = path.elements().split_last() else {
        return Ok(None);
    };
    match name.hidden_parts(alloc)? {
        Some(parts) => Ok(Some(parts.old)),
        None => Ok(None),
    }
}

/// Where a deleted entry was. A path that is none of one stays.
pub fn old_path(alloc: Global, path: &Path) -> Result<Path, AllocError>
    ensures { IfOk result (λ old. old ≡ unhide_target path.now (old_name path.now)) }
{
    match old_name(alloc, path)? {
        Some(name) => beside(alloc, path, name),
        None => path.copy(alloc),
    }
}
