//! A client's desk, as a run over a log keeps it: lines of the grammar alone change anything.
#![tactic(auto)]

ghost use Rattle.std.specs.Prelude.{◌≡◌, ◌&&◌, not, IfOk};
ghost use Rattle.gs_keep_desk.specs.Looks.{harms_line};
ghost use Rattle.gs_keep_desk.specs.Names.{AreNames};

use gs_journal::Disk;
use gs_keep::Keeping;
use gs_shell_desk::Desk;
use gs_shell_grammar::LineError;
use gs_shell_script::Answering;
use gs_tree::TreeEntry;
use std::alloc::{AllocError, Global};

mod lines;
mod looking;
mod names;
mod ticks;

pub use lines::{harms, only_looks};
pub use looking::LookingDesk;
pub use names::name_line;
use names::names_of;
use ticks::{BYTES_BETWEEN_TICKS, since_tick};

/// A client's desk. Each line of the grammar is kept, also one that only reads. A line that harms the store is turned away where the desk
/// isn't one of a lab. Behind 67,108,864 bytes of lines without a `tick` one is due as a line of its own, where each line counts 256 bytes more: nodes tick by themselves only where a request has no
/// answer, and the master writes its journal anew at a tick alone.
pub struct KeptDesk<D: Disk> {
    desk: Desk<D>,
    is_lab: bool,
    /// What the lines behind the last `tick` count, and no more than makes one due.
    since: u64,
}

impl<D: Disk + Drop> Drop for KeptDesk<D> {
    fn drop(self) {
        let Self {
            desk: _,
            is_lab: _,
            since: _,
        } = self;
    }
}

impl<D: Disk + Drop> KeptDesk<D> {
    pub fn new(desk: Desk<D>, is_lab: bool) -> KeptDesk<D>
        ensures desk { result.desk ≡ desk }
        ensures lab { result.is_lab ≡ is_lab }
        ensures since { result.since ≡ 0 }
    {
        KeptDesk {
            desk,
            is_lab,
            since: 0,
        }
    }

    /// What stands at each path but the root, hidden names too, in the order of the paths. `None` where the master's disks aren't open, as behind
    /// a restart that was refused. It costs what is listed.
    pub fn names(&self, alloc: Global) -> Result<Option<Vec<TreeEntry>>, AllocError>
        ensures { IfOk result (λ found. AreNames self.now.desk.wire.nodes.master found) }
    {
        names_of(&self.desk, alloc)
    }

    /// The desk that is kept.
    pub fn desk(&self) -> &Desk<D>
        ensures { result.now ≡ self.now.desk }
    {
        &self.desk
    }

    /// The desk, which is kept no more.
    pub fn into_desk(self) -> Desk<D>
        ensures { result ≡ self.desk }
    {
        let Self {
            desk,
            is_lab: _,
            since: _,
        } = self;
        desk
    }

    /// What it has come to is only looked at from now on.
    pub fn looking(self) -> LookingDesk<D>
        ensures { result.desk ≡ self.desk }
    {
        let Self {
            desk,
            is_lab: _,
            since: _,
        } = self;
        LookingDesk::new(desk)
    }
}

impl<D: Disk + Drop> Answering for KeptDesk<D> {
    ghost use Rattle.gs_keep_desk.specs.Keeps.{MayAnswer};

    ghost Answers = { λ old line text new. MayAnswer D.seen D.failures old line text new };

    /// Where a node of the store lacks memory, that is the answer, whatever the store would say.
    fn answer(&mut self, alloc: Global, line: &[u8]) -> Result<String, AllocError> {
        let answer = self.desk.answer(alloc, line);
        if self.desk.wire.is_short {
            return Err(AllocError);
        }
        let text = answer?;
        self.since = since_tick(self.since, line, text.as_bytes());
        Ok(text)
    }
}

impl<D: Disk + Drop> Keeping for KeptDesk<D> {
    ghost use Rattle.std.specs.Prelude.{is_some};
    ghost use Rattle.gs_shell_grammar.specs.Grammar.{line_request};
    ghost use Rattle.gs_keep_desk.specs.Keeps.{due_lines_stand, marks_are_none, other_lines_are_refused, other_lines_change_nothing};
    ghost use Rattle.gs_keep_desk.specs.Looks.{harms_line};
    ghost use Rattle.gs_keep_desk.specs.Ticks.{due_line};

    ghost is_kept = { λ line. is_some (line_request line) };

    ghost is_turned_away = { λ desk line. not desk.is_lab && harms_line line };

    ghost own = { λ desk. due_line desk.since };

    ghost own_lines_stand = { λ desk line due. due_lines_stand (λ d. d.is_lab) desk desk.since line due };

    ghost changes_nothing = { λ old new line text. other_lines_change_nothing D.seen D.failures old new line text };

    ghost is_refused = { λ old new line text. other_lines_are_refused D.seen D.failures old new line text };

    ghost marks_are_none = { λ line. marks_are_none line };

    fn keeps(&self, alloc: Global, line: &[u8]) -> Result<bool, AllocError> {
        match gs_shell_grammar::parse(alloc, line) {
            Ok(_) => Ok(true),
            Err(LineError::BadLine) => Ok(false),
            Err(LineError::Memory) => Err(AllocError),
        }
    }

    /// A line that harms the store is turned away exactly where the desk isn't one of a lab.
    fn turns_away(&self, alloc: Global, line: &[u8]) -> Result<bool, AllocError>
        ensures { IfOk result (λ away. away ≡ not self.now.is_lab && harms_line line.now) }
    {
        match gs_shell_grammar::parse(alloc, line) {
            Ok(command) => Ok(!self.is_lab && harms(&command)),
            Err(LineError::Memory) => Err(AllocError),
            Err(_) => Ok(false),
        }
    }

    /// A tick, where it is due.
    fn own_line(&self) -> Option<&'static [u8]> {
        if self.since < BYTES_BETWEEN_TICKS {
            return None;
        }
        Some(b"tick\n")
    }
}
