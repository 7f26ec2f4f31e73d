// Calls that copy a tree.
ghost use Rattle.std.specs.Prelude.{[], ◌≡◌, ◌≢◌, IfErr, IfOk};
ghost use Rattle.std.specs.FinMap as fin;
ghost use Rattle.gs_edit.specs.Edits.{edited};
ghost use Rattle.gs_edit.specs.declared.edit.Edit.TheVariants as edits;
ghost use Rattle.gs_master.specs.inner.Turns.{GoesBack, IsUnderWay, state_at, EventSteps};
ghost use Rattle.gs_master_state.specs.inner.Trying.{of_tree, refusal_of};
ghost use Rattle.gs_master_spec.specs.Working.{begins_snapshot, snapshots};

use crate::event::Event;
use gs_base::{Handle, Refusal, ReqId};
use gs_edit::Edit;
use gs_master_plan::view::begin_pending;
use gs_master_spec::pending::Waiting;
use gs_msg::Answer;
use gs_path::Path;

/// Why the tree refuses a snapshot, by why the names do. It isn't its refusal that a chunk would be referred to too often, or
/// isn't listed.
fn of_tree(judged: Option<Refusal>) -> Option<Refusal>
    ensures { result ≡ of_tree judged }
{
    match judged {
        Some(Refusal::Exhausted | Refusal::BadLine) => None,
        judged => judged,
    }
}

impl Event {
    /// Why the tree refuses a snapshot, if it does.
    fn refusal_of_copy(&mut self, from: &Path, to: &Path) -> Result<Option<Refusal>, Refusal>
        ensures judged { IfOk result (λ refusal. refusal ≡ refusal_of (edited (edits.Snapshot from.now to.now) (fin.entries (state_at self.old).durable.names.tree))) }
        ensures memory { IfErr result (λ refusal. refusal ≡ Refusal.Memory) }
        ensures stays { self.new ≡ self.old }
    {
        let edit = Edit::Snapshot(from.copy(self.alloc)?, to.copy(self.alloc)?);
        let judged = self.refusal_of(&edit)?;
        Ok(of_tree(judged))
    }

    /// The chunks of the source that aren't quiet are made so, and the call waits for them.
    fn quiet_source(
        &mut self,
        req: ReqId,
        from: Path,
        to: Path,
        chunks: &[Handle],
    ) -> Result<(), Refusal>
        requires ready { IsUnderWay self.old }
        requires some { chunks.now ≢ [] }
        ensures steps { EventSteps (begins_snapshot (state_at self.old) req from to chunks.now) self.old result self.new }
        ensures back { GoesBack self.old self.new }
    {
        if self.standing().is_any_wanted(chunks) {
            return self.refuse(req, Refusal::Locked);
        }
        if !self.recorded.has_versions(chunks.len() as u64) {
            return self.refuse(req, Refusal::Exhausted);
        }
        if !self.log.has_room_for_proposals(chunks.len()) {
            return self.refuse(req, Refusal::Full);
        }
        let plan = begin_pending(self.alloc, req, Waiting::Snapshot { from, to })?;
        self.carry_out(plan)?;
        self.begin_all(chunks, Some(req))
    }

    /// What is visible at a path is copied, once each of its chunks is quiet.
    pub fn snapshot(&mut self, req: ReqId, from: Path, to: Path) -> Result<(), Refusal>
        requires { IsUnderWay self.old }
        ensures steps { EventSteps (snapshots (state_at self.old) req from to) self.old result self.new }
        ensures back { GoesBack self.old self.new }
    {
        if let Some(refusal) = self.refusal_of_copy(&from, &to)? {
            return self.refuse(req, refusal);
        }
        let chunks = self.standing().unquiet(&from)?;
        if chunks.is_empty() {
            let edit = self.standing().snapshot_edit(from, to);
            return self.edit_by(req, edit, Answer::Nothing);
        }
        self.quiet_source(req, from, to, &chunks)
    }
}
