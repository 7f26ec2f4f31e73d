// What is to be done because of a piece of news.
ghost use Rattle.std.specs.Prelude.{[], ◌++◌, ◌∷◌, ◌≡◌, IfOk, OnOk};
ghost use Rattle.gs_master_spec.specs.Beginning.{waits_from_now, waits_on};
ghost use Rattle.gs_master_state.specs.inner.Plans.{plan_of};
ghost use Rattle.gs_master_spec.specs.State.{nothing_to_do};

use gs_base::{Refusal, ReqId};
use gs_master_record::Entry;
use gs_master_spec::change::Change;
use gs_master_spec::pending::{Pending, Waiting};
use gs_msg::Message;
use std::alloc::{AllocError, Global};

/// What is to be done: records, changes of what is kept in memory, messages in order, and the refusal with which a message is met.
#[derive(Drop)]
pub struct Plan {
    pub records: Vec<Entry>,
    pub changes: Vec<Change>,
    pub sent: Vec<Message>,
    pub said: Option<Refusal>,
}

/// Puts a change behind others. Most plans have no other behind it, so no room is made for more.
pub fn push_change(changes: &mut Vec<Change>, change: Change) -> Result<(), AllocError>
    ensures { OnOk result (changes.new.items ≡ changes.old.items ++ change ∷ []) }
{
    changes.reserve_exact(1)?;
    changes.push_reserved(change);
    Ok(())
}

impl Plan {
    /// Nothing is to be done.
    pub fn nothing(alloc: Global) -> Plan
        ensures { plan_of result ≡ nothing_to_do }
    {
        Plan {
            records: Vec::new(alloc),
            changes: Vec::new(alloc),
            sent: Vec::new(alloc),
            said: None,
        }
    }

    /// A call begins to wait for what is begun.
    pub fn waits_from_now(self, req: ReqId, waits: Waiting) -> Result<Plan, AllocError>
        ensures { IfOk result (λ plan. plan_of plan ≡ waits_from_now (plan_of self) req waits) }
    {
        let mut plan = self;
        push_change(&mut plan.changes, Change::Begin(Pending { req, waits }))?;
        Ok(plan)
    }

    /// A call that waits does so for what is begun.
    pub fn waits_on(self, req: ReqId, waits: Waiting) -> Result<Plan, AllocError>
        ensures { IfOk result (λ plan. plan_of plan ≡ waits_on (plan_of self) req waits) }
    {
        let mut plan = self;
        push_change(&mut plan.changes, Change::Wait(req, waits))?;
        Ok(plan)
    }
}
