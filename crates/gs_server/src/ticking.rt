ghost use Rattle.std.specs.Prelude.{◌≡◌, ◌==◌, not, length, IfOk};
ghost use Rattle.std.specs.List.{list_any};
ghost use Rattle.std.specs.FinMap as fin;
ghost use Rattle.gs_server.specs.Servers.{ServerSteps, tick, reminds_all};

use crate::leases::{over, spend_each};
use crate::server::Server;
use crate::turn::Turn;
use gs_base::{Moment, Refusal};
use gs_msg::Message;
use std::alloc::AllocError;

impl Server {
    /// Whether an edit waits for members under one of its leases, which may be over.
    pub fn is_waiting(&self) -> bool
        ensures { result ≡ list_any (λ e. not (length e.1.outbox == 0)) (fin.entries self.now.dropped.leases) }
    {
        for (handle, lease) in self.leases.iter() {
            let _handle = handle;
            if lease.is_waiting() {
                return true;
            }
        }
        false
    }

    /// Sends the edits that wait under leases that aren't over again, and asks for those leases to be renewed. Leases that are
    /// over are spent.
    pub fn tick(&mut self, moment: Moment) -> Result<Turn, Refusal>
        ensures { ServerSteps (tick self.old moment) result self.old self.new }
    {
        let sent = self.reminders(moment)?;
        let handles = over(self.alloc, &self.leases, moment)?;
        spend_each(&mut self.leases, &handles);
        Ok(Turn { sent, said: None })
    }

    /// What is sent because of the leases that aren't over, in the order of their handles.
    fn reminders(&self, moment: Moment) -> Result<Vec<Message>, AllocError>
        ensures { IfOk result (λ sent. sent.items ≡ reminds_all self.now.me moment (fin.entries self.now.dropped.leases)) }
    {
        let mut sent = Vec::new(self.alloc);
        for (handle, lease) in self.leases.iter() {
            if !lease.is_over(moment) {
                lease.remind(self.id, handle, &mut sent)?;
            }
        }
        Ok(sent)
    }
}
