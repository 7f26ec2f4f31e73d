ghost use Rattle.std.specs.Prelude.{◌≡◌, IfOk};
ghost use Rattle.gs_base.specs.declared.epoch.EpochEnd.TheVariants.{Rollback};
ghost use Rattle.gs_store.specs.Stores.{Performs, named};
ghost use Rattle.gs_server.specs.Servers.{ServerSteps, learn, named_at, store_of};
ghost use Rattle.gs_server.specs.inner.Learning.{gone_on};

use crate::sending::Sending;
use crate::server::Server;
use crate::turn::Turn;
use gs_base::{EpochEnd, Handle, Refusal};
use gs_base_table::Table;
use gs_msg::{Body, Items, NodeId};
use gs_server_lease::tell;

impl Server {
    /// Goes on to the next epoch after a rollback, which spends every lease, and gives the handles that are named of it.
    fn roll_back(&mut self, epoch: u64) -> Result<Vec<Handle>, Refusal>
        ensures edit { Performs (gone_on epoch Rollback self.old) result self.old self.new }
        ensures named { IfOk result (λ handles. handles.items ≡ named epoch (store_of self.new)) }
    {
        let stands = self.store.epoch();
        let handles = self.store.roll_back(epoch)?;
        if epoch != stands {
            self.leases = Table::new(self.alloc);
        }
        Ok(handles)
    }

    /// Goes on to the next epoch, and gives the handles that are named of it.
    fn go_on(&mut self, epoch: u64, end: EpochEnd) -> Result<Vec<Handle>, Refusal>
        ensures edit { Performs (gone_on epoch end self.old) result self.old self.new }
        ensures named { IfOk result (λ handles. handles.items ≡ named_at end epoch (store_of self.new)) }
    {
        if let EpochEnd::Rollback = end {
            return self.roll_back(epoch);
        }
        self.store.learn(epoch, end)?;
        Ok(Vec::new(self.alloc))
    }

    /// Learns how an epoch ended, and tells the master so. Of the epoch that stands it is told again; of any but the next it is
    /// told which one stands.
    pub(crate) fn learn(&mut self, epoch: u64, end: EpochEnd) -> Result<Turn, Refusal>
        ensures { ServerSteps (learn self.old epoch end) result self.old self.new }
    {
        let mut sent = Sending::with_room(self.alloc, 1)?;
        let (body, said) = match self.go_on(epoch, end) {
            Ok(handles) => {
                let handles = Items::new(handles);
                (Body::Learned { epoch, handles }, None)
            }
            Err(Refusal::Memory) => return Err(Refusal::Memory),
            Err(refusal) => {
                let stands = self.store.epoch();
                (Body::Behind { epoch: stands }, Some(refusal))
            }
        };
        sent.put(tell(self.id, NodeId::Master, body));
        Ok(Turn {
            sent: sent.into_messages(),
            said,
        })
    }
}
