ghost use Rattle.std.specs.Prelude.{◌≡◌, ◌==◌, ◌++◌, ℕ, not, length, OnOk, replicate, find, option_map, IfOk, IfErr};
ghost use Rattle.std.specs.List.{list_all};
ghost use Rattle.gs_server_lease.specs.Leases.{granted, heard, with_told, lacks, is_acknowledged, settled, renews, is_over, waits, tell, done_of, dones, forward_of, forwards, forwards_again, reminds, supplies, opens_edit, done_at_once};

use gs_base::{Handle, Members, Moment, ReqId, ServerId, Stamp};
use gs_lease::{Grant, Held};
use gs_msg::{Body, Bytes, Chunk, Message, NodeId, Op};
use gs_replica::EditOutcome;
use indexmap::IndexMap;
use std::alloc::{AllocError, Global};
use std::marker::Model;

/// An edit that was numbered under a lease and isn't acknowledged by all members.
#[derive(Debug, Drop)]
pub struct Open {
    pub req: ReqId,
    /// The edit as it was numbered.
    pub op: Op,
    /// Its bytes, for a member that hasn't them.
    pub bytes: Bytes,
    /// What its client is told once every member has it.
    pub outcome: EditOutcome,
}

/// The greatest count that each server has told since a lease was granted.
#[derive(Clone, Copy)]
pub struct ToldCounts {
    counts: [u64; 16],
}

impl Model for ToldCounts {
    ghost use Rattle.std.specs.Prelude.{List, ℕ, length, ◌≡◌};

    ghost Value = { List ℕ };

    ghost view = { λ t. t.counts };

    ghost invariant = { λ t. length t.counts ≡ 16 };

    ghost inverse = { λ counts. record { counts = counts } };
}

impl ToldCounts {
    fn none() -> ToldCounts
        ensures { result ≡ replicate 16 0 }
    {
        ToldCounts { counts: [0; 16] }
    }

    fn hear(&mut self, server: ServerId, count: u64)
        ensures { self.new ≡ heard server count self.old }
    {
        let at = server.number() as usize;
        self.counts[at] = self.counts[at].max(count);
    }

    /// Whether a server hasn't told a count that reaches this number.
    fn lacks(&self, number: u64, server: ServerId) -> bool
        ensures { result ≡ lacks self.now number server }
    {
        self.counts[server.number() as usize] < number
    }

    /// Whether each of these servers has told a count that reaches this number.
    pub fn reach(&self, members: Members, number: u64) -> bool
        ensures { result ≡ list_all (λ server. not (lacks self.now number server)) members }
    {
        let mut left = members;
        while let Some(server) = left.pop_first() {
            if self.lacks(number, server) {
                return false;
            }
        }
        true
    }
}

/// A lease that is held, with what the members have told since the grant and the edits that wait for them.
#[derive(Drop)]
pub struct PrimaryLease {
    held: Held,
    told: ToldCounts,
    outbox: IndexMap<u64, Open>,
}

impl Model for PrimaryLease {
    ghost use Rattle.gs_server_lease.specs.Leases.{PrimaryLease, coded_lease};

    ghost Value = { PrimaryLease };

    ghost coded = { coded_lease };

    ghost view = { λ l. record { grant = l.held; told = l.told; outbox = l.outbox.entries } };
}

impl PrimaryLease {
    /// A lease as it is granted.
    pub fn granted(alloc: Global, grant: Grant) -> PrimaryLease
        ensures { result ≡ granted grant }
    {
        PrimaryLease {
            held: Held::grant(grant.stamp, grant.members, grant.end),
            told: ToldCounts::none(),
            outbox: IndexMap::new(alloc),
        }
    }

    /// The stamp of the view that it was granted for.
    pub fn stamp(&self) -> Stamp
        ensures { result ≡ self.now.grant.stamp }
    {
        self.held.granted().stamp
    }

    /// The members of that view, among which the primary is one.
    pub fn members(&self) -> Members
        ensures { result ≡ self.now.grant.members }
    {
        self.held.granted().members
    }

    /// Whether the moment is at the end of the lease, or behind it.
    pub fn is_over(&self, moment: Moment) -> bool
        ensures { result ≡ is_over moment self.now }
    {
        self.held.check(moment).is_err()
    }

    /// The lease with the greater end of the two.
    pub fn renew(self, end: Moment) -> PrimaryLease
        ensures { result ≡ renews end self }
    {
        let PrimaryLease { held, told, outbox } = self;
        PrimaryLease {
            held: held.renew(end),
            told,
            outbox,
        }
    }

    /// The lease with room for one more edit, or the lease where memory is refused.
    pub fn with_room(self) -> Result<RoomyLease, PrimaryLease>
        ensures ok { IfOk result (λ roomy. roomy ≡ self) }
        ensures err { IfErr result (λ lease. lease ≡ self) }
    {
        let PrimaryLease {
            held,
            told,
            mut outbox,
        } = self;
        match outbox.reserve(1) {
            Ok(()) => Ok(RoomyLease { held, told, outbox }),
            Err(_) => Err(PrimaryLease { held, told, outbox }),
        }
    }

    /// Whether an edit waits for members.
    pub fn is_waiting(&self) -> bool
        ensures { result ≡ not (length self.now.outbox == 0) }
    {
        !self.outbox.is_empty()
    }

    /// Whether the edit of a request waits for members.
    pub fn waits(&self, req: ReqId) -> bool
        ensures { result ≡ waits req self.now }
    {
        for (number, edit) in self.outbox.iter() {
            let _number = number;
            if req == edit.req {
                return true;
            }
        }
        false
    }

    /// The counts with that of a server, of which the greater stays.
    pub fn told_with(&self, server: ServerId, count: u64) -> ToldCounts
        ensures { result ≡ heard server count self.now.told }
    {
        let mut told = self.told;
        told.hear(server, count);
        told
    }

    /// Whether every member has the edit of this number where servers have told these counts.
    fn is_acknowledged(&self, told: ToldCounts, number: u64) -> bool
        ensures { result ≡ is_acknowledged (with_told told self.now) number }
    {
        told.reach(self.members(), number)
    }

    /// What clients are told where servers have told these counts: of each edit that waits and that every member has. It is put
    /// behind what stands in `sent`, as all that the calls below give; where memory is refused a part of it may stand there.
    pub fn dones(
        &self,
        me: ServerId,
        told: ToldCounts,
        sent: &mut Vec<Message>,
    ) -> Result<(), AllocError>
        ensures { OnOk result (sent.new.items ≡ sent.old.items ++ dones me (with_told told self.now)) }
    {
        for (number, edit) in self.outbox.iter() {
            if self.is_acknowledged(told, *number) {
                sent.push(done_of(me, edit))?;
            }
        }
        Ok(())
    }

    /// What the client of an edit is told where every member has it as it is numbered.
    pub fn done_at_once(
        &self,
        me: ServerId,
        number: u64,
        edit: &Open,
        sent: &mut Vec<Message>,
    ) -> Result<(), AllocError>
        ensures { OnOk result (sent.new.items ≡ sent.old.items ++ done_at_once me number edit.now self.now) }
    {
        if self.is_acknowledged(self.told_with(me, number), number) {
            sent.push(done_of(me, edit))?;
        }
        Ok(())
    }

    /// Takes the counts, and gives up each edit that every member has then. It takes no memory.
    pub fn settle(&mut self, told: ToldCounts)
        ensures { self.new ≡ settled (with_told told self.old) }
    {
        self.told = told;
        let members = self.members();
        self.outbox.retain(
            |number: &u64, edit: &mut Open| -> bool
                ensures { (result ≡ not (list_all (λ server. not (lacks told number.now server)) members)) × (edit.new ≡ edit.old) }
            { !told.reach(members, *number) },
        );
    }

    /// An edit goes to the other members, ascending, without its bytes.
    pub fn forwards(
        &self,
        me: ServerId,
        handle: Handle,
        number: u64,
        edit: &Open,
        sent: &mut Vec<Message>,
    ) -> Result<(), AllocError>
        ensures { OnOk result (sent.new.items ≡ sent.old.items ++ forwards me handle self.now (number, edit.now)) }
    {
        let mut left = self.members();
        while let Some(server) = left.pop_first() {
            if server != me {
                sent.push(self.forward_of(me, handle, None, number, edit, server))?;
            }
        }
        Ok(())
    }

    /// An edit goes again to the members that haven't told of it, ascending.
    fn forward_again(
        &self,
        me: ServerId,
        handle: Handle,
        number: u64,
        edit: &Open,
        sent: &mut Vec<Message>,
    ) -> Result<(), AllocError>
        ensures { OnOk result (sent.new.items ≡ sent.old.items ++ forwards_again me handle self.now (number, edit.now)) }
    {
        let mut left = self.members();
        while let Some(server) = left.pop_first() {
            if self.told.lacks(number, server) {
                sent.push(self.forward_of(me, handle, None, number, edit, server))?;
            }
        }
        Ok(())
    }

    /// At a tick: where edits wait, the lease is renewed, and each goes again, the lowest number first.
    pub fn remind(
        &self,
        me: ServerId,
        handle: Handle,
        sent: &mut Vec<Message>,
    ) -> Result<(), AllocError>
        ensures { OnOk result (sent.new.items ≡ sent.old.items ++ reminds me handle self.now) }
    {
        if self.outbox.is_empty() {
            return Ok(());
        }
        let renew = Body::About(handle, Chunk::Renew(self.stamp()));
        sent.push(tell(me, NodeId::Master, renew))?;
        for (number, edit) in self.outbox.iter() {
            self.forward_again(me, handle, *number, edit, sent)?;
        }
        Ok(())
    }

    /// A member that hasn't the bytes gets the lowest edit that it hasn't told of, with them.
    pub fn supply(
        &self,
        alloc: Global,
        me: ServerId,
        handle: Handle,
        server: ServerId,
        sent: &mut Vec<Message>,
    ) -> Result<(), AllocError>
        ensures { OnOk result (sent.new.items ≡ sent.old.items ++ supplies me handle server self.now) }
    {
        if !self.members().contains(server) {
            return Ok(());
        }
        if let Some((number, edit)) = self.lowest_lacking(server) {
            let bytes = edit.bytes.copy(alloc)?;
            sent.push(self.forward_of(me, handle, Some(bytes), number, edit, server))?;
        }
        Ok(())
    }

    /// The lowest edit that waits and that a server hasn't told of.
    fn lowest_lacking(&self, server: ServerId) -> Option<(u64, &Open)>
        ensures { option_map (λ found. (found.0, found.1.now)) result ≡ find (λ edit. lacks self.entry.now.told edit.0 server) self.entry.now.outbox }
    {
        for (number, edit) in self.outbox.iter() {
            if self.told.lacks(*number, server) {
                return Some((*number, edit));
            }
        }
        None
    }

    fn forward_of(
        &self,
        me: ServerId,
        handle: Handle,
        bytes: Option<Bytes>,
        number: u64,
        edit: &Open,
        to: ServerId,
    ) -> Message
        ensures { result ≡ forward_of me handle self.now bytes (number, edit.now) to }
    {
        let stamp = self.stamp();
        let said = Chunk::Forward {
            stamp,
            number,
            req: edit.req,
            op: edit.op,
            bytes,
        };
        tell(me, NodeId::Server(to), Body::About(handle, said))
    }
}

/// A lease whose outbox has room for one more edit.
#[derive(Drop)]
pub struct RoomyLease {
    held: Held,
    told: ToldCounts,
    outbox: IndexMap<u64, Open>,
}

impl Model for RoomyLease {
    ghost use Rattle.std.specs.Prelude.{◌<◌};
    ghost use Rattle.indexmap.specs.IndexMap.{spare};
    ghost use Rattle.gs_server_lease.specs.Leases.{PrimaryLease, coded_lease};

    ghost Value = { PrimaryLease };

    ghost coded = { coded_lease };

    ghost view = { λ l. record { grant = l.held; told = l.told; outbox = l.outbox.entries } };

    ghost invariant = { λ l. 0 < spare l.outbox };
}

impl RoomyLease {
    /// The same lease.
    pub fn into_lease(self) -> PrimaryLease
        ensures { result ≡ self }
    {
        let RoomyLease { held, told, outbox } = self;
        PrimaryLease { held, told, outbox }
    }

    /// The lease with one more edit, which the primary has. It waits for the other members, if there are any. It takes no
    /// memory.
    pub fn open(self, me: ServerId, number: u64, edit: Open) -> PrimaryLease
        ensures { result ≡ opens_edit me number edit self }
    {
        let RoomyLease {
            held,
            mut told,
            mut outbox,
        } = self;
        told.hear(me, number);
        if told.reach(held.granted().members, number) {
            return PrimaryLease { held, told, outbox };
        }
        outbox.insert(number, edit).unwrap();
        PrimaryLease { held, told, outbox }
    }
}

/// A message of the server `me`.
pub fn tell(me: ServerId, to: NodeId, body: Body) -> Message
    ensures { result ≡ tell me to body }
{
    Message {
        from: NodeId::Server(me),
        to,
        body,
    }
}

fn done_of(me: ServerId, edit: &Open) -> Message
    ensures { (number : ℕ) → result ≡ done_of me (number, edit.now) }
{
    let Open { req, outcome, .. } = edit;
    let body = Body::Done {
        req: *req,
        result: Ok(*outcome),
    };
    tell(me, NodeId::Client(req.client), body)
}
