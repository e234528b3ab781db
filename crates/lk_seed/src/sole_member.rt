//! The only member of a cluster, with its disks in memory: it is a majority, so it executes what it is asked alone.

ghost use Rattle.std.specs.Prelude.{◌≡◌, ◌++◌, List, IfOk, OnOk};
ghost use Rattle.lk_node.specs.Histories.{Datagram as DatagramValue};
ghost use Rattle.lk_messages.specs.Grammar.{Spells};
ghost use Rattle.lk_seed.specs.Histories.{AreOfRequest, Becomes, HasTaken, IsMember, IsOfGrant, IsWanted};
ghost use Rattle.lk_seed.specs.Histories.{MayReach, is_to, own_of};
ghost use Rattle.lk_seed.specs.Seedings.{AreLeftBy};
ghost use Rattle.lk_seed.specs.declared.wanted.Wanted.{Wanted as WantedValue};
ghost use Rattle.lk_store_format.specs.Values.{HeaderValue};

use bytes::BytesMut;
use lk_agreement_laws::Party;
use lk_locks::{Body, Holders, LockEntry, LockTable, Name};
use lk_memory_disk::MemoryDisk;
use lk_messages::{Content, Message};
use lk_node_interface::{Input, ReplicaFault};
use lk_program_fault::ProgramFault;
use lk_replica::{Datagram, MemoryReplica, Replica, Revived, Taken};
use lk_store_format::Header;
use lk_types::{ClientNo, NoMemory, NodeNo, Op, Request, RequestNumber};
use lk_wire::write;
use std::alloc::Global;
use std::marker::Model;

/// The client that asks. Its next request in the new cluster has a number above all of these.
pub const CLIENT: u16 = 256;

// How many ticks it is given to begin to lead: it waits at most 28.
const TICKS: u32 = 100;

// How many envelopes it may send itself for one input, and for those envelopes. It sends itself four for a request.
const MOST_LETTERS: u32 = 256;

/// The only member: its replica, the envelopes to itself that wait, and the number of the last request.
#[derive(Drop)]
pub struct SoleMember {
    alloc: Global,
    header: Header,
    replica: Replica<LockTable, MemoryDisk>,
    envelopes: Vec<Datagram>,
    asked: u64,
}

impl Model for SoleMember {
    ghost use Rattle.lk_seed.specs.MemberValue.{MemberValue};

    ghost Value = { MemberValue };

    ghost view = { λ m. record {
      header = m.header;
      replica = m.replica;
      envelopes = m.envelopes.items;
      asked = m.asked;
    } };
}

// Returns what a fault of the replica means to the program. An envelope is lost only if memory runs out.
fn program_fault(fault: &ReplicaFault) -> ProgramFault {
    match fault {
        ReplicaFault::Send(_) => ProgramFault::NoMemory,
        _ => ProgramFault::of_replica(fault),
    }
}

// Serialises a message.
fn written(alloc: Global, message: &Message) -> Result<BytesMut, ProgramFault>
    ensures { IfOk result (λ bytes. Spells message.now bytes.items) }
{
    let mut bytes = BytesMut::new(alloc);
    match write(message, &mut bytes) {
        Ok(()) => Ok(bytes),
        Err(_) => Err(ProgramFault::NoMemory),
    }
}

// Whether a datagram goes to this node.
fn is_to(node: NodeNo, to: Party) -> bool
    ensures { result ≡ is_to node to }
{
    match to {
        Party::Node(other) => other == node,
        Party::Client(_) => false,
    }
}

// Appends those of these datagrams that go to this node.
fn keep_own(
    envelopes: &mut Vec<Datagram>,
    node: NodeNo,
    sent: Vec<Datagram>,
) -> Result<(), NoMemory>
    ensures { OnOk result (envelopes.new.items ≡ envelopes.old.items ++ own_of node sent.items) }
{
    'sent: for datagram in sent {
        if is_to(node, datagram.to) {
            envelopes.push(datagram)?;
        }
    }
    Ok(())
}

impl SoleMember {
    /// Begins its store on empty disks in memory.
    #[tactic(auto, using(crate::proofs::MemberLaws::begun))]
    pub fn begin(alloc: Global, header: &Header) -> Result<SoleMember, ProgramFault>
        ensures { (wanted : List WantedValue) → IfOk result (IsMember header.now wanted) }
    {
        let disks = MemoryDisk::new(alloc);
        let begun: Result<Revived<Replica<LockTable, MemoryDisk>>, _> = MemoryReplica::revive(
            alloc, disks, header,
        );
        match begun {
            Ok(revived) => Ok(SoleMember {
                alloc,
                header: header.copy(),
                replica: revived.replica,
                envelopes: Vec::new(alloc),
                asked: 0,
            }),
            Err(refused) => Err(program_fault(&refused.fault)),
        }
    }

    // Gives it an input, and keeps the envelopes that it sends itself.
    #[tactic(auto, using(crate::proofs::MemberLaws::has_taken))]
    fn take(&mut self, input: Input) -> Result<(), ProgramFault>
        ensures takes { (header : HeaderValue) (wanted : List WantedValue) (sent : List DatagramValue)
            → self.old.header ≡ header → Becomes header wanted self.old.replica sent
            → MayReach header wanted sent input.entry
            → OnOk result (HasTaken header wanted sent self.old self.new) }
    {
        match MemoryReplica::take(&mut self.replica, input) {
            Ok(taken) => {
                let Taken { notes: _, sent } = taken;
                keep_own(&mut self.envelopes, self.header.node(), sent)?;
                Ok(())
            }
            Err(fault) => Err(program_fault(&fault)),
        }
    }

    // Delivers the first envelope that waits. Returns whether there was one.
    #[tactic(auto, using(crate::proofs::MemberLaws::has_delivered))]
    fn deliver(&mut self) -> Result<bool, ProgramFault>
        ensures keeps { (header : HeaderValue) (wanted : List WantedValue) → IsMember header wanted self.old
            → OnOk result (IsMember header wanted self.new) }
    {
        if self.envelopes.is_empty() {
            return Ok(false);
        }
        let envelope = self.envelopes.remove(0);
        self.take(Input::Datagram(lk_wire::Datagram::of(&envelope.bytes)))?;
        Ok(true)
    }

    // Delivers envelopes until none waits.
    fn settle(&mut self) -> Result<(), ProgramFault>
        ensures keeps { (header : HeaderValue) (wanted : List WantedValue) → IsMember header wanted self.old
            → OnOk result (IsMember header wanted self.new) }
    {
        'envelopes: for _ in 0..MOST_LETTERS {
            if !self.deliver()? {
                return Ok(());
            }
        }
        Ok(())
    }

    /// Lets time pass until it leads.
    pub fn lead(&mut self) -> Result<(), ProgramFault>
        ensures keeps { (header : HeaderValue) (wanted : List WantedValue) → IsMember header wanted self.old
            → OnOk result (IsMember header wanted self.new) }
    {
        'ticks: for _ in 0..TICKS {
            self.take(Input::Tick)?;
            self.settle()?;
        }
        Ok(())
    }

    // Returns the next request as a datagram.
    #[tactic(auto, using(crate::proofs::MemberLaws::of_request))]
    fn request(&mut self, body: &Body) -> Result<BytesMut, ProgramFault>
        ensures spells { (wanted : List WantedValue) → IsOfGrant wanted body.now
            → IfOk result (λ bytes. AreOfRequest self.old.header.cluster wanted bytes.items) }
        ensures same { (self.new.header ≡ self.old.header) × (self.new.replica ≡ self.old.replica)
            × (self.new.envelopes ≡ self.old.envelopes) }
    {
        let next = self.asked.saturating_add(1);
        let (Some(client), Some(number)) = (ClientNo::of(CLIENT), RequestNumber::of(next)) else {
            return Err(ProgramFault::Failed);
        };
        self.asked = next;
        let op = Op::Table(body.write());
        let message = Message {
            cluster: self.header.genesis().cluster,
            content: Content::Request(Request { client, number, op }),
        };
        written(self.alloc, &message)
    }

    // Asks it for this, and delivers envelopes until it is done.
    #[tactic(auto, using(crate::proofs::MemberLaws::has_asked))]
    fn ask(&mut self, body: &Body) -> Result<(), ProgramFault>
        ensures keeps { (header : HeaderValue) (wanted : List WantedValue) → IsOfGrant wanted body.now
            → IsMember header wanted self.old → OnOk result (IsMember header wanted self.new) }
    {
        let bytes = self.request(body)?;
        self.take(Input::Datagram(lk_wire::Datagram::of(&bytes)))?;
        self.settle()
    }

    // The entry of a name in its table.
    fn lock_entry(&self, name: &Name) -> Option<LockEntry> {
        self.replica.node().machine().lock_entry(name)
    }

    /// The last fence of a name, 0 if it was never granted.
    pub fn last_fence(&self, name: &Name) -> u64 {
        match self.lock_entry(name) {
            Some(lock_entry) => lock_entry.fence.get(),
            None => 0,
        }
    }

    /// Acquires a name and releases it. Returns whether it was granted.
    pub fn grant(&mut self, name: &Name) -> Result<bool, ProgramFault>
        ensures keeps { (header : HeaderValue) (wanted : List WantedValue) → IsWanted wanted name.now
            → IsMember header wanted self.old → OnOk result (IsMember header wanted self.new) }
    {
        self.ask(&Body::Acquire(name.copy()))?;
        let Some(LockEntry { fence, holders: _ }) = self.lock_entry(name) else {
            return Ok(false);
        };
        self.ask(&Body::Release(name.copy(), fence))?;
        Ok(true)
    }

    /// Writes all that it has executed as one Base, and returns its disks.
    #[tactic(auto, using(crate::proofs::MemberLaws::left_by))]
    pub fn into_disks(self) -> Result<MemoryDisk, ProgramFault>
        ensures left { (header : HeaderValue) (wanted : List WantedValue) → IsMember header wanted self
            → IfOk result (AreLeftBy header wanted) }
    {
        let mut replica = self.replica;
        match MemoryReplica::compact(&mut replica) {
            Ok(()) => Ok(MemoryReplica::into_disks(replica)),
            Err(fault) => Err(program_fault(&fault)),
        }
    }
}
