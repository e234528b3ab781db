ghost use Rattle.std.specs.Prelude.{◌≡◌, ◌↔◌, Option, Some, None, List, [], OnOk, OnErr, MatchOption, ◌<◌, length};
ghost use Rattle.std.specs.Prelude.{slice_get, IsTrue};
ghost use Rattle.lk_leader.specs.Terms.{RequestValue};
ghost use Rattle.lk_members.specs.Effects.{Request as RequestCommand};
ghost use Rattle.lk_leader.specs.Values.{IsFirstNew, NoneIsNew, IsUnderWay};
ghost use Rattle.lk_leader.specs.Waits.{asked, waiting_of, number_up_to, left_by};

use crate::proposal::Proposal;
use indexmap::IndexMap;
use lk_types::{ClientNo, Command, Executed, NoMemory, Op, Request, RequestNumber};
use std::alloc::Global;
use std::marker::Model;

// A waiting request without its client, which is its key.
#[derive(Drop)]
pub(crate) struct Asked {
    number: RequestNumber,
    op: Op,
}

impl Asked {
    // Returns the full request of this client.
    fn request_of(&self, client: ClientNo) -> Request
        ensures { result ≡ record { client = client; number = self.now.number; op = self.now.op } }
    {
        Request {
            client,
            number: self.number,
            op: self.op.copy(),
        }
    }

    // Whether the proposal is of this request of the client, at a position that is not executed yet.
    fn is_proposed_by(&self, client: ClientNo, proposal: &Proposal, executed: Executed) -> bool
        ensures { IsTrue result ↔ ((executed < proposal.now.position)
            × (proposal.now.command
            ≡ RequestCommand (record { client = client; number = self.now.number; op = self.now.op }))) }
    {
        match &proposal.command {
            Command::Request(own) => own.client == client
                && executed.get() < proposal.position.get()
                && own.number == self.number
                && own.op == self.op,
            Command::Noop => false,
        }
    }

    // Returns the index of a proposal of this request of the client, at a position that is not executed yet, if there
    // is one: `near` if it is there, else the first.
    fn place_among(
        &self,
        client: ClientNo,
        proposals: &[Proposal],
        executed: Executed,
        near: usize,
    ) -> Option<usize>
        ensures { MatchOption result
            (IsUnderWay executed proposals.now
            (RequestCommand (record { client = client; number = self.now.number; op = self.now.op })) → ⊥)
            (λ k. (k < length proposals.now) × IsUnderWay executed proposals.now
            (RequestCommand (record { client = client; number = self.now.number; op = self.now.op }))) }
    {
        if near < proposals.len() && self.is_proposed_by(client, &proposals[near], executed) {
            return Some(near);
        }
        for (index, proposal) in proposals.iter().enumerate() {
            if self.is_proposed_by(client, proposal, executed) {
                return Some(index);
            }
        }
        None
    }
}

// The requests that wait to be proposed, in order of arrival, at most one of each client.
#[derive(Drop)]
pub(crate) struct Waiting {
    requests: IndexMap<ClientNo, Asked>,
}

impl Model for Waiting {
    ghost use Rattle.std.specs.Prelude.{List, map};
    ghost use Rattle.lk_leader.specs.Waits.{RequestValue};

    ghost Value = { List RequestValue };

    ghost view = { λ w. map (λ e. record { client = e.0; number = e.1.number; op = e.1.op }) w.requests.entries };
}

impl Waiting {
    // Creates an empty queue. Takes no memory.
    pub(crate) fn new(alloc: Global) -> Waiting
        ensures { result ≡ [] }
    {
        Waiting {
            requests: IndexMap::new(alloc),
        }
    }

    // Appends a request. If one of that client waits already, the new one takes its place if its number is greater, and
    // is dropped otherwise. A failed call changes nothing.
    pub(crate) fn add(
        &mut self,
        client: ClientNo,
        number: RequestNumber,
        op: &Op,
    ) -> Result<(), NoMemory>
        ensures ok { OnOk result
            (self.new ≡ asked (record { client = client; number = number; op = op.now }) self.old) }
        ensures err { OnErr result (self.new ≡ self.old) }
        ensures memory { OnErr result (waiting_of client self.old ≡ None) }
    {
        if let Some(waits) = self.requests.get(&client) {
            if waits.number >= number {
                return Ok(());
            }
        }
        let op = op.copy();
        self.requests.insert(client, Asked { number, op })?;
        Ok(())
    }

    // Removes the client's waiting request if its number is at most this one, and returns its number; `None` otherwise.
    pub(crate) fn ran(&mut self, client: ClientNo, number: RequestNumber) -> Option<RequestNumber>
        ensures told { result ≡ number_up_to number (waiting_of client self.old) }
        ensures left { self.new ≡ left_by client number self.old }
    {
        let waits = self.requests.get(&client)?.number;
        if waits > number {
            return None;
        }
        self.requests.shift_remove(&client);
        Some(waits)
    }

    // The request at this index, in order of arrival.
    fn request_at(&self, index: usize) -> Request
        requires { index < length self.now }
        ensures { slice_get self.now index ≡ Some result }
    {
        let (client, asked) = self.requests.get_index(index).unwrap();
        asked.request_of(*client)
    }

    // Returns the index of a proposal by which the request at this index is under way, if it is: `near` if that is one.
    fn place_of(
        &self,
        index: usize,
        proposals: &[Proposal],
        executed: Executed,
        near: usize,
    ) -> Option<usize>
        requires { index < length self.now }
        ensures { MatchOption result
            ((q : RequestValue) → slice_get self.now index ≡ Some q
            → IsUnderWay executed proposals.now (RequestCommand q) → ⊥)
            (λ k. (k < length proposals.now) × ((q : RequestValue) → slice_get self.now index ≡ Some q
            → IsUnderWay executed proposals.now (RequestCommand q))) }
    {
        let (client, asked) = self.requests.get_index(index).unwrap();
        asked.place_among(*client, proposals, executed, near)
    }

    // How many requests wait.
    pub(crate) fn len(&self) -> usize
        ensures { result ≡ length self.now }
    {
        self.requests.len()
    }

    // Returns the first request that is not under way: not proposed at a position that is still to be executed.
    pub(crate) fn first_new(&self, proposals: &[Proposal], executed: Executed) -> Option<Request>
        ensures { MatchOption result (NoneIsNew executed proposals.now self.now)
            (λ q. IsFirstNew executed proposals.now self.now q) }
    {
        // Requests are proposed in the order in which they wait, as a rule.
        let mut near = 0;
        for index in 0..self.len() {
            let Some(place) = self.place_of(index, proposals, executed, near) else {
                return Some(self.request_at(index));
            };
            near = place + 1;
        }
        None
    }

    // Removes all requests.
    pub(crate) fn clear(&mut self)
        ensures { self.new ≡ [] }
    {
        self.requests.clear();
    }
}
