ghost use Rattle.std.specs.Prelude.{◌≡◌, ◌<◌, ◌≤◌, ◌↔◌, ◌==◌, nat_lt, [], ◌∷◌, length, true, false, IsTrue, IsSome};
ghost use Rattle.std.specs.Prelude.{IfSome};
ghost use Rattle.std.specs.List.{prefix_len, AllByRecursion};
ghost use Rattle.lk_types.specs.Limits.{max_sharers};
ghost use Rattle.lk_types.specs.Ranges.{IsClient};
ghost use Rattle.lk_locks.specs.Sharers.{AreSharers, are_clients_above, is_among, with_client, without, least};

use arrayvec::ArrayVec;
use lk_types::limits::MAX_SHARERS;
use lk_types::{ClientNo, SharerCount};
use std::marker::Model;

/// The clients that share a name: 1 to 8, rising. No call takes memory.
#[derive(Clone, PartialEq, Eq, Drop)]
pub struct Sharers {
    clients: ArrayVec<ClientNo, 8>,
}

impl Model for Sharers {
    ghost use Rattle.std.specs.Prelude.{ℕ, List};
    ghost use Rattle.lk_locks.specs.Sharers.{AreSharers};

    ghost Value = { List ℕ };

    ghost view = { λ s. s.clients.items };

    ghost invariant = { λ s. AreSharers s.clients.items };

    ghost inverse = { λ cs. record { clients = record { items = cs } } };
}

// Shows the prover that each client is in its range. Does nothing at run time.
fn facts_of(clients: &[ClientNo])
    ensures { AllByRecursion IsClient clients.now }
{
    for client in clients {
        let _ = client.get();
    }
}

// Returns whether each client is above the one before.
fn are_rising(clients: &[ClientNo]) -> bool
    ensures { result ≡ are_clients_above 0 clients.now }
{
    let mut low = 0;
    for client in clients {
        let number = client.get();
        if number <= low {
            return false;
        }
        low = number;
    }
    true
}

// Returns the index at which the client is, or would be inserted: how many clients are smaller.
fn index_of(clients: &[ClientNo], client: ClientNo) -> usize
    requires { IsTrue (are_clients_above 0 clients.now) }
    ensures index { result ≡ prefix_len (λ c. nat_lt c client) clients.now }
    ensures within { result ≤ length clients.now }
{
    clients.partition_point(|other| *other < client)
}

impl Sharers {
    /// The set, or `None` if the clients do not rise strictly.
    pub fn of(clients: ArrayVec<ClientNo, 8>) -> Option<Sharers>
        requires { 1 ≤ length clients.items }
        ensures some { IsSome result ↔ IsTrue (are_clients_above 0 clients.items) }
        ensures value { IfSome result (λ s. s ≡ clients.items) }
    {
        facts_of(clients.as_slice());
        if !are_rising(clients.as_slice()) {
            return None;
        }
        Some(Sharers { clients })
    }

    /// Returns the set of this client alone.
    pub fn one(client: ClientNo) -> Sharers
        ensures { result ≡ client ∷ [] }
    {
        let _ = client.get();
        let mut clients = ArrayVec::new();
        clients.push(client);
        Sharers { clients }
    }

    /// The clients, rising.
    pub fn as_slice(&self) -> &[ClientNo]
        ensures value { result.now ≡ self.now }
        ensures fits { AreSharers self.now }
    {
        self.clients.as_slice()
    }

    /// The same set.
    pub fn copy(&self) -> Sharers
        ensures { result ≡ self.now }
    {
        Sharers {
            clients: self.clients.clone().unwrap(),
        }
    }

    /// How many they are.
    pub fn count(&self) -> SharerCount
        ensures { result ≡ length self.now }
    {
        SharerCount::of(self.as_slice().len() as u8).unwrap()
    }

    /// Returns the client with the lowest number.
    pub fn least(&self) -> ClientNo
        ensures { result ≡ least self.now }
    {
        self.as_slice()[0]
    }

    /// Whether the client is one of them.
    pub fn has(&self, client: ClientNo) -> bool
        ensures { result ≡ is_among client self.now }
    {
        self.as_slice().iter().any(|other| *other == client)
    }

    /// Whether there are eight.
    pub fn is_full(&self) -> bool
        ensures { result ≡ true ↔ (length self.now ≡ max_sharers) }
    {
        self.as_slice().len() >= MAX_SHARERS as usize
    }

    /// Returns the set with one more client, which has to be new; there have to be fewer than eight.
    pub fn with(&self, client: ClientNo) -> Sharers
        requires new { is_among client self.now ≡ false }
        requires room { length self.now < max_sharers }
        ensures { result ≡ with_client client self.now }
    {
        let _ = client.get();
        let mut clients: ArrayVec<ClientNo, 8> = ArrayVec::try_from(self.as_slice()).unwrap();
        let at = index_of(self.as_slice(), client);
        clients.insert(at, client);
        Sharers { clients }
    }

    /// The set without this client, or `None` if nobody is left.
    pub fn without(&self, client: ClientNo) -> Option<Sharers>
        ensures some { IsSome result ↔ (without client self.now ≡ [] → ⊥) }
        ensures value { IfSome result (λ s. s ≡ without client self.now) }
    {
        let mut left: ArrayVec<ClientNo, 8> = ArrayVec::new();
        for other in self.as_slice() {
            if *other != client {
                left.push(*other);
            }
        }
        if left.is_empty() {
            return None;
        }
        Sharers::of(left)
    }
}
