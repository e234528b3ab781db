ghost use Rattle.std.specs.Prelude.{◌≡◌, ◌≤◌, ◌==◌, ◌↔◌, nat_lt, [], length, slice_get, IsTrue, IsSome, IfSome};
ghost use Rattle.std.specs.List.{prefix_len, AllByRecursion};
ghost use Rattle.lk_types.specs.Limits.{max_client};
ghost use Rattle.lk_state.specs.Sessions.{session_of, if_of_client, is_at, with_session, are_sessions_above};
ghost use Rattle.lk_state.specs.Sessions.{AreSessions};
ghost use Rattle.lk_state.specs.Sessions.{IsSession};

use arrayvec::ArrayVec;
use lk_types::{Answer, ClientNo, Request, RequestNumber};
use std::marker::Model;

/// A client's last request that took effect, and its answer.
#[derive(Clone, Copy)]
pub struct Session {
    pub client: ClientNo,
    pub number: RequestNumber,
    pub answer: Answer,
}

impl Session {
    /// Returns the session of a request that took effect with this answer.
    pub fn of(request: &Request, answer: Answer) -> Session
        ensures { result ≡ record { client = request.now.client; number = request.now.number; answer = answer } }
    {
        Session {
            client: request.client,
            number: request.number,
            answer,
        }
    }

    /// Shows the prover that each part is in its range. Does nothing at run time.
    pub fn facts(self)
        ensures { IsSession self }
    {}
}

impl Default for Session {
    ghost is_default = { λ s. s.client ≡ 1 };

    /// A session of the least client.
    fn default() -> Self {
        Session {
            client: ClientNo::default(),
            number: RequestNumber::default(),
            answer: Answer::Bad,
        }
    }
}

// The sessions, rising by client: at most 256, since there are no more clients. No call takes memory.
#[derive(Drop)]
pub(crate) struct Sessions {
    list: ArrayVec<Session, 256>,
}

impl Model for Sessions {
    ghost use Rattle.std.specs.Prelude.{List};
    ghost use Rattle.lk_state.specs.Sessions.{Session, AreSessions};

    ghost Value = { List Session };

    ghost view = { λ s. s.list.items };

    ghost invariant = { λ s. AreSessions s.list.items };
}

impl Sessions {
    // No session.
    pub(crate) fn new() -> Sessions
        ensures { result ≡ [] }
    {
        Sessions {
            list: ArrayVec::new(),
        }
    }

    // The sessions of this list, or `None` if they do not rise by client.
    pub(crate) fn of(list: ArrayVec<Session, 256>) -> Option<Sessions>
        ensures some { IsSome result ↔ IsTrue (are_sessions_above 0 list.items) }
        ensures value { IfSome result (λ s. s ≡ list.items) }
    {
        facts_of(list.as_slice());
        if !are_rising(list.as_slice()) {
            return None;
        }
        Some(Sessions { list })
    }

    // The sessions, rising by client.
    pub(crate) fn as_slice(&self) -> &[Session]
        ensures value { result.now ≡ self.now }
        ensures fits { AreSessions self.now }
        ensures few { length self.now ≤ max_client }
    {
        self.list.as_slice()
    }

    // Returns the client's session, or `None` if it has none.
    pub(crate) fn get(&self, client: ClientNo) -> Option<Session>
        ensures { result ≡ session_of client self.now }
    {
        let sessions = self.list.as_slice();
        session_at(sessions, index_of(sessions, client), client)
    }

    // Inserts the session, in place of the one of the same client if there is one.
    pub(crate) fn put(&mut self, session: &Session)
        ensures { self.new ≡ with_session session.now self.old }
    {
        session.facts();
        let at = index_of(self.list.as_slice(), session.client);
        if is_session_at(self.list.as_slice(), at, session.client) {
            self.list[at] = *session;
        } else {
            self.list.insert(at, *session);
        }
    }
}

// Shows the prover that each part of the sessions is in its range. Does nothing at run time.
fn facts_of(sessions: &[Session])
    ensures { AllByRecursion IsSession sessions.now }
{
    for session in sessions {
        session.facts();
    }
}

// Returns whether each client is above the one before.
fn are_rising(sessions: &[Session]) -> bool
    ensures { result ≡ are_sessions_above 0 sessions.now }
{
    let mut low = 0;
    for session in sessions {
        let client = session.client.get();
        if client <= low {
            return false;
        }
        low = client;
    }
    true
}

// Returns the index at which the client's session is, or would be inserted: how many clients are smaller.
fn index_of(sessions: &[Session], client: ClientNo) -> usize
    requires { IsTrue (are_sessions_above 0 sessions.now) }
    ensures index { result ≡ prefix_len (λ s. nat_lt s.client client) sessions.now }
    ensures within { result ≤ length sessions.now }
{
    sessions.partition_point(|session| session.client < client)
}

// Returns the session at this index if there is one and it is the client's.
fn session_at(sessions: &[Session], index: usize, client: ClientNo) -> Option<Session>
    ensures { result ≡ if_of_client client (slice_get sessions.now index) }
{
    match sessions.get(index) {
        Some(session) => (session.client == client).then_some(*session),
        None => None,
    }
}

// Returns whether there is a session at this index and it is the client's.
fn is_session_at(sessions: &[Session], index: usize, client: ClientNo) -> bool
    ensures { result ≡ is_at client (slice_get sessions.now index) }
{
    match sessions.get(index) {
        Some(session) => session.client == client,
        None => false,
    }
}
