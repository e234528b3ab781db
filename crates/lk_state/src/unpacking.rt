//! Unpacks a state: the roster, the sessions, and the machine's text up to the last byte.

ghost use Rattle.std.specs.Prelude.{◌≡◌, ◌<◌, ◌≤◌, length, IfSome};
ghost use Rattle.lk_types.specs.Limits.{max_wide_alpha, max_client};
ghost use Rattle.lk_codec.specs.Parser.{Finds, many};
ghost use Rattle.lk_codec.specs.FieldReading.{read_members};
ghost use Rattle.lk_state.specs.Reading.{read_sets, read_roster, read_session, read_sessions, read_front};

use crate::machine::{Machine, UnpackFault};
use crate::session::{Session, Sessions};
use crate::whole::Whole;
use arrayvec::ArrayVec;
use lk_codec::{
    read_answer, read_client, read_executed, read_members, read_node, read_number, read_u8,
    read_u16,
};
use lk_members::{Roster, Window};
use lk_types::limits::{MAX_CLIENT, MAX_WIDE_ALPHA};
use std::alloc::Global;

// Reads this many sets of members, one after the other.
fn many_sets(count: u8, bytes: &[u8]) -> Option<(Window, &[u8])>
    requires { count ≤ max_wide_alpha }
    ensures read { Finds (λ x. (x.0, x.1.now)) result (many read_members count bytes.now) }
    ensures count { IfSome result (λ x. length x.0 ≡ count) }
{
    let mut window = Window::new();
    let mut rest = bytes;
    for _ in 0..count {
        let Some((set, after)) = read_members(rest) else {
            return None;
        };
        window.push(set);
        rest = after;
    }
    Some((window, rest))
}

// Reads how many sets there are, 1 to 64, and then each.
#[tactic(auto, unfolding(crate::specs::Reading::read_sets))]
fn read_window(bytes: &[u8]) -> Option<(Window, &[u8])>
    ensures read { Finds (λ x. (x.0, x.1.now)) result (read_sets bytes.now) }
    ensures some { IfSome result (λ x. 0 < length x.0) }
{
    let (count, rest) = read_u8(bytes)?;
    if count < 1 || count > MAX_WIDE_ALPHA {
        return None;
    }
    many_sets(count, rest)
}

// Reads a roster, or returns `None` if a part is invalid or a set names a node above the greatest one.
#[tactic(auto, unfolding(crate::specs::Reading::read_roster))]
fn read_roster(bytes: &[u8]) -> Option<(Roster, &[u8])>
    ensures { Finds (λ x. (x.0, x.1.now)) result (read_roster bytes.now) }
{
    let Some((executed, rest)) = read_executed(bytes) else {
        return None;
    };
    let Some((window, rest)) = read_window(rest) else {
        return None;
    };
    let Some((greatest, rest)) = read_node(rest) else {
        return None;
    };
    let Some((changed, rest)) = read_executed(rest) else {
        return None;
    };
    let Some(roster) = Roster::of(executed, window, greatest, changed) else {
        return None;
    };
    Some((roster, rest))
}

// Reads a client, a number and an answer.
#[tactic(auto, unfolding(crate::specs::Reading::read_session))]
fn read_session(bytes: &[u8]) -> Option<(Session, &[u8])>
    ensures { Finds (λ x. (x.0, x.1.now)) result (read_session bytes.now) }
{
    let Some((client, rest)) = read_client(bytes) else {
        return None;
    };
    let Some((number, rest)) = read_number(rest) else {
        return None;
    };
    let Some((answer, rest)) = read_answer(rest) else {
        return None;
    };
    let session = Session {
        client,
        number,
        answer,
    };
    Some((session, rest))
}

// Reads this many sessions, one after the other, in any order.
fn many_sessions(count: u16, bytes: &[u8]) -> Option<(ArrayVec<Session, 256>, &[u8])>
    requires { count ≤ max_client }
    ensures { Finds (λ x. (x.0.items, x.1.now)) result (many read_session count bytes.now) }
{
    let mut sessions = ArrayVec::new();
    let mut rest = bytes;
    for _ in 0..count {
        let Some((session, after)) = read_session(rest) else {
            return None;
        };
        sessions.push(session);
        rest = after;
    }
    Some((sessions, rest))
}

// Reads how many sessions there are, at most 256, and then each, rising by client.
#[tactic(auto, unfolding(crate::specs::Reading::read_sessions))]
fn read_sessions(bytes: &[u8]) -> Option<(Sessions, &[u8])>
    ensures { Finds (λ x. (x.0, x.1.now)) result (read_sessions bytes.now) }
{
    let (count, rest) = read_u16(bytes)?;
    if count > MAX_CLIENT {
        return None;
    }
    let Some((list, rest)) = many_sessions(count, rest) else {
        return None;
    };
    let Some(sessions) = Sessions::of(list) else {
        return None;
    };
    Some((sessions, rest))
}

// Reads the roster and the sessions, and returns the bytes after them, which are the machine's text.
#[tactic(auto, unfolding(crate::specs::Reading::read_front))]
fn read_front(bytes: &[u8]) -> Option<(Roster, Sessions, &[u8])>
    ensures { Finds (λ x. ((x.0, x.1), x.2.now)) result (read_front bytes.now) }
{
    let Some((roster, rest)) = read_roster(bytes) else {
        return None;
    };
    let Some((sessions, rest)) = read_sessions(rest) else {
        return None;
    };
    Some((roster, sessions, rest))
}

impl<M: Machine> Whole<M> {
    ghost use Rattle.std.specs.Prelude.{◌≡◌, ◌⊎◌, Ok, Err, IfOk};
    ghost use Rattle.lk_state.specs.States.{WholeValue};
    ghost use Rattle.lk_state.specs.Packed.{Packs};

    /// Returns the state whose packed text the bytes are. `NotPacked`: they are not the text of any state. `NoMemory`
    /// may be returned for any bytes.
    pub fn unpack(alloc: Global, bytes: &[u8]) -> Result<Whole<M>, UnpackFault>
        ensures ok { IfOk result (λ w. Packs M.IsText w bytes.now) }
        ensures only { (w : WholeValue) → Packs M.IsText w bytes.now
            → (result ≡ Ok w) ⊎ (result ≡ Err UnpackFault.NoMemory) }
        ensures not_packed { result ≡ Err UnpackFault.NotPacked → (w : WholeValue) → Packs M.IsText w bytes.now → ⊥ }
    {
        let Some((roster, sessions, rest)) = read_front(bytes) else {
            return Err(UnpackFault::NotPacked);
        };
        roster.facts();
        let _ = sessions.as_slice();
        let machine = M::unpack(alloc, rest)?;
        Ok(Whole {
            alloc,
            roster,
            sessions,
            machine,
        })
    }
}
