ghost use Rattle.std.specs.Prelude.{◌≡◌, ◌≤◌, ◌∷◌, ◌++◌, List, ℕ, length, Some, IfSome};
ghost use Rattle.lk_codec.specs.Parser.{Finds};
ghost use Rattle.lk_locks.specs.declared.body.Body.{Body};
ghost use Rattle.lk_locks.specs.Bodies.{SpellsBody, lock_name, spelling, read_name, read_name_and_fence, fields_of};
ghost use Rattle.lk_locks.specs.Bodies.{body_of, name_of, is_known};

use crate::name::Name;
use arrayvec::ArrayVec;
use lk_codec::{read_fence, read_u8};
use lk_types::{Fence, Payload};

/// What a client asks of the table.
#[derive(Drop)]
pub enum Body {
    /// To hold the name.
    Acquire(Name),
    /// To give up the name, if the client holds it at this fence; other sharers keep it.
    Release(Name, Fence),
    /// Who holds the name.
    Ask(Name),
    /// Whether the name is held at this fence.
    Check(Name, Fence),
    /// To hold the name together with others.
    Share(Name),
    /// To free the name from all who hold it at this fence, whoever asks.
    Break(Name, Fence),
}

/// Reads the length of a name in a byte, and then the name; returns it and the bytes after it.
#[tactic(auto, unfolding(crate::specs::Bodies::read_name))]
pub fn read_name(bytes: &[u8]) -> Option<(Name, &[u8])>
    ensures { Finds (λ x. (x.0, x.1.now)) result (read_name bytes.now) }
{
    let (length, rest) = read_u8(bytes)?;
    let length = length as usize;
    if rest.len() < length {
        return None;
    }
    let (name, rest) = rest.split_at(length);
    Some((Name::of(name)?, rest))
}

// Reads what follows the first byte of a body, its kind from 1 to 6: a name, and for some kinds a fence.
#[tactic(auto, unfolding(crate::specs::Bodies::fields_of, crate::specs::Bodies::read_name_and_fence))]
fn read_fields(kind: u8, bytes: &[u8]) -> Option<(Body, &[u8])>
    ensures { Finds (λ x. (x.0, x.1.now)) result (fields_of kind bytes.now) }
{
    let Some((name, rest)) = read_name(bytes) else {
        return None;
    };
    match kind {
        1 => Some((Body::Acquire(name), rest)),
        2 => {
            let Some((fence, rest)) = read_fence(rest) else {
                return None;
            };
            Some((Body::Release(name, fence), rest))
        }
        3 => Some((Body::Ask(name), rest)),
        4 => {
            let Some((fence, rest)) = read_fence(rest) else {
                return None;
            };
            Some((Body::Check(name, fence), rest))
        }
        5 => Some((Body::Share(name), rest)),
        6 => {
            let Some((fence, rest)) = read_fence(rest) else {
                return None;
            };
            Some((Body::Break(name, fence), rest))
        }
        _ => None,
    }
}

// Reads a body, or returns `None` if the bytes are invalid or longer than it.
#[tactic(auto, unfolding(crate::specs::Bodies::body_of))]
fn read_whole(bytes: &[u8]) -> Option<Body>
    ensures { result ≡ body_of bytes.now }
{
    let (kind, rest) = read_u8(bytes)?;
    match read_fields(kind, rest) {
        Some((body, [])) => Some(body),
        _ => None,
    }
}

// Returns the bytes of a body: its kind, its name after its length, and `rest`, which is a fence or nothing.
fn encode(kind: u8, name: &Name, rest: &[u8]) -> Payload
    requires { length rest.now ≤ 8 }
    ensures { result ≡ kind ∷ (lock_name name.now ++ rest.now) }
{
    let name = name.as_slice();
    let mut bytes = ArrayVec::<u8, 64>::new();
    bytes.push(kind);
    bytes.push(name.len() as u8);
    bytes.try_extend_from_slice(name).unwrap();
    bytes.try_extend_from_slice(rest).unwrap();
    Payload::of(bytes.as_slice()).unwrap()
}

impl Body {
    /// Returns the body of the bytes, or `None` if they are invalid: a kind from 1 to 6, the name after its length, and
    /// for Release, Check and Break the fence in eight bytes, big-endian.
    pub fn read(bytes: &[u8]) -> Option<Body>
        ensures value { result ≡ body_of bytes.now }
        ensures found { IfSome result (λ body. SpellsBody body bytes.now) }
        ensures only { (body : Body) → SpellsBody body bytes.now → result ≡ Some body }
    {
        read_whole(bytes)
    }

    /// The bytes of the body: 3 to 42. Takes no memory.
    #[tactic(auto, unfolding(lk_codec::specs::Fields::eight))]
    pub fn write(&self) -> Payload
        ensures value { result ≡ spelling self.now }
    {
        match self {
            Body::Acquire(name) => encode(1, name, &[]),
            Body::Release(name, fence) => encode(2, name, &fence.get().to_be_bytes()),
            Body::Ask(name) => encode(3, name, &[]),
            Body::Check(name, fence) => encode(4, name, &fence.get().to_be_bytes()),
            Body::Share(name) => encode(5, name, &[]),
            Body::Break(name, fence) => encode(6, name, &fence.get().to_be_bytes()),
        }
    }

    /// Its name.
    pub fn name(&self) -> &Name
        ensures { result.now ≡ name_of self.now }
    {
        match self {
            Body::Acquire(name)
            | Body::Release(name, _)
            | Body::Ask(name)
            | Body::Check(name, _)
            | Body::Share(name)
            | Body::Break(name, _) => name,
        }
    }

    // Returns whether a table knows the body: Share and Break only if it was raised.
    pub(crate) fn is_known(&self, raised: bool) -> bool
        ensures { result ≡ is_known raised self.now }
    {
        match self {
            Body::Share(_) | Body::Break(_, _) => raised,
            _ => true,
        }
    }
}
