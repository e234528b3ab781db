// Draws the requests of clients.
ghost use Rattle.std.specs.Prelude.{◌≤◌, ◌<◌};
ghost use Rattle.lk_random_schedules.specs.Drawn.{IsNext};

use crate::draws::Draws;
use lk_locks::{Body, Name};
use lk_types::limits::MAX_PAYLOAD;
use lk_types::{ClientNo, Fence, NodeNo, Op, Payload, Port, Request, RequestNumber};

// Draws one of the names `a` to `d`, so that clients compete for them.
fn name(draws: &mut Draws) -> Name {
    let letter = b'a' + draws.below(4) as u8;
    Name::of(&[letter]).unwrap()
}

// Returns the body of one of sixteen cases; how many cases a kind has is its weight.
fn body_of(case: usize, name: Name, fence: Fence) -> Body {
    match case {
        0..=5 => Body::Acquire(name),
        6..=8 => Body::Release(name, fence),
        9 => Body::Ask(name),
        10 => Body::Check(name, fence),
        11..=12 => Body::Share(name),
        _ => Body::Break(name, fence),
    }
}

// Draws a body that the table parses, with one of the fences 1 to `fences`.
fn body(draws: &mut Draws, fences: usize) -> Payload
    requires { (0 < fences) × (fences ≤ 65536) }
{
    let name = name(draws);
    let fence = Fence::of(1 + draws.below(fences) as u64).unwrap();
    let case = draws.below(16);
    body_of(case, name, fence).write()
}

// Draws a body of 1 to `MAX_PAYLOAD` random bytes, which the table seldom parses.
fn any_body(draws: &mut Draws) -> Payload {
    let mut bytes = [0; MAX_PAYLOAD];
    for i in 0..bytes.len() {
        bytes[i] = draws.byte();
    }
    let length = 1 + draws.below(MAX_PAYLOAD);
    Payload::of(&bytes[..length]).unwrap()
}

// Draws an operation: mostly a body that the table parses; else random bytes, a raise, or a join or leave of nodes 1 to
// 5.
fn op(draws: &mut Draws, fences: usize) -> Op
    requires { (0 < fences) × (fences ≤ 65536) }
{
    let node = 1 + draws.below(5) as u32;
    match draws.below(128) {
        0 => Op::Join(
            NodeNo::of(node).unwrap(),
            Port::of(7000 + node as u16).unwrap(),
        ),
        1 => Op::Leave(NodeNo::of(node).unwrap()),
        2..=4 => Op::Raise,
        5..=8 => Op::Table(any_body(draws)),
        _ => Op::Table(body(draws, fences)),
    }
}

/// Draws a request of one of the clients 1 to 4, with a number from `about + 1` to `about + 8`, so that some numbers
/// repeat or fall below an earlier one of the client.
pub fn request(draws: &mut Draws, about: u16) -> Request
    ensures { IsNext about result }
{
    let client = ClientNo::of(1 + draws.below(4) as u16).unwrap();
    let number = RequestNumber::of(u64::from(about) + 1 + draws.below(8) as u64).unwrap();
    let op = op(draws, 2 + about as usize / 128);
    Request { client, number, op }
}
