//! Waits for a lock: asks for it, and while another client holds it sends watches, so that nodes tell when it is free.

ghost use Rattle.std.specs.Prelude.{◌≡◌, ◌≤◌, ◌⊎◌, ℕ, true, false, IfOk, IfErr};
ghost use Rattle.lk_client.specs.Waits.{AsksFor, EndsWait, IsTryOrWatch, SendsAll};
ghost use Rattle.lk_client.specs.Waiters.{StaysAt};

use crate::destination::Place;
use crate::question::{Question, write_reply};
use crate::waiter::Waiter;
use crate::wanted::Wanted;
use lk_program_fault::ProgramFault;
use lk_transport::socket::DatagramSocket;
use std::alloc::Global;
use std::io::Write;
use std::time::Clock;

/// What a client waits for, and how many seconds.
#[derive(Drop)]
pub struct Wait {
    pub wanted: Wanted,
    pub seconds: u32,
}

// Waits for the lock, and prints the reply, and to standard error the number of the last request. Returns whether there
// is a reply.
//
// It fails if it is out of memory, or if the output cannot be written.
#[tactic(auto, using(crate::proofs::Lasting::ends_wait))]
fn wait_and_write<S: DatagramSocket, C: Clock, W: Write, E: Write>(
    alloc: Global,
    socket: &mut S,
    clock: &C,
    waiter: &mut Waiter,
    question: &mut Question,
    out: &mut W,
    err: &mut E,
) -> Result<bool, ProgramFault>
    requires { StaysAt question.old false waiter.old }
    ensures sends { S.is_observable → SendsAll (IsTryOrWatch question.old question.new.request.number)
        (S.sent socket.old) (S.sent socket.new) }
    ensures waits { S.is_observable → IfOk result (λ is_told. EndsWait S.sent S.incoming question.old
        question.new.request.number is_told socket.old socket.new) }
    ensures only { IfErr result (λ f. (f ≡ ProgramFault.NoMemory) ⊎ (f ≡ ProgramFault.Write)) }
{
    let reply = waiter.wait(alloc, socket, clock, question)?;
    let _ = writeln!(err, "last request {}", question.request.number.get());
    match (write_reply(reply, out), out.flush()) {
        (Ok(is_told), Ok(())) => Ok(is_told),
        _ => Err(ProgramFault::Write),
    }
}

/// Waits for the lock that the question asks for: asks these places in turn, and sends its watches to the first
/// `nodes` of them. Prints the reply to the last request, and to standard error its number. Returns status 0, or 1
/// after printing `no answer` or writing a fault to standard error.
pub fn ask_and_wait<S: DatagramSocket, C: Clock, W: Write, E: Write>(
    alloc: Global,
    socket: &mut S,
    clock: &C,
    mut question: Question,
    wait: Wait,
    places: Vec<Place>,
    nodes: usize,
    out: &mut W,
    err: &mut E,
) -> u8
    requires { AsksFor question.request.op wait.wanted.mode wait.wanted.name }
    ensures status { result ≤ 1 }
    // Whatever the status, it has sent nothing but its request, under rising numbers, and watches.
    ensures sends { S.is_observable
        → (last : ℕ) × SendsAll (IsTryOrWatch question last) (S.sent socket.old) (S.sent socket.new) }
    // Status 0 only if it was told something under the last number.
    ensures waited { S.is_observable → result ≡ 0
        → (last : ℕ) × EndsWait S.sent S.incoming question last true socket.old socket.new }
{
    let mut waiter = match Waiter::new(alloc, clock, &question, wait, places, nodes) {
        Ok(waiter) => waiter,
        Err(_) => return ProgramFault::NoMemory.write_to(err),
    };
    match wait_and_write(alloc, socket, clock, &mut waiter, &mut question, out, err) {
        Ok(true) => 0,
        Ok(false) => 1,
        Err(fault) => fault.write_to(err),
    }
}
