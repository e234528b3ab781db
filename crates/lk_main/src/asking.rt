//! Runs `locks ask`: sends a request, a join or a leave only after a look at the members.

ghost use Rattle.std.specs.Io.KnownBytes.{Appends};
ghost use Rattle.std.specs.Prelude.{◌≡◌, ◌≤◌, ◌↔◌, ℕ, true, false, IsTrue, IfOk, OnOk};
ghost use Rattle.lk_client.specs.Waits.{AsksFor, EndsWait};
ghost use Rattle.lk_members.specs.Rosters.{IsChange};
ghost use Rattle.lk_main.specs.Looks.{IsShownSafe, directed, is_above_twice, is_far, far_line, far_text};

use lk_client::destination::Place;
use lk_client::question::{Question, ask};
use lk_client::waiting::{Wait, ask_and_wait};
use lk_program_fault::ProgramFault;
use lk_status::target::{Inquiry, Target};
use lk_status_command::withheld::may_send;
use lk_transport::socket::DatagramSocket;
use lk_types::{NodeNo, Op};
use std::alloc::Global;
use std::io;
use std::io::Write;
use std::time::Clock;

// Whether an op is a join or a leave.
fn is_change(op: &Op) -> bool
    ensures { IsTrue result ↔ IsChange op.now }
{
    match op {
        Op::Join(_, _) | Op::Leave(_) => true,
        Op::Table(_) | Op::Raise => false,
    }
}

// Whether a number is above twice the number of a target's node, where it is known.
fn is_above_twice(node: NodeNo, target: &Target) -> bool
    ensures { result ≡ is_above_twice node target.now.node }
{
    match target.node {
        Some(member) => u64::from(node.get()) > 2 * u64::from(member.get()),
        None => true,
    }
}

// Whether a number is above twice the number of each of these members.
fn is_far(node: NodeNo, members: &[Target]) -> bool
    ensures { result ≡ is_far node members.now }
{
    members.iter().all(|member| is_above_twice(node, member))
}

// Writes that a number is above twice the greatest member.
fn write_far<E: Write>(node: NodeNo, err: &mut E) -> io::Result<()>
    ensures { OnOk result (Appends (E.contents err.old) (E.contents err.new) (far_line node)) }
{
    let node = node.get();
    writeln!(
        err,
        "warning: node {node} is above twice the greatest member: no smaller number can join after it"
    )?;
    Ok(())
}

// Writes the same of an op, if it joins such a number.
fn warn_of<E: Write>(op: &Op, members: &[Target], err: &mut E) -> io::Result<()>
    ensures { OnOk result (Appends (E.contents err.old) (E.contents err.new) (far_text op.now members.now)) }
{
    match op {
        Op::Join(node, _) if is_far(*node, members) => write_far(*node, err)?,
        _ => {}
    }
    Ok(())
}

// Returns whether a request may be sent: it is forced or no change, or a look shows it safe. If not, writes why. Warns
// of a join that may be sent, if its number is above twice the greatest member; a failed write is ignored.
fn is_cleared<S: DatagramSocket, E: Write>(
    alloc: Global,
    socket: &mut S,
    inquiry: &mut Inquiry,
    op: &Op,
    is_forced: bool,
    err: &mut E,
) -> Result<bool, ProgramFault>
    ensures { is_forced ≡ false → IsChange op.now → IfOk result
        (λ is. IsTrue is → IsShownSafe S.sent S.incoming S.failures S.is_observable inquiry.old op.now) }
{
    if is_forced || !is_change(op) {
        return Ok(true);
    }
    let may = may_send(alloc, socket, inquiry, op, err)?;
    if may {
        let _ = warn_of(op, &inquiry.targets, err);
    }
    Ok(may)
}

/// Sends a request to these places in turn, and prints the reply. Before a join or a leave that is not forced it asks
/// the targets of the inquiry for their members, and sends nothing unless these show that the change is safe. Returns
/// status 0, or 1 after writing why it sends nothing, printing `no answer` or writing a fault to standard error.
pub fn ask_if_cleared<S: DatagramSocket, W: Write, E: Write>(
    alloc: Global,
    socket: &mut S,
    mut inquiry: Inquiry,
    mut question: Question,
    places: &[Place],
    is_forced: bool,
    out: &mut W,
    err: &mut E,
) -> u8
    ensures status { result ≤ 1 }
    // At status 0 a change that is not forced was shown to be safe, by two rounds of reports.
    ensures looked { is_forced ≡ false → IsChange question.request.op → result ≡ 0
        → IsShownSafe S.sent S.incoming S.failures S.is_observable inquiry question.request.op }
{
    match is_cleared(
        alloc,
        socket,
        &mut inquiry,
        &question.request.op,
        is_forced,
        err,
    ) {
        Ok(true) => {}
        Ok(false) => return 1,
        Err(fault) => return fault.write_to(err),
    }
    question.destination = inquiry.destination;
    ask(alloc, socket, &question, places, out, err)
}

/// Waits for the lock that a request asks for, and prints the reply. It asks these places in turn, of which the first
/// ones are the targets of the inquiry, and sends its watches to those. Returns status 0, or 1 after printing `no
/// answer` or writing a fault to standard error.
pub fn wait_at<S: DatagramSocket, C: Clock, W: Write, E: Write>(
    alloc: Global,
    socket: &mut S,
    clock: &C,
    inquiry: Inquiry,
    mut question: Question,
    wait: Wait,
    places: Vec<Place>,
    out: &mut W,
    err: &mut E,
) -> u8
    requires { AsksFor question.request.op wait.wanted.mode wait.wanted.name }
    ensures status { result ≤ 1 }
    // At status 0 it was told something, under the last of its numbers, and asked as the destination says.
    ensures waited { S.is_observable → result ≡ 0 → (last : ℕ) × EndsWait S.sent S.incoming
        (directed inquiry.destination question) last true socket.old socket.new }
{
    let Inquiry {
        destination,
        targets,
        ..
    } = inquiry;
    question.destination = destination;
    ask_and_wait(
        alloc,
        socket,
        clock,
        question,
        wait,
        places,
        targets.len(),
        out,
        err,
    )
}
