//! A round of probes, and the reports that answer them.

ghost use Rattle.std.specs.Prelude.{◌≡◌, ◌↔◌, ◌<◌, false, is_some, IfOk, OnOk, IfSome, IsNone, IsSomeAnd, IsTrue};
ghost use Rattle.lk_probe.specs.declared.probe.Report.{Report as ReportValue};
ghost use Rattle.lk_transport.specs.Streams.{next_of};
ghost use Rattle.lk_status.specs.Rounds.{IsOfRound, AreOfRound, IsReport, IsAwaited, Adds, HearsReport, has_token};
ghost use Rattle.lk_status.specs.Rounds.{Probes, ProbesUnless, ProbesEach, ProbesAgain, GoesOn, IsOver, ReceivesNext};
ghost use Rattle.lk_status.specs.Rounds.{HearsOne, HearsOut, IsRound};

use crate::target::{Inquiry, Target, is_reported};
use lk_probe::Report;
use lk_program_fault::ProgramFault;
use lk_transport::receive_buffer::ReceiveBuffer;
use lk_transport::socket::DatagramSocket;
use std::alloc::Global;

/// The tokens of a round: more than it can have targets, so that a late report of an earlier round fits none of its
/// probes.
pub const TOKENS: u64 = 256;

// The most receives of a round, so that datagrams that are not awaited cannot keep it going.
const RECEIVES: u32 = 10_000;

// A pause drops at most this many datagrams.
const LATE: u32 = 64;

// Sends the probe with that token to a target, in form 2 if it asks for a reach. Ignores a failed send: a silent target
// is probed again.
fn send_probe<S: DatagramSocket>(
    socket: &mut S,
    inquiry: &Inquiry,
    target: &Target,
    asks_reach: bool,
    token: u64,
    frame: &mut Vec<u8>,
) -> Result<(), ProgramFault>
    ensures { OnOk result (S.is_observable
        → Probes S.sent S.incoming S.failures inquiry.now asks_reach token target.now socket.old socket.new) }
{
    let probe = inquiry.probe(token, asks_reach).datagram();
    let seals = &inquiry.destination.seals;
    let framed = seals.frame_of(inquiry.client_number(), probe.as_slice(), frame)?;
    let _ = socket.send_to(inquiry.address_of(target), framed);
    Ok(())
}

// Sends the probe with that token to a target, unless a report has the token.
fn probe_target<S: DatagramSocket>(
    socket: &mut S,
    inquiry: &Inquiry,
    target: &Target,
    asks_reach: bool,
    token: u64,
    reports: &[Report],
    frame: &mut Vec<u8>,
) -> Result<(), ProgramFault>
    ensures { OnOk result (S.is_observable
        → ProbesUnless S.sent S.incoming S.failures inquiry.now asks_reach
        (has_token token reports.now) token target.now socket.old socket.new) }
{
    if is_reported(reports, token) {
        return Ok(());
    }
    send_probe(socket, inquiry, target, asks_reach, token, frame)
}

// Sends a probe to each target that has not reported, the first with the token `first` and each other with the next, in
// form 2 if it asks for a reach. Ignores failed sends.
fn send_probes<S: DatagramSocket>(
    alloc: Global,
    socket: &mut S,
    inquiry: &Inquiry,
    asks_reach: bool,
    first: u64,
    reports: &[Report],
) -> Result<(), ProgramFault>
    ensures { OnOk result (S.is_observable
        → ProbesEach S.sent S.incoming S.failures inquiry.now asks_reach first inquiry.now.targets.items
        reports.now socket.old socket.new) }
{
    let mut frame = Vec::new(alloc);
    let mut token = first;
    let targets = inquiry.targets.as_slice();
    'targets: for target in targets {
        probe_target(
            socket, inquiry, target, asks_reach, token, reports, &mut frame,
        )?;
        token = token.wrapping_add(1);
    }
    Ok(())
}

// Sends a probe of form 2 to each target that has not reported, and then one of form 1: older nodes answer no other.
fn probe_again<S: DatagramSocket>(
    alloc: Global,
    socket: &mut S,
    inquiry: &Inquiry,
    first: u64,
    reports: &[Report],
) -> Result<(), ProgramFault>
    ensures { OnOk result (S.is_observable
        → ProbesAgain S.sent S.incoming S.failures inquiry.now first reports.now socket.old socket.new) }
{
    send_probes(alloc, socket, inquiry, true, first, reports)?;
    send_probes(alloc, socket, inquiry, false, first, reports)?;
    Ok(())
}

// Whether a report, of either form, answers a probe of the round: its token is that of a target, and cluster and client
// are the inquiry's.
fn is_of_round(inquiry: &Inquiry, first: u64, report: &Report) -> bool
    ensures { IsTrue result ↔ IsOfRound inquiry.now first report.now }
{
    let token = report.token;
    let is_within = first <= token && token - first < inquiry.targets.len() as u64;
    is_within && report.is_for(&inquiry.probe(token, false))
}

// Whether a report answers a probe of the round that none of the others has answered.
fn is_awaited(inquiry: &Inquiry, first: u64, reports: &[Report], report: &Report) -> bool
    ensures { IsTrue result ↔ IsAwaited inquiry.now first reports.now report.now }
{
    is_of_round(inquiry, first, report) && !is_reported(reports, report.token)
}

// Reads a datagram as a report, out of its frame if the inquiry has a key. `None` if it is no report.
fn report_in(inquiry: &Inquiry, bytes: &[u8]) -> Option<Report>
    ensures found { IfSome result (IsReport inquiry.now bytes.now) }
    ensures only { (r : ReportValue) → IsReport inquiry.now bytes.now r → IsSomeAnd result (λ s. s ≡ r) }
{
    let seals = &inquiry.destination.seals;
    Report::read(seals.unseal(inquiry.client_number(), bytes))
}

// Reads a datagram as a report that is awaited, else returns `None`.
fn awaited_in(inquiry: &Inquiry, first: u64, reports: &[Report], bytes: &[u8]) -> Option<Report>
    ensures some { IfSome result (λ r. IsReport inquiry.now bytes.now r × IsAwaited inquiry.now first reports.now r) }
    ensures none { IsNone result → (r : ReportValue) → IsReport inquiry.now bytes.now r
        → IsAwaited inquiry.now first reports.now r → ⊥ }
{
    let Some(report) = report_in(inquiry, bytes) else {
        return None;
    };
    if !is_awaited(inquiry, first, reports, &report) {
        return None;
    }
    Some(report)
}

// Adds the report in a datagram if it is awaited; ignores any other datagram.
#[tactic(auto, using(crate::proofs::Gathered::one_more))]
fn add(
    inquiry: &Inquiry,
    first: u64,
    reports: &mut Vec<Report>,
    bytes: &[u8],
) -> Result<(), ProgramFault>
    ensures adds { OnOk result (Adds inquiry.now first bytes.now reports.old.items reports.new.items) }
    ensures of_round { OnOk result
        (AreOfRound inquiry.now first reports.old.items → AreOfRound inquiry.now first reports.new.items) }
{
    let Some(report) = awaited_in(inquiry, first, reports, bytes) else {
        return Ok(());
    };
    reports.push(report)?;
    Ok(())
}

// Receives the next datagram into the buffer, if one arrives within 100 ms.
#[tactic(auto, using(crate::proofs::Gathered::received))]
fn receive<S: DatagramSocket>(socket: &mut S, buffer: &mut ReceiveBuffer)
    ensures receives { S.is_observable → ReceivesNext S.sent S.incoming S.failures socket.old socket.new }
    ensures last { S.is_observable → next_of S.incoming socket.old ≡ buffer.new.last }
{
    buffer.receive(socket);
}

// Receives the next datagram, and adds it if it is an awaited report. Returns whether one came.
#[tactic(auto, using(crate::proofs::Gathered::hears_none, crate::proofs::Gathered::hears_some))]
fn receive_report<S: DatagramSocket>(
    socket: &mut S,
    buffer: &mut ReceiveBuffer,
    inquiry: &Inquiry,
    first: u64,
    reports: &mut Vec<Report>,
) -> Result<bool, ProgramFault>
    ensures receives { S.is_observable → ReceivesNext S.sent S.incoming S.failures socket.old socket.new }
    ensures came { IfOk result (λ is. S.is_observable → is_some (next_of S.incoming socket.old) ≡ is) }
    ensures hears { OnOk result
        (S.is_observable → HearsReport inquiry.now first
        (next_of S.incoming socket.old) reports.old.items reports.new.items) }
    ensures of_round { OnOk result
        (AreOfRound inquiry.now first reports.old.items → AreOfRound inquiry.now first reports.new.items) }
{
    receive(socket, buffer);
    let Some((bytes, _)) = buffer.latest() else {
        return Ok(false);
    };
    add(inquiry, first, reports, bytes)?;
    Ok(true)
}

// Receives the next datagram. If none arrived, adds one to `silences`, and probes the silent targets again, in both
// forms.
#[tactic(auto, using(crate::proofs::Gathered::hears_some_one, crate::proofs::Gathered::hears_no_one))]
fn receive_or_probe<S: DatagramSocket>(
    alloc: Global,
    socket: &mut S,
    buffer: &mut ReceiveBuffer,
    inquiry: &Inquiry,
    first: u64,
    reports: &mut Vec<Report>,
    silences: &mut u32,
) -> Result<(), ProgramFault>
    requires { silences.old < 4294967295 }
    ensures hears { OnOk result (S.is_observable → HearsOne S.sent S.incoming S.failures inquiry.now first
        (record { socket = socket.old; reports = reports.old.items; silences = silences.old })
        (record { socket = socket.new; reports = reports.new.items; silences = silences.new })) }
    ensures of_round { OnOk result
        (AreOfRound inquiry.now first reports.old.items → AreOfRound inquiry.now first reports.new.items) }
{
    if !receive_report(socket, buffer, inquiry, first, reports)? {
        *silences += 1;
        probe_again(alloc, socket, inquiry, first, reports)?;
    }
    Ok(())
}

// Whether each target has reported, or as many receives have timed out as the inquiry's `patience` allows.
fn is_over(inquiry: &Inquiry, reports: &[Report], silences: u32) -> bool
    ensures over { IsTrue result ↔ IsOver inquiry.now reports.now silences }
    ensures goes_on { result ≡ false → GoesOn inquiry.now reports.now silences }
    ensures room { result ≡ false → silences < 4294967295 }
{
    reports.len() >= inquiry.targets.len() || silences >= inquiry.patience
}

// Receives until each target has reported, receives brought nothing as often as the inquiry's `patience`, or there were
// 10,000 receives. Adds to `silences` how many brought nothing.
fn collect_reports<S: DatagramSocket>(
    alloc: Global,
    socket: &mut S,
    inquiry: &Inquiry,
    first: u64,
    reports: &mut Vec<Report>,
    silences: &mut u32,
) -> Result<(), ProgramFault>
    ensures hears { OnOk result (S.is_observable → HearsOut S.sent S.incoming S.failures inquiry.now first
        (record { socket = socket.old; reports = reports.old.items; silences = silences.old })
        (record { socket = socket.new; reports = reports.new.items; silences = silences.new })) }
    ensures of_round { OnOk result
        (AreOfRound inquiry.now first reports.old.items → AreOfRound inquiry.now first reports.new.items) }
{
    let mut buffer = ReceiveBuffer::new();
    'receives: for _ in 0..RECEIVES {
        if is_over(inquiry, reports, *silences) {
            return Ok(());
        }
        receive_or_probe(
            alloc,
            socket,
            &mut buffer,
            inquiry,
            first,
            reports,
            silences,
        )?;
    }
    Ok(())
}

/// Runs a round: probes all targets in form 2, the first with the token `first` and each other with the next, and
/// collects their reports, at most one each. It ends when each target has reported, receives brought nothing as often
/// as the inquiry's `patience`, or there were 10,000 receives. Each receive that brought nothing probes the silent
/// targets again, in both forms, and adds one to `idle`.
pub fn probe_all<S: DatagramSocket>(
    alloc: Global,
    socket: &mut S,
    inquiry: &Inquiry,
    first: u64,
    idle: &mut u32,
) -> Result<Vec<Report>, ProgramFault>
    ensures round { IfOk result
        (λ rs. S.is_observable
        → IsRound S.sent S.incoming S.failures inquiry.now first rs.items socket.old socket.new) }
    ensures of_round { IfOk result (λ rs. AreOfRound inquiry.now first rs.items) }
{
    let (mut reports, mut silences) = (Vec::new(alloc), 0u32);
    send_probes(alloc, socket, inquiry, true, first, &reports)?;
    collect_reports(alloc, socket, inquiry, first, &mut reports, &mut silences)?;
    *idle = idle.saturating_add(silences);
    Ok(reports)
}

// Waits until a receive of 100 ms brings nothing, and drops what came before that: reports that were late, at most 64.
fn drop_late_reports<S: DatagramSocket>(socket: &mut S) {
    let mut buffer = ReceiveBuffer::new();
    'late: for _ in 0..LATE {
        receive(socket, &mut buffer);
        if buffer.latest().is_none() {
            return;
        }
    }
}

/// Pauses between two rounds, for 100 ms or a little longer, and adds one to `idle`.
pub fn pause<S: DatagramSocket>(socket: &mut S, idle: &mut u32) {
    drop_late_reports(socket);
    *idle = idle.saturating_add(1);
}
