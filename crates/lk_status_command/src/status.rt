//! `locks status`: asks the targets, on demand until all are ready, and prints what they report.

ghost use Rattle.std.specs.Io.KnownBytes.{Appends};
ghost use Rattle.std.specs.IoError.{error_kind};
ghost use Rattle.std.specs.Option.{option_copied};
ghost use Rattle.std.specs.Prelude.{◌≡◌, ◌≢◌, ◌≤◌, ◌↔◌, ◌&&◌, true, false, length, IfOk, OnOk, IsTrue};
ghost use Rattle.lk_status.specs.Rounds.{AreHeard};
ghost use Rattle.lk_status.specs.Verdicts.{IsServed, is_at};
ghost use Rattle.lk_status_command.specs.Prints.{lines_text, form_text, Prints};
ghost use Rattle.lk_status_command.specs.Outcomes.{IsReady, Shows, IsShownServed};

use crate::json_object::write_json;
use crate::lines::write_lines;
use crate::prometheus::write_metrics;
use lk_probe::Report;
use lk_program_fault::ProgramFault;
use lk_status::asking::{TOKENS, pause, probe_all};
use lk_status::measure::reference_report;
use lk_status::target::Inquiry;
use lk_status::verdict::{is_ready, is_served};
use lk_status_reasons::why::write_why;
use lk_transport::socket::DatagramSocket;
use std::alloc::Global;
use std::io;
use std::io::{ErrorKind, Write};

// The receives of 100 ms in a second.
const A_SECOND: u32 = 10;

/// The form in which the reports are printed.
#[derive(Clone, Copy)]
pub enum Form {
    Lines,
    Json,
    Prometheus,
}

/// What `locks status` does: whom it asks, in which form it prints, and how many seconds it waits until all are ready,
/// 0 if it does not wait.
#[derive(Drop)]
pub struct Plan {
    pub inquiry: Inquiry,
    pub form: Form,
    pub seconds: u32,
}

// The reports of a round, and the token of its first target. `is_ready` is whether all are ready, or true if nobody
// waits for that.
#[derive(Drop)]
struct Round {
    first: u64,
    reports: Vec<Report>,
    is_ready: bool,
}

// Writes the lines of a round, and why requests may not be answered.
#[tactic(auto, using(lk_types::proofs::Appending::appends_more))]
fn write_text<W: Write>(
    inquiry: &Inquiry,
    first: u64,
    reports: &[Report],
    measure: Option<&Report>,
    out: &mut W,
) -> io::Result<()>
    ensures { OnOk result (Appends (W.contents out.old) (W.contents out.new)
        (lines_text first inquiry.now reports.now (option_copied measure.entry))) }
{
    write_lines(inquiry, first, reports, measure, out)?;
    write_why(measure, reports, out)?;
    Ok(())
}

// Writes the reports of a round in the form of the plan.
fn write_form<W: Write>(
    alloc: Global,
    plan: &Plan,
    first: u64,
    reports: &[Report],
    measure: Option<&Report>,
    out: &mut W,
) -> io::Result<()>
    ensures { OnOk result (Appends (W.contents out.old) (W.contents out.new)
        (form_text plan.now.form first plan.now.inquiry reports.now (option_copied measure.entry))) }
{
    let inquiry = &plan.inquiry;
    match plan.form {
        Form::Lines => write_text(inquiry, first, reports, measure, out)?,
        Form::Json => write_json(alloc, inquiry, first, reports, measure, out)?,
        Form::Prometheus => write_metrics(inquiry, first, reports, measure, out)?,
    }
    Ok(())
}

// Prints the reports of a round, and flushes. Returns whether they show that the cluster is served.
fn print<W: Write>(
    alloc: Global,
    plan: &Plan,
    first: u64,
    reports: &[Report],
    out: &mut W,
) -> io::Result<bool>
    ensures served { IfOk result (λ is. IsTrue is ↔ IsServed reports.now) }
    ensures printed { OnOk result
        (Prints plan.now.form first plan.now.inquiry reports.now (W.contents out.old) (W.contents out.new)) }
{
    write_form(alloc, plan, first, reports, reference_report(reports), out)?;
    out.flush()?;
    Ok(is_served(reports))
}

// Returns the goal to wait for: how many positions the leader has executed. `None` if the measure, the report with
// which the others are compared, does not lead.
fn goal_in(reports: &[Report]) -> Option<u64> {
    match reference_report(reports) {
        Some(measure) if measure.status.leadership.leads => {
            Some(measure.status.progress.executed.get())
        }
        _ => None,
    }
}

// Whether the cluster is served, and all targets report that they have executed the goal. False without a goal.
fn is_at(goal: Option<u64>, inquiry: &Inquiry, reports: &[Report]) -> bool
    ensures test { result ≡ is_at goal (length inquiry.now.targets.items) reports.now }
    ensures ready { IsTrue result → IsReady inquiry.now reports.now }
{
    match goal {
        Some(executed) => is_ready(inquiry.targets.len(), executed, reports),
        None => false,
    }
}

// Asks in rounds until the cluster is served and all targets have executed what the leader had in its first report, or
// `most` receives of 100 ms brought nothing; the pause between two rounds counts as one. Returns the last round, which
// is not ready if time ran out.
fn wait_until_ready<S: DatagramSocket>(
    alloc: Global,
    socket: &mut S,
    inquiry: &Inquiry,
    most: u32,
) -> Result<Round, ProgramFault>
    ensures ready { IfOk result (λ r. IsTrue r.is_ready → IsReady inquiry.now r.reports.items) }
    ensures heard { IfOk result
        (λ r. AreHeard S.sent S.incoming S.failures inquiry.now r.first S.is_observable r.reports.items socket.new) }
{
    let (mut idle, mut goal) = (0, None);
    let mut round = ask_once(alloc, socket, inquiry, 0, &mut idle)?;
    'rounds: for number in 1..=u64::from(most) {
        goal = goal.or(goal_in(&round.reports));
        round.is_ready = is_at(goal, inquiry, &round.reports);
        if round.is_ready || idle >= most {
            return Ok(round);
        }
        pause(socket, &mut idle);
        round = ask_once(alloc, socket, inquiry, number * TOKENS, &mut idle)?;
    }
    Ok(round)
}

// Runs one round, whose tokens begin with `first`. Its `is_ready` is false: the caller decides that.
fn ask_once<S: DatagramSocket>(
    alloc: Global,
    socket: &mut S,
    inquiry: &Inquiry,
    first: u64,
    idle: &mut u32,
) -> Result<Round, ProgramFault>
    ensures fresh { IfOk result (λ r. r.is_ready ≡ false) }
    ensures heard { IfOk result
        (λ r. AreHeard S.sent S.incoming S.failures inquiry.now r.first S.is_observable r.reports.items socket.new) }
{
    Ok(Round {
        first,
        reports: probe_all(alloc, socket, inquiry, first, idle)?,
        is_ready: false,
    })
}

// Runs one round, or, if the plan has seconds to wait, rounds until all are ready.
fn round_of<S: DatagramSocket>(
    alloc: Global,
    socket: &mut S,
    plan: &Plan,
) -> Result<Round, ProgramFault>
    ensures heard { IfOk result
        (λ r. AreHeard S.sent S.incoming S.failures plan.now.inquiry r.first S.is_observable r.reports.items
        socket.new) }
    ensures ready { plan.now.seconds ≡ 0 → IfOk result (λ r. r.is_ready ≡ true) }
    ensures waited { plan.now.seconds ≢ 0
        → IfOk result (λ r. IsTrue r.is_ready → IsReady plan.now.inquiry r.reports.items) }
{
    if plan.seconds > 0 {
        let most = plan.seconds.saturating_mul(A_SECOND);
        return wait_until_ready(alloc, socket, &plan.inquiry, most);
    }
    let mut round = ask_once(alloc, socket, &plan.inquiry, 0, &mut 0)?;
    round.is_ready = true;
    Ok(round)
}

// Whether both are true.
fn are_both(one: bool, other: bool) -> bool
    ensures { result ≡ (one && other) }
{
    one && other
}

// Returns the fault of a failed print: the text of a form may need memory.
fn print_fault(error: &io::Error) -> ProgramFault
    ensures memory { error_kind error.now ≡ ErrorKind.OutOfMemory → result ≡ ProgramFault.NoMemory }
    ensures write { error_kind error.now ≢ ErrorKind.OutOfMemory → result ≡ ProgramFault.Write }
{
    match error.kind() {
        ErrorKind::OutOfMemory => ProgramFault::NoMemory,
        _ => ProgramFault::Write,
    }
}

// Asks, and prints the reports. Returns whether the cluster is served, and ready if that is waited for.
fn ask_and_print<S: DatagramSocket, W: Write>(
    alloc: Global,
    socket: &mut S,
    plan: &Plan,
    out: &mut W,
) -> Result<bool, ProgramFault>
    ensures { IfOk result (λ is. Shows S.sent S.incoming S.failures S.is_observable plan.now is socket.new) }
{
    let round = round_of(alloc, socket, plan)?;
    match print(alloc, plan, round.first, &round.reports, out) {
        Ok(is_served) => Ok(are_both(is_served, round.is_ready)),
        Err(error) => Err(print_fault(&error)),
    }
}

/// Asks all targets for their reports, and prints them. Returns status 0 if the cluster is served, and ready if that is
/// waited for; else 1, also after writing a fault to standard error.
pub fn status<S: DatagramSocket, W: Write, E: Write>(
    alloc: Global,
    socket: &mut S,
    plan: &Plan,
    out: &mut W,
    err: &mut E,
) -> u8
    ensures status { result ≤ 1 }
    // Status 0 only if all targets were asked, and their reports, each read from a datagram that came, show the cluster
    // served, and ready if that was waited for.
    ensures served { result ≡ 0 → IsShownServed S.sent S.incoming S.failures S.is_observable plan.now socket.new }
{
    match ask_and_print(alloc, socket, plan, out) {
        Ok(true) => 0,
        Ok(false) => 1,
        Err(fault) => fault.write_to(err),
    }
}
