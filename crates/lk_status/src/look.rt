//! Looks at the members before a join or a leave is sent.

ghost use Rattle.std.specs.Prelude.{◌≡◌, IfOk};
ghost use Rattle.std.specs.Option.{option_copied};
ghost use Rattle.lk_status.specs.Changes.{IsJudged};
ghost use Rattle.lk_status.specs.Looks.{AsksAlike, AreLookedAt, AreNamedBy, AreOfAsker, targets_named};
ghost use Rattle.lk_status.specs.Rounds.{AreHeard};

use crate::asking::{TOKENS, pause, probe_all};
use crate::change::is_safe;
use crate::measure::furthest_report;
use crate::target::{Inquiry, Target, targets_at};
use lk_probe::Report;
use lk_program_fault::ProgramFault;
use lk_transport::socket::DatagramSocket;
use lk_types::Op;
use std::alloc::Global;

// A look goes on until so many receives of 100 ms brought nothing. The pause between two rounds counts as one.
const MOST: u32 = 30;

/// Two rounds of reports, and whether they show that a join or a leave is safe.
#[derive(Drop)]
pub struct Look {
    pub earlier: Vec<Report>,
    pub reports: Vec<Report>,
    pub is_safe: bool,
}

// Returns the members that a report names as targets, none without a report.
fn targets_named(alloc: Global, report: Option<&Report>) -> Result<Vec<Target>, ProgramFault>
    ensures { IfOk result (λ ts. ts.items ≡ targets_named (option_copied report.entry)) }
{
    match report {
        Some(report) => targets_at(alloc, report.status.members.as_slice()),
        None => Ok(Vec::new(alloc)),
    }
}

// Runs a round that asks the members that the furthest of these reports names, and keeps them as targets.
fn ask_members<S: DatagramSocket>(
    alloc: Global,
    socket: &mut S,
    inquiry: &mut Inquiry,
    reports: &[Report],
    first: u64,
    idle: &mut u32,
) -> Result<Vec<Report>, ProgramFault>
    ensures alike { AsksAlike inquiry.old inquiry.new }
    ensures named { IfOk result (λ _. AreNamedBy reports.now inquiry.new.targets.items) }
    ensures heard { IfOk result
        (λ rs. AreHeard S.sent S.incoming S.failures inquiry.new first S.is_observable rs.items socket.new) }
{
    inquiry.targets = targets_named(alloc, furthest_report(reports))?;
    probe_all(alloc, socket, inquiry, first, idle)
}

// Looks at the members after a pause, with these reports for the earlier round.
fn look_after<S: DatagramSocket>(
    alloc: Global,
    socket: &mut S,
    inquiry: &mut Inquiry,
    op: &Op,
    earlier: Vec<Report>,
    first: u64,
    idle: &mut u32,
) -> Result<Look, ProgramFault>
    ensures alike { AsksAlike inquiry.old inquiry.new }
    ensures judged { IfOk result (λ l. IsJudged op.now l.earlier.items l.reports.items l.is_safe) }
    ensures looked { AreOfAsker S.sent S.incoming S.failures S.is_observable inquiry.old earlier.items socket.old
        → IfOk result (λ l. AreLookedAt S.sent S.incoming S.failures S.is_observable inquiry.new l.earlier.items
        l.reports.items socket.new) }
{
    pause(socket, idle);
    let reports = ask_members(alloc, socket, inquiry, &earlier, first, idle)?;
    let is_safe = is_safe(op, &earlier, &reports);
    Ok(Look {
        earlier,
        reports,
        is_safe,
    })
}

// Asks the targets, and then the members that they name, whose reports it returns.
#[tactic(auto, using(crate::proofs::Looking::of_round, crate::proofs::Looking::alike_then))]
fn ask_twice<S: DatagramSocket>(
    alloc: Global,
    socket: &mut S,
    inquiry: &mut Inquiry,
    idle: &mut u32,
) -> Result<Vec<Report>, ProgramFault>
    ensures alike { AsksAlike inquiry.old inquiry.new }
    ensures heard { IfOk result
        (λ rs. AreOfAsker S.sent S.incoming S.failures S.is_observable inquiry.new rs.items socket.new) }
{
    let named = probe_all(alloc, socket, inquiry, 0, idle)?;
    let reports = ask_members(alloc, socket, inquiry, &named, TOKENS, idle)?;
    Ok(reports)
}

// Whether a look is the last: it is safe, nobody reported, or as many receives as allowed brought nothing.
fn is_last(look: &Look, idle: u32) -> bool {
    look.is_safe || look.reports.is_empty() || idle >= MOST
}

/// Asks the targets for their members, and then these, in rounds 100 ms apart, until two rounds show that a join or a
/// leave is safe, nobody reports, or for about three seconds. Returns the last two rounds. The targets are then the
/// members that were asked last.
#[tactic(auto, using(crate::proofs::Looking::of_later, crate::proofs::Looking::alike_then))]
pub fn look_at_members<S: DatagramSocket>(
    alloc: Global,
    socket: &mut S,
    inquiry: &mut Inquiry,
    op: &Op,
) -> Result<Look, ProgramFault>
    ensures alike { AsksAlike inquiry.old inquiry.new }
    // It is safe exactly if these two rounds show it.
    ensures judged { IfOk result (λ l. IsJudged op.now l.earlier.items l.reports.items l.is_safe) }
    ensures looked { IfOk result (λ l. AreLookedAt S.sent S.incoming S.failures S.is_observable inquiry.new
        l.earlier.items l.reports.items socket.new) }
{
    let mut idle = 0;
    let earlier = ask_twice(alloc, socket, inquiry, &mut idle)?;
    let mut look = look_after(alloc, socket, inquiry, op, earlier, 2 * TOKENS, &mut idle)?;
    'looks: for number in 3..=u64::from(MOST) {
        if is_last(&look, idle) {
            return Ok(look);
        }
        let first = number * TOKENS;
        look = look_after(alloc, socket, inquiry, op, look.reports, first, &mut idle)?;
    }
    Ok(look)
}
