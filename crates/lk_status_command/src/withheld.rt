//! Whether a join or a leave may be sent, and in words why not.

ghost use Rattle.std.specs.Io.KnownBytes.{Appends};
ghost use Rattle.std.specs.Option.{option_copied};
ghost use Rattle.std.specs.Prelude.{◌≡◌, Some, None, IfOk, OnOk, flat_map};
ghost use Rattle.lk_status.specs.Looks.{AsksAlike, IsShown};
ghost use Rattle.lk_status_command.specs.Withheld.{report_by, lagging_line, member_line, pending_line, reason_lines};
ghost use Rattle.lk_status_command.specs.Withheld.{unknown_line, known_lines, withheld_lines, IsWithheld};

use lk_probe::{DIGEST, Report};
use lk_program_fault::ProgramFault;
use lk_status::change::{goal_of, has_executed, members_after};
use lk_status::look::{Look, look_at_members};
use lk_status::measure::furthest_report;
use lk_status::target::Inquiry;
use lk_transport::socket::DatagramSocket;
use lk_types::{Member, NodeNo, Op};
use std::alloc::Global;
use std::io;
use std::io::Write;

// Returns the first report of that node that names this genesis.
fn report_by<'a>(genesis: &[u8; DIGEST], node: NodeNo, reports: &'a [Report]) -> Option<&'a Report>
    ensures { option_copied result ≡ report_by genesis.now node reports.now }
{
    for report in reports {
        if report.node == node && report.status.identity.genesis == *genesis {
            return Some(report);
        }
    }
    None
}

// Writes that a node does not report.
fn write_silent<E: Write>(node: NodeNo, err: &mut E) -> io::Result<()>
    ensures { OnOk result (Appends (E.contents err.old) (E.contents err.new) (lagging_line node None 0)) }
{
    let node = node.get();
    writeln!(
        err,
        "node {node} does not report: the change would leave no majority that has caught up"
    )?;
    Ok(())
}

// Writes what a node has executed of so many positions.
fn write_behind<E: Write>(node: NodeNo, report: &Report, most: u64, err: &mut E) -> io::Result<()>
    ensures { OnOk result (Appends (E.contents err.old) (E.contents err.new)
        (lagging_line node (Some report.now) most)) }
{
    let (node, executed) = (node.get(), report.status.progress.executed.get());
    writeln!(
        err,
        "node {node} has executed {executed} of {most}: the change would leave no majority that has caught up"
    )?;
    Ok(())
}

// Writes the same of a node that has not caught up.
fn write_lagging<E: Write>(
    node: NodeNo,
    report: Option<&Report>,
    most: u64,
    err: &mut E,
) -> io::Result<()>
    ensures { OnOk result (Appends (E.contents err.old) (E.contents err.new)
        (lagging_line node (option_copied report.entry) most)) }
{
    match report {
        Some(report) => write_behind(node, report, most, err)?,
        None => write_silent(node, err)?,
    }
    Ok(())
}

// Writes the same of a member if it has not caught up with the furthest report.
fn write_member<E: Write>(
    genesis: &[u8; DIGEST],
    furthest: &Report,
    reports: &[Report],
    member: &Member,
    err: &mut E,
) -> io::Result<()>
    ensures { OnOk result (Appends (E.contents err.old) (E.contents err.new)
        (member_line genesis.now furthest.now reports.now member.now)) }
{
    let node = member.node;
    if !has_executed(genesis, goal_of(furthest), node, reports) {
        let most = furthest.status.progress.executed.get();
        write_lagging(node, report_by(genesis, node, reports), most, err)?;
    }
    Ok(())
}

// Writes the same of each of these members that has not caught up.
fn write_members<E: Write>(
    genesis: &[u8; DIGEST],
    furthest: &Report,
    reports: &[Report],
    members: &[Member],
    err: &mut E,
) -> io::Result<()>
    ensures { OnOk result (Appends (E.contents err.old) (E.contents err.new)
        (flat_map (member_line genesis.now furthest.now reports.now) members.now)) }
{
    'all: for member in members {
        write_member(genesis, furthest, reports, member, err)?;
    }
    Ok(())
}

// Writes that an earlier change is pending, or who of the members after the op has not caught up.
fn write_reasons<E: Write>(
    op: &Op,
    furthest: &Report,
    latest: &Report,
    reports: &[Report],
    err: &mut E,
) -> io::Result<()>
    ensures { OnOk result (Appends (E.contents err.old) (E.contents err.new)
        (reason_lines op.now furthest.now latest.now reports.now)) }
{
    let status = &latest.status;
    if status.progress.pending > 0 {
        err.write_all(b"an earlier join or leave has not taken effect yet\n")?;
        return Ok(());
    }
    let after = members_after(op, &status.members);
    write_members(
        &status.identity.genesis,
        furthest,
        reports,
        after.as_slice(),
        err,
    )?;
    Ok(())
}

// Writes the same by the furthest reports of two rounds, or that nobody reports.
fn write_known<E: Write>(
    op: &Op,
    furthest: Option<&Report>,
    latest: Option<&Report>,
    reports: &[Report],
    err: &mut E,
) -> io::Result<()>
    ensures { OnOk result (Appends (E.contents err.old) (E.contents err.new)
        (known_lines op.now (option_copied furthest.entry) (option_copied latest.entry) reports.now)) }
{
    match (furthest, latest) {
        (Some(furthest), Some(latest)) => write_reasons(op, furthest, latest, reports, err)?,
        _ => err.write_all(
            b"no node reports its members: it is not known what the change would leave\n",
        )?,
    }
    Ok(())
}

// Writes why an op is not sent, by the two rounds of a look, and what can be done.
fn write_withheld<E: Write>(op: &Op, look: &Look, err: &mut E) -> io::Result<()>
    ensures { OnOk result (IsWithheld op.now look.now.earlier.items look.now.reports.items
        (E.contents err.old) (E.contents err.new)) }
{
    let (furthest, latest) = (
        furthest_report(&look.earlier),
        furthest_report(&look.reports),
    );
    write_known(op, furthest, latest, &look.reports, err)?;
    err.write_all(b"nothing was sent: wait, or send it all the same with --force\n")?;
    Ok(())
}

/// Looks at the members that the targets name, and returns whether a join or a leave may be sent: two rounds show that
/// it leaves a majority that has caught up, changes no member, or meets a cluster of one, and no change is pending. If
/// not, writes why; a failed write is ignored. The targets are then the members that were asked last. Takes about
/// 0.1 s, and up to some 4 s if the answer is no or a member is silent.
pub fn may_send<S: DatagramSocket, E: Write>(
    alloc: Global,
    socket: &mut S,
    inquiry: &mut Inquiry,
    op: &Op,
    err: &mut E,
) -> Result<bool, ProgramFault>
    ensures alike { AsksAlike inquiry.old inquiry.new }
    // It may exactly if two rounds that were heard show that it is safe.
    ensures shown { IfOk result
        (λ may. IsShown S.sent S.incoming S.failures S.is_observable inquiry.new op.now may socket.new) }
{
    let look = look_at_members(alloc, socket, inquiry, op)?;
    if !look.is_safe {
        let _ = write_withheld(op, &look, err);
    }
    Ok(look.is_safe)
}
