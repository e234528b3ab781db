// The lines `why: ..` of nodes that hold another state than others at one position.
ghost use Rattle.std.specs.Io.KnownBytes.{Appends};
ghost use Rattle.std.specs.Prelude.{◌≡◌, OnOk, flat_map};
ghost use Rattle.lk_status_reasons.specs.States.{other_word, state_front, outnumbered_line, rivalled_line};
ghost use Rattle.lk_status_reasons.specs.States.{state_reason, states_reason};

use lk_probe::Report;
use lk_status::states::{differs_from, is_outnumbered, is_rivalled};
use std::io;
use std::io::Write;

// Writes the number of the node of `other`, if it holds another state than that of `report`.
fn write_other<W: Write>(report: &Report, other: &Report, out: &mut W) -> io::Result<()>
    ensures { OnOk result (Appends (W.contents out.old) (W.contents out.new) (other_word report.now other.now)) }
{
    if differs_from(report, other) {
        write!(out, " {}", other.node.get())?;
    }
    Ok(())
}

// Writes the number of each of these nodes that holds another state.
fn write_others<W: Write>(report: &Report, reports: &[Report], out: &mut W) -> io::Result<()>
    ensures { OnOk result (Appends (W.contents out.old) (W.contents out.new)
        (flat_map (other_word report.now) reports.now)) }
{
    'all: for other in reports {
        write_other(report, other, out)?;
    }
    Ok(())
}

// Writes that a node has executed other commands than some.
fn write_front<W: Write>(report: &Report, out: &mut W) -> io::Result<()>
    ensures { OnOk result (Appends (W.contents out.old) (W.contents out.new) (state_front report.now)) }
{
    let node = report.node.get();
    write!(out, "why: node {node} has executed other commands than")?;
    Ok(())
}

// Writes that more nodes hold another state than hold that of this one, which is to be stopped.
fn write_outnumbered<W: Write>(report: &Report, reports: &[Report], out: &mut W) -> io::Result<()>
    ensures { OnOk result (Appends (W.contents out.old) (W.contents out.new)
        (outnumbered_line report.now reports.now)) }
{
    write_front(report, out)?;
    out.write_all(b" nodes")?;
    write_others(report, reports, out)?;
    out.write_all(b": stop it\n")?;
    Ok(())
}

// Writes that as many nodes hold another state as hold that of this one.
fn write_rivalled<W: Write>(report: &Report, reports: &[Report], out: &mut W) -> io::Result<()>
    ensures { OnOk result (Appends (W.contents out.old) (W.contents out.new) (rivalled_line report.now reports.now)) }
{
    write_front(report, out)?;
    write_others(report, reports, out)?;
    out.write_all(b", as many nodes: decide which state is right, and stop the others\n")?;
    Ok(())
}

// Writes that a node holds another state than as many nodes or more, if it does.
fn write_state<W: Write>(report: &Report, reports: &[Report], out: &mut W) -> io::Result<()>
    ensures { OnOk result (Appends (W.contents out.old) (W.contents out.new) (state_reason reports.now report.now)) }
{
    if is_outnumbered(report, reports) {
        write_outnumbered(report, reports, out)?;
    } else if is_rivalled(report, reports) {
        write_rivalled(report, reports, out)?;
    }
    Ok(())
}

/// Writes the same of each of these nodes that it applies to.
pub fn write_states<W: Write>(reports: &[Report], out: &mut W) -> io::Result<()>
    ensures { OnOk result (Appends (W.contents out.old) (W.contents out.new) (states_reason reports.now)) }
{
    'all: for report in reports {
        write_state(report, reports, out)?;
    }
    Ok(())
}
