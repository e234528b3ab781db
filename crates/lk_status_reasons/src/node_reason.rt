// The lines `why: ..` of a single node: that it is no member, hears no majority, seeks votes or hears nobody.
ghost use Rattle.std.specs.Io.KnownBytes.{Appends};
ghost use Rattle.std.specs.Prelude.{◌≡◌, OnOk};
ghost use Rattle.lk_status_reasons.specs.Reasons.{is_member, deaf_line, seeking_line, hears, fragments_line};
ghost use Rattle.lk_status_reasons.specs.Reasons.{seeking_reason, other_key_line, cut_off_line, unheard_reason};
ghost use Rattle.lk_status_reasons.specs.Reasons.{hearing_reason, candidate_reason, deaf_leader_line, follower_reason};
ghost use Rattle.lk_status_reasons.specs.Reasons.{outside_line, node_reason};

use lk_probe::Report;
use lk_status::verdict::{hears_enough, seeks_votes};
use lk_types::{Member, NodeNo};
use std::io;
use std::io::Write;

/// Ticks of silence after which a node is said to hear nobody: the last of seven members waits as long before it seeks
/// votes.
pub const SILENT: u64 = 28;

/// Whether that node is one of these members.
pub fn is_among(node: NodeNo, members: &[Member]) -> bool
    ensures { result ≡ is_member node members.now }
{
    members.iter().any(|member| member.node == node)
}

/// Whether a node says that it hears a majority of the members that it names.
pub fn hears(report: &Report) -> bool
    ensures { result ≡ hears report.now }
{
    report.heard().is_some() && hears_enough(report)
}

// Writes that a node seeks votes.
fn write_seeking<W: Write>(node: NodeNo, out: &mut W) -> io::Result<()>
    ensures { OnOk result (Appends (W.contents out.old) (W.contents out.new) (seeking_line node)) }
{
    let node = node.get();
    writeln!(
        out,
        "why: node {node} seeks votes: if that lasts, check its --port, the hosts and the keys"
    )?;
    Ok(())
}

// Writes that a node hears nobody.
fn write_deaf<W: Write>(node: NodeNo, out: &mut W) -> io::Result<()>
    ensures { OnOk result (Appends (W.contents out.old) (W.contents out.new) (deaf_line node)) }
{
    let node = node.get();
    writeln!(
        out,
        "why: node {node} hears nobody: check its --port, the hosts and the keys"
    )?;
    Ok(())
}

// Writes that a node seeks votes though it hears a majority.
fn write_fragments<W: Write>(node: NodeNo, out: &mut W) -> io::Result<()>
    ensures { OnOk result (Appends (W.contents out.old) (W.contents out.new) (fragments_line node)) }
{
    let node = node.get();
    writeln!(
        out,
        "why: node {node} seeks votes, and hears a majority: if that lasts, let long datagrams pass (fragments)"
    )?;
    Ok(())
}

// Writes that a node seeks votes, and what may keep them from it.
fn write_seeker<W: Write>(report: &Report, out: &mut W) -> io::Result<()>
    ensures { OnOk result (Appends (W.contents out.old) (W.contents out.new) (seeking_reason report.now)) }
{
    if hears(report) {
        write_fragments(report.node, out)?;
    } else {
        write_seeking(report.node, out)?;
    }
    Ok(())
}

// Writes the same, but not if the election has just begun.
fn write_candidate<W: Write>(is_early: bool, report: &Report, out: &mut W) -> io::Result<()>
    ensures { OnOk result (Appends (W.contents out.old) (W.contents out.new) (candidate_reason is_early report.now)) }
{
    if !is_early {
        write_seeker(report, out)?;
    }
    Ok(())
}

// Writes that a node hears no majority, and could not read so many datagrams.
fn write_other_key<W: Write>(node: NodeNo, unread: u64, out: &mut W) -> io::Result<()>
    ensures { OnOk result (Appends (W.contents out.old) (W.contents out.new) (other_key_line node unread)) }
{
    let node = node.get();
    writeln!(
        out,
        "why: node {node} hears no majority, and could not read {unread} of what came: compare its key with the others'"
    )?;
    Ok(())
}

// Writes that a node hears no majority.
fn write_cut_off<W: Write>(node: NodeNo, out: &mut W) -> io::Result<()>
    ensures { OnOk result (Appends (W.contents out.old) (W.contents out.new) (cut_off_line node)) }
{
    let node = node.get();
    writeln!(
        out,
        "why: node {node} hears no majority: if that lasts, check its --port, the hosts and its network"
    )?;
    Ok(())
}

// Writes that a node that leads hears no majority.
fn write_deaf_leader<W: Write>(leader: NodeNo, out: &mut W) -> io::Result<()>
    ensures { OnOk result (Appends (W.contents out.old) (W.contents out.new) (deaf_leader_line leader)) }
{
    let node = leader.get();
    writeln!(
        out,
        "why: node {node}, which leads, hears no majority: check what keeps the members' datagrams from it"
    )?;
    Ok(())
}

// Writes that a node that does not lead hears no majority, and what may be the cause.
fn write_deaf_follower<W: Write>(report: &Report, out: &mut W) -> io::Result<()>
    ensures { OnOk result (Appends (W.contents out.old) (W.contents out.new) (follower_reason report.now)) }
{
    let unread = report.status.traffic.unread;
    if unread == 0 {
        write_cut_off(report.node, out)?;
    } else {
        write_other_key(report.node, unread, out)?;
    }
    Ok(())
}

// Writes that a node hears no majority: one that leads, also if it is no longer the leader that others follow, or
// another one.
fn write_unheard<W: Write>(report: &Report, out: &mut W) -> io::Result<()>
    ensures { OnOk result (Appends (W.contents out.old) (W.contents out.new) (unheard_reason report.now)) }
{
    if report.status.leadership.leads {
        write_deaf_leader(report.node, out)?;
    } else {
        write_deaf_follower(report, out)?;
    }
    Ok(())
}

// Writes that a node hears no majority, seeks votes, or hears nobody, if it does.
fn write_hearing<W: Write>(is_early: bool, report: &Report, out: &mut W) -> io::Result<()>
    ensures { OnOk result (Appends (W.contents out.old) (W.contents out.new) (hearing_reason is_early report.now)) }
{
    let leadership = &report.status.leadership;
    if !hears_enough(report) {
        write_unheard(report, out)?;
    } else if seeks_votes(report) {
        write_candidate(is_early, report, out)?;
    } else if !leadership.leads && leadership.silence >= SILENT {
        write_deaf(report.node, out)?;
    }
    Ok(())
}

// Writes that a node is no member.
fn write_outside<W: Write>(node: NodeNo, out: &mut W) -> io::Result<()>
    ensures { OnOk result (Appends (W.contents out.old) (W.contents out.new) (outside_line node)) }
{
    let node = node.get();
    writeln!(
        out,
        "why: node {node} is not a member: it has left, or has to join"
    )?;
    Ok(())
}

/// Writes that a node is not a member. Of a member it writes what it hears, but only if a majority is up: without one
/// nobody can lead, and hearing nobody shows nothing. It does not write that a member seeks votes if the election has
/// just begun.
pub fn write_node<W: Write>(
    majority: bool,
    is_early: bool,
    members: &[Member],
    report: &Report,
    out: &mut W,
) -> io::Result<()>
    ensures { OnOk result (Appends (W.contents out.old) (W.contents out.new)
        (node_reason majority is_early members.now report.now)) }
{
    if !is_among(report.node, members) {
        write_outside(report.node, out)?;
    } else if majority {
        write_hearing(is_early, report, out)?;
    }
    Ok(())
}
