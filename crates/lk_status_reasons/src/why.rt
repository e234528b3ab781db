// The lines `why: ..` after those of the status: what may keep requests from being answered, and the remedy.
ghost use Rattle.std.specs.Io.KnownBytes.{Appends};
ghost use Rattle.std.specs.List.{list_all};
ghost use Rattle.std.specs.Option.{option_copied};
ghost use Rattle.std.specs.Prelude.{◌≡◌, OnOk, flat_map, is_some};
ghost use Rattle.lk_status_reasons.specs.Reasons.{follows, followed, hears, node_reasons, nobody_line, majority_line};
ghost use Rattle.lk_status_reasons.specs.Reasons.{mute_text, silent_text, unless_reported, silent_in, cause_text};
ghost use Rattle.lk_status_reasons.specs.Reasons.{followed_text, has_candidate, is_candidate, not_yet_text};
ghost use Rattle.lk_status_reasons.specs.Reasons.{remedy_text, leaderless_line, unfollowed_line, unfollowed_reason};
ghost use Rattle.lk_status_reasons.specs.Reasons.{geneses_reason, leader_reason, leaders_reason, members_reason, reads};
ghost use Rattle.lk_status_reasons.specs.Reasons.{sends, some_send, unread_reason, bundles_reason, shown_text};
ghost use Rattle.lk_status_reasons.specs.Reasons.{why_text};

use crate::node_reason::{SILENT, hears, write_node};
use crate::state_reason::write_states;
use lk_probe::Report;
use lk_status::verdict::{
    has_followers, has_majority, has_one_genesis, has_reported, hears_enough, seeks_votes,
};
use lk_types::{Member, NodeNo};
use std::io;
use std::io::Write;

// The ticks without a leader after which the first member begins to seek votes.
const FIRST: u64 = 4;

// Whether a node follows a leader, of which it has heard in the last 28 ticks.
fn follows(report: &Report) -> bool
    ensures { result ≡ follows report.now }
{
    let leadership = &report.status.leadership;
    leadership.leader.is_some() && leadership.silence < SILENT && !seeks_votes(report)
}

// Returns the leader of the first of these nodes that follows one, `None` if none does.
fn followed_in(reports: &[Report]) -> Option<NodeNo>
    ensures { result ≡ followed reports.now }
{
    for report in reports {
        if follows(report) {
            return report.status.leadership.leader;
        }
    }
    None
}

// Writes that nobody answers.
fn write_nobody<W: Write>(out: &mut W) -> io::Result<()>
    ensures { OnOk result (Appends (W.contents out.old) (W.contents out.new) nobody_line) }
{
    out.write_all(
        b"why: nobody answers: no node runs there, or it has another cluster number or other keys\n",
    )?;
    Ok(())
}

// Writes that too few answer.
fn write_no_majority<W: Write>(out: &mut W) -> io::Result<()>
    ensures { OnOk result (Appends (W.contents out.old) (W.contents out.new) majority_line) }
{
    out.write_all(
        b"why: no majority: ask every member, and start those that are down, on their own folders\n",
    )?;
    Ok(())
}

// Writes that the reports name two geneses, if they do.
fn write_geneses<W: Write>(reports: &[Report], out: &mut W) -> io::Result<()>
    ensures { OnOk result (Appends (W.contents out.old) (W.contents out.new) (geneses_reason reports.now)) }
{
    if !has_one_genesis(reports) {
        out.write_all(
            b"why: two geneses: stop the nodes that were started with another --genesis\n",
        )?;
    }
    Ok(())
}

// Writes who keeps a leader from being elected: a node that others follow though it does not lead, so it sends and
// hears nobody. Without such a node, all members.
fn write_mute<W: Write>(node: Option<NodeNo>, out: &mut W) -> io::Result<()>
    ensures { OnOk result (Appends (W.contents out.old) (W.contents out.new) (mute_text node)) }
{
    match node {
        Some(node) => writeln!(
            out,
            "node {} sends and hears nobody: stop it, and check its --port, the hosts and the keys",
            node.get()
        )?,
        None => out.write_all(b"the members do not hear each other\n")?,
    }
    Ok(())
}

// Whether a node seeks votes, and has run long enough for that.
fn is_candidate(report: &Report) -> bool
    ensures { result ≡ is_candidate report.now }
{
    seeks_votes(report) && report.status.traffic.ticks >= FIRST
}

// Whether that node reports so.
fn has_candidate(node: NodeNo, reports: &[Report]) -> bool
    ensures { result ≡ has_candidate node reports.now }
{
    reports
        .iter()
        .any(|report| report.node == node && is_candidate(report))
}

// Writes that a node, which others follow, does not lead yet: what it hears shows later.
fn write_not_yet<W: Write>(node: NodeNo, out: &mut W) -> io::Result<()>
    ensures { OnOk result (Appends (W.contents out.old) (W.contents out.new) (not_yet_text node)) }
{
    let node = node.get();
    writeln!(
        out,
        "look again: node {node}, which others follow, does not lead yet"
    )
}

// Writes what keeps a leader from being elected, where that node is followed, if one is.
fn write_followed<W: Write>(node: Option<NodeNo>, reports: &[Report], out: &mut W) -> io::Result<()>
    ensures { OnOk result (Appends (W.contents out.old) (W.contents out.new) (followed_text node reports.now)) }
{
    match node {
        Some(node) if !has_candidate(node, reports) => write_not_yet(node, out)?,
        _ => write_mute(node, out)?,
    }
    Ok(())
}

// Whether each of these nodes says that it hears a majority.
fn all_hear(reports: &[Report]) -> bool
    ensures { result ≡ list_all hears reports.now }
{
    reports.iter().all(hears)
}

// Writes why nobody leads if that lasts, where the node that is followed answers, or none is: the members hear each
// other, or else see `write_followed`.
fn write_cause<W: Write>(reports: &[Report], out: &mut W) -> io::Result<()>
    ensures { OnOk result (Appends (W.contents out.old) (W.contents out.new) (cause_text reports.now)) }
{
    if all_hear(reports) {
        out.write_all(b"let long datagrams pass (fragments): the members hear each other\n")?;
    } else {
        write_followed(followed_in(reports), reports, out)?;
    }
    Ok(())
}

// Returns the node, if there is one and it has not reported.
fn unless_reported(node: Option<NodeNo>, reports: &[Report]) -> Option<NodeNo>
    ensures { result ≡ unless_reported node reports.now }
{
    match node {
        Some(node) if !has_reported(node, reports) => Some(node),
        _ => None,
    }
}

// Returns the node that the first of these nodes that follows one follows, if it does not answer. So it is shortly
// after a leader has died.
fn silent_in(reports: &[Report]) -> Option<NodeNo>
    ensures { result ≡ silent_in reports.now }
{
    unless_reported(followed_in(reports), reports)
}

// Whether the election may have just begun: a node is followed that does not answer.
fn is_early(reports: &[Report]) -> bool
    ensures { result ≡ is_some (silent_in reports.now) }
{
    silent_in(reports).is_some()
}

// Writes that a node is followed and does not answer.
fn write_silent<W: Write>(node: NodeNo, out: &mut W) -> io::Result<()>
    ensures { OnOk result (Appends (W.contents out.old) (W.contents out.new) (silent_text node)) }
{
    let node = node.get();
    writeln!(
        out,
        "node {node}, which others follow, does not answer: stop it, and check its --port, the hosts and the keys"
    )?;
    Ok(())
}

// Writes what to do if it lasts that nobody leads. `silent` is the node that is followed and does not answer.
fn write_remedy<W: Write>(silent: Option<NodeNo>, reports: &[Report], out: &mut W) -> io::Result<()>
    ensures { OnOk result (Appends (W.contents out.old) (W.contents out.new) (remedy_text silent reports.now)) }
{
    match silent {
        Some(node) => write_silent(node, out)?,
        None => write_cause(reports, out)?,
    }
    Ok(())
}

// Writes that nobody leads, and what to do if it lasts.
#[tactic(auto, using(lk_types::proofs::Appending::appends_more))]
fn write_leaderless<W: Write>(reports: &[Report], out: &mut W) -> io::Result<()>
    ensures { OnOk result (Appends (W.contents out.old) (W.contents out.new) (leaderless_line reports.now)) }
{
    out.write_all(b"why: nobody leads: an election takes seconds; if it lasts, ")?;
    write_remedy(silent_in(reports), reports, out)?;
    Ok(())
}

// Writes that no majority follows a node that leads.
fn write_unfollowed_line<W: Write>(leader: NodeNo, out: &mut W) -> io::Result<()>
    ensures { OnOk result (Appends (W.contents out.old) (W.contents out.new) (unfollowed_line leader)) }
{
    let node = leader.get();
    writeln!(
        out,
        "why: no majority follows node {node}, which leads: they do not hear it, or it does not hear them"
    )
}

// Writes that no majority follows a leader that hears one, if that is so. Of one that hears none its own line says it.
fn write_unfollowed<W: Write>(leader: &Report, reports: &[Report], out: &mut W) -> io::Result<()>
    ensures { OnOk result (Appends (W.contents out.old) (W.contents out.new)
        (unfollowed_reason leader.now reports.now)) }
{
    if hears_enough(leader) && !has_followers(leader, reports) {
        write_unfollowed_line(leader.node, out)?;
    }
    Ok(())
}

// Writes that nobody leads, if the measure does not, or else that no majority follows it, if that is so. The measure is
// the report with which the others are compared.
fn write_unled<W: Write>(measure: &Report, reports: &[Report], out: &mut W) -> io::Result<()>
    ensures { OnOk result (Appends (W.contents out.old) (W.contents out.new) (leader_reason measure.now reports.now)) }
{
    if measure.status.leadership.leads {
        write_unfollowed(measure, reports, out)?;
    } else {
        write_leaderless(reports, out)?;
    }
    Ok(())
}

// Writes the same of each of these nodes that it applies to.
fn write_nodes<W: Write>(
    majority: bool,
    is_early: bool,
    members: &[Member],
    reports: &[Report],
    out: &mut W,
) -> io::Result<()>
    ensures { OnOk result (Appends (W.contents out.old) (W.contents out.new)
        (node_reasons majority is_early members.now reports.now)) }
{
    'all: for report in reports {
        write_node(majority, is_early, members, report, out)?;
    }
    Ok(())
}

// Writes that there is no majority, or else that nobody leads, if that is so.
fn write_leaders<W: Write>(
    majority: bool,
    measure: &Report,
    reports: &[Report],
    out: &mut W,
) -> io::Result<()>
    ensures { OnOk result (Appends (W.contents out.old) (W.contents out.new)
        (leaders_reason majority measure.now reports.now)) }
{
    if majority {
        write_unled(measure, reports, out)?;
    } else {
        write_no_majority(out)?;
    }
    Ok(())
}

// Writes what the reports show about majority and leader, then about single nodes, by the members of the measure.
#[tactic(auto, using(lk_types::proofs::Appending::appends_more))]
fn write_reasons<W: Write>(measure: &Report, reports: &[Report], out: &mut W) -> io::Result<()>
    ensures { OnOk result (Appends (W.contents out.old) (W.contents out.new) (members_reason measure.now reports.now)) }
{
    let majority = has_majority(measure, reports);
    write_leaders(majority, measure, reports, out)?;
    let is_early = is_early(reports);
    let members = measure.status.members.as_slice();
    write_nodes(majority, is_early, members, reports, out)?;
    Ok(())
}

// Whether a node says that it sends bundles.
fn sends(report: &Report) -> bool
    ensures { result ≡ sends report.now.reach }
{
    match &report.reach {
        Some(reach) => reach.sends_bundles,
        None => false,
    }
}

// Whether a node says that it reads bundles.
fn reads(report: &Report) -> bool
    ensures { result ≡ reads report.now.reach }
{
    match &report.reach {
        Some(reach) => reach.reads_bundles,
        None => false,
    }
}

// Whether one of these nodes says that it sends bundles.
fn some_send(reports: &[Report]) -> bool
    ensures { result ≡ some_send reports.now }
{
    for report in reports {
        if sends(report) {
            return true;
        }
    }
    false
}

// Writes that a node may not read bundles, if it does not say that it does.
fn write_unread<W: Write>(report: &Report, out: &mut W) -> io::Result<()>
    ensures { OnOk result (Appends (W.contents out.old) (W.contents out.new) (unread_reason report.now)) }
{
    if !reads(report) {
        writeln!(
            out,
            "why: node {} may not read the bundles of others: start it with this program, or them without --bundle",
            report.node.get()
        )?;
    }
    Ok(())
}

// Writes the same of each of these nodes that it applies to.
fn write_all_unread<W: Write>(reports: &[Report], out: &mut W) -> io::Result<()>
    ensures { OnOk result (Appends (W.contents out.old) (W.contents out.new) (flat_map unread_reason reports.now)) }
{
    'all: for report in reports {
        write_unread(report, out)?;
    }
    Ok(())
}

// Writes which nodes may not read bundles, if one of the nodes sends them.
fn write_bundles<W: Write>(reports: &[Report], out: &mut W) -> io::Result<()>
    ensures { OnOk result (Appends (W.contents out.old) (W.contents out.new) (bundles_reason reports.now)) }
{
    if some_send(reports) {
        write_all_unread(reports, out)?;
    }
    Ok(())
}

// Writes what the reports show, by the members of the measure: two geneses, states that differ, what is wrong with
// majority, leader and nodes, and who may not read bundles.
fn write_shown<W: Write>(measure: &Report, reports: &[Report], out: &mut W) -> io::Result<()>
    ensures { OnOk result (Appends (W.contents out.old) (W.contents out.new) (shown_text measure.now reports.now)) }
{
    write_geneses(reports, out)?;
    write_states(reports, out)?;
    write_reasons(measure, reports, out)?;
    write_bundles(reports, out)?;
    Ok(())
}

/// Writes in words why requests may not be answered, if the reports show it.
pub fn write_why<W: Write>(
    measure: Option<&Report>,
    reports: &[Report],
    out: &mut W,
) -> io::Result<()>
    ensures { OnOk result (Appends (W.contents out.old) (W.contents out.new)
        (why_text (option_copied measure.entry) reports.now)) }
{
    match measure {
        Some(measure) => write_shown(measure, reports, out)?,
        None => write_nobody(out)?,
    }
    Ok(())
}
