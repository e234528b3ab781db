// The default form of a status: a line for each target, and one for the cluster. `most` is how many positions the
// measure has executed: the report with which the others are compared.
ghost use Rattle.std.specs.Io.KnownBytes.{Appends};
ghost use Rattle.std.specs.Option.{option_copied};
ghost use Rattle.std.specs.Prelude.{◌≡◌, OnOk};
ghost use Rattle.lk_status_command.specs.Lines.{one_or_many};
ghost use Rattle.lk_status_command.specs.Lines.{heard_text, unled_text, alone_text, followed_text, following_text};
ghost use Rattle.lk_status_command.specs.Lines.{leadership_text, executed_text, snapshot_text, behind_text};
ghost use Rattle.lk_status_command.specs.Lines.{promised_text, progress_text, members_text};
ghost use Rattle.lk_status_command.specs.Lines.{count_text, traffic_text, watches_text, kept_text, node_line};
ghost use Rattle.lk_status_command.specs.Lines.{asked_node, silent_place, silent_line, target_line, target_lines};
ghost use Rattle.lk_status_command.specs.Lines.{stranger_word, few_text, hearing_text, greater, most_names};
ghost use Rattle.lk_status_command.specs.Lines.{names_text, strangers_text, raised_text, majority_text, cluster_line};
ghost use Rattle.lk_status_command.specs.Lines.{status_text};
ghost use Rattle.lk_status.specs.Targets.{target_address};

use crate::field::{names_kept, watches_kept};
use lk_probe::Report;
use lk_status::measure::executed_of;
use lk_status::target::{Inquiry, Target, report_with};
use lk_status::verdict::{count_reporting, has_one_genesis, seeks_votes};
use lk_status_reasons::node_reason::is_among;
use lk_types::limits::MAX_NAMES;
use lk_types::{Ballot, Member, NodeNo};
use std::io;
use std::io::Write;

// The words for a count: `one` for 1, else `many`.
fn one_or_many<'a>(count: u64, one: &'a str, many: &'a str) -> &'a str
    ensures { result.now ≡ one_or_many count one.now many.now }
{
    if count == 1 { one } else { many }
}

// Writes whom a node follows and when it heard of that leader: `follows 1, heard 2 ticks ago`.
fn write_heard<W: Write>(leader: NodeNo, ticks: u64, out: &mut W) -> io::Result<()>
    ensures { OnOk result (Appends (W.contents out.old) (W.contents out.new) (heard_text leader ticks)) }
{
    let (leader, unit) = (leader.get(), one_or_many(ticks, "tick", "ticks"));
    write!(out, "follows {leader}, heard {ticks} {unit} ago")
}

// Writes how long a node has known no leader: `knows no leader for 28 ticks`.
fn write_unled<W: Write>(ticks: u64, out: &mut W) -> io::Result<()>
    ensures { OnOk result (Appends (W.contents out.old) (W.contents out.new) (unled_text ticks)) }
{
    let unit = one_or_many(ticks, "tick", "ticks");
    write!(out, "knows no leader for {ticks} {unit}")
}

// Writes that a node is none of the members that it names, or else how long it has known no leader.
fn write_alone<W: Write>(report: &Report, out: &mut W) -> io::Result<()>
    ensures { OnOk result (Appends (W.contents out.old) (W.contents out.new) (alone_text report.now)) }
{
    if is_among(report.node, report.status.members.as_slice()) {
        write_unled(report.status.leadership.silence, out)?;
    } else {
        out.write_all(b"is not a member")?;
    }
    Ok(())
}

// Writes whom a node follows, or that it knows no leader.
fn write_followed<W: Write>(leader: Option<NodeNo>, report: &Report, out: &mut W) -> io::Result<()>
    ensures { OnOk result (Appends (W.contents out.old) (W.contents out.new) (followed_text leader report.now)) }
{
    match leader {
        Some(leader) => write_heard(leader, report.status.leadership.silence, out)?,
        None => write_alone(report, out)?,
    }
    Ok(())
}

// Writes that a node leads, or whom it follows.
fn write_following<W: Write>(report: &Report, out: &mut W) -> io::Result<()>
    ensures { OnOk result (Appends (W.contents out.old) (W.contents out.new) (following_text report.now)) }
{
    if report.status.leadership.leads {
        out.write_all(b"leads")?;
        return Ok(());
    }
    write_followed(report.status.leadership.leader, report, out)?;
    Ok(())
}

// Writes that a node `seeks votes`, or whom it follows.
fn write_leadership<W: Write>(report: &Report, out: &mut W) -> io::Result<()>
    ensures { OnOk result (Appends (W.contents out.old) (W.contents out.new) (leadership_text report.now)) }
{
    if seeks_votes(report) {
        out.write_all(b"seeks votes")?;
        return Ok(());
    }
    write_following(report, out)?;
    Ok(())
}

// Writes how many of its members a node hears, if they are no majority: `, hears 1 of 3 members, no majority`.
fn write_heard_few<W: Write>(heard: Option<u8>, count: usize, out: &mut W) -> io::Result<()>
    ensures { OnOk result (Appends (W.contents out.old) (W.contents out.new) (few_text heard count)) }
{
    match heard {
        Some(heard) if count >= 2 * heard as usize => {
            write!(out, ", hears {heard} of {count} members, no majority")?;
        }
        _ => {}
    }
    Ok(())
}

// Writes how many of the members a node hears, if they are no majority and its report says it.
fn write_hearing<W: Write>(report: &Report, out: &mut W) -> io::Result<()>
    ensures { OnOk result (Appends (W.contents out.old) (W.contents out.new) (hearing_text report.now)) }
{
    let count = report.status.members.as_slice().len();
    write_heard_few(report.heard(), count, out)?;
    Ok(())
}

// Writes the node numbers of the members.
fn write_members<W: Write>(members: &[Member], out: &mut W) -> io::Result<()>
    ensures { OnOk result (Appends (W.contents out.old) (W.contents out.new) (members_text members.now)) }
{
    out.write_all(b", members")?;
    'members: for member in members {
        write!(out, " {}", member.node.get())?;
    }
    Ok(())
}

// Writes how many positions a node has executed.
fn write_executed<W: Write>(report: &Report, out: &mut W) -> io::Result<()>
    ensures { OnOk result (Appends (W.contents out.old) (W.contents out.new) (executed_text report.now)) }
{
    write!(out, ", executed {}", report.status.progress.executed.get())
}

// Writes the position of a node's snapshot.
fn write_snapshot<W: Write>(report: &Report, out: &mut W) -> io::Result<()>
    ensures { OnOk result (Appends (W.contents out.old) (W.contents out.new) (snapshot_text report.now)) }
{
    write!(out, ", snapshot {}", report.status.progress.snapshot.get())
}

// Writes how many positions fewer than `most` a node has executed, ` (3 behind)`, or nothing if it is not behind.
fn write_behind<W: Write>(executed: u64, most: u64, out: &mut W) -> io::Result<()>
    ensures { OnOk result (Appends (W.contents out.old) (W.contents out.new) (behind_text executed most)) }
{
    if executed < most {
        write!(out, " ({} behind)", most - executed)?;
    }
    Ok(())
}

// Writes the ballot that a node has promised.
fn write_promised<W: Write>(promised: Ballot, out: &mut W) -> io::Result<()>
    ensures { OnOk result (Appends (W.contents out.old) (W.contents out.new) (promised_text promised)) }
{
    write!(out, ", promised {}.{}", promised.round(), promised.node())
}

// Writes a node's progress: the positions that it has executed, how far it is behind, the ballot that it has promised,
// and its snapshot.
fn write_progress<W: Write>(report: &Report, most: u64, out: &mut W) -> io::Result<()>
    ensures { OnOk result (Appends (W.contents out.old) (W.contents out.new) (progress_text report.now most)) }
{
    write_executed(report, out)?;
    write_behind(report.status.progress.executed.get(), most, out)?;
    write_promised(report.status.leadership.promised, out)?;
    write_snapshot(report, out)?;
    Ok(())
}

// Writes a comma, `front`, the count and its words, or nothing for 0: `, 1 request waits`, `, 2 requests wait`.
fn write_count<W: Write>(
    front: &str,
    count: u64,
    one: &str,
    many: &str,
    out: &mut W,
) -> io::Result<()>
    ensures { OnOk result (Appends (W.contents out.old) (W.contents out.new)
        (count_text front.now count one.now many.now)) }
{
    if count > 0 {
        let words = one_or_many(count, one, many);
        write!(out, ", {front}{count} {words}")?;
    }
    Ok(())
}

// Writes the pending change of the members, the waiting requests and the failed sends, each only if it is not 0.
fn write_traffic<W: Write>(report: &Report, out: &mut W) -> io::Result<()>
    ensures { OnOk result (Appends (W.contents out.old) (W.contents out.new) (traffic_text report.now)) }
{
    let traffic = &report.status.traffic;
    let pending = u64::from(report.status.progress.pending);
    write_count(
        "a change takes effect in ",
        pending,
        "position",
        "positions",
        out,
    )?;
    write_count(
        "",
        u64::from(traffic.waiting),
        "request waits",
        "requests wait",
        out,
    )?;
    write_count("", traffic.unsent, "send failed", "sends failed", out)?;
    Ok(())
}

// Writes how many watches a node keeps, `, watches 3`, or nothing for 0 or if it does not say it.
fn write_watches<W: Write>(watches: Option<u64>, out: &mut W) -> io::Result<()>
    ensures { OnOk result (Appends (W.contents out.old) (W.contents out.new) (watches_text watches)) }
{
    match watches {
        Some(watches) if watches > 0 => write!(out, ", watches {watches}")?,
        _ => {}
    }
    Ok(())
}

// Writes how many watches the node of a report keeps, if it keeps any and says it.
fn write_kept<W: Write>(report: &Report, out: &mut W) -> io::Result<()>
    ensures { OnOk result (Appends (W.contents out.old) (W.contents out.new) (kept_text report.now)) }
{
    write_watches(watches_kept(&report.reach), out)?;
    Ok(())
}

// Writes the line of a node.
fn write_node<W: Write>(port: u16, report: &Report, most: u64, out: &mut W) -> io::Result<()>
    ensures { OnOk result (Appends (W.contents out.old) (W.contents out.new) (node_line port report.now most)) }
{
    write!(out, "node {}, port {port}: ", report.node.get())?;
    write_leadership(report, out)?;
    write_hearing(report, out)?;
    write_progress(report, most, out)?;
    write_members(report.status.members.as_slice(), out)?;
    write_traffic(report, out)?;
    write_kept(report, out)?;
    out.write_all(b"\n")?;
    Ok(())
}

// Writes the number of the node that was asked, or nothing if it was asked by its port alone.
fn write_asked_node<W: Write>(node: Option<NodeNo>, out: &mut W) -> io::Result<()>
    ensures { OnOk result (Appends (W.contents out.old) (W.contents out.new) (asked_node node)) }
{
    if let Some(node) = node {
        write!(out, "node {}, ", node.get())?;
    }
    Ok(())
}

// Writes the port of a target that has not answered, and the address.
fn write_silent_place<W: Write>(inquiry: &Inquiry, target: &Target, out: &mut W) -> io::Result<()>
    ensures { OnOk result (Appends (W.contents out.old) (W.contents out.new)
        (silent_place (target_address inquiry.now target.now) target.now.port)) }
{
    let address = inquiry.address_of(target).ip();
    let port = target.port.get();
    writeln!(out, "port {port}: no answer from {address}")
}

// Writes the line of a target that has not answered.
fn write_silent<W: Write>(inquiry: &Inquiry, target: &Target, out: &mut W) -> io::Result<()>
    ensures { OnOk result (Appends (W.contents out.old) (W.contents out.new) (silent_line inquiry.now target.now)) }
{
    write_asked_node(target.node, out)?;
    write_silent_place(inquiry, target, out)?;
    Ok(())
}

// Writes the line of a target: that of its node, or that it has not answered.
fn write_target<W: Write>(
    inquiry: &Inquiry,
    target: &Target,
    report: Option<&Report>,
    most: u64,
    out: &mut W,
) -> io::Result<()>
    ensures { OnOk result (Appends (W.contents out.old) (W.contents out.new)
        (target_line inquiry.now target.now (option_copied report.entry) most)) }
{
    match report {
        Some(report) => write_node(target.port.get(), report, most, out)?,
        None => write_silent(inquiry, target, out)?,
    }
    Ok(())
}

// Writes a line for each target. The report of the first has the token `first`, that of each other the next token.
fn write_targets<W: Write>(
    inquiry: &Inquiry,
    first: u64,
    reports: &[Report],
    most: u64,
    out: &mut W,
) -> io::Result<()>
    ensures { OnOk result (Appends (W.contents out.old) (W.contents out.new)
        (target_lines first inquiry.now reports.now most)) }
{
    let mut token = first;
    let targets = inquiry.targets.as_slice();
    'targets: for target in targets {
        write_target(inquiry, target, report_with(reports, token), most, out)?;
        token = token.wrapping_add(1);
    }
    Ok(())
}

// Writes the number of a report's node if it names another genesis than the measure.
fn write_stranger<W: Write>(measure: &Report, report: &Report, out: &mut W) -> io::Result<()>
    ensures { OnOk result (Appends (W.contents out.old) (W.contents out.new) (stranger_word measure.now report.now)) }
{
    if report.status.identity.genesis != measure.status.identity.genesis {
        write!(out, " {}", report.node.get())?;
    }
    Ok(())
}

// Writes which nodes name another genesis than the measure, or nothing if all name one.
fn write_strangers<W: Write>(measure: &Report, reports: &[Report], out: &mut W) -> io::Result<()>
    ensures { OnOk result (Appends (W.contents out.old) (W.contents out.new) (strangers_text measure.now reports.now)) }
{
    if has_one_genesis(reports) {
        return Ok(());
    }
    out.write_all(b"; genesis differs:")?;
    'all: for report in reports {
        write_stranger(measure, report, out)?;
    }
    Ok(())
}

// Writes `; raised` if the measure's lock table has version 2.
fn write_raised<W: Write>(measure: &Report, out: &mut W) -> io::Result<()>
    ensures { OnOk result (Appends (W.contents out.old) (W.contents out.new) (raised_text measure.now)) }
{
    if measure.status.identity.table >= 2 {
        out.write_all(b"; raised")?;
    }
    Ok(())
}

// Returns the greater of two numbers, of those that there are.
fn greater(one: Option<u64>, other: Option<u64>) -> Option<u64>
    ensures { result ≡ greater one other }
{
    match (one, other) {
        (None, other) => other,
        (one, None) => one,
        (Some(one), Some(other)) if one < other => Some(other),
        (one, _) => one,
    }
}

// Returns the greatest number of names that a node says its lock table has, `None` if none says it.
fn most_names(reports: &[Report]) -> Option<u64>
    ensures { result ≡ most_names None reports.now }
{
    let mut most = None;
    for report in reports {
        most = greater(most, names_kept(&report.reach));
    }
    most
}

// Writes how many names the lock table has, `; names 12 of 512`, or nothing if that is not known.
fn write_names<W: Write>(names: Option<u64>, out: &mut W) -> io::Result<()>
    ensures { OnOk result (Appends (W.contents out.old) (W.contents out.new) (names_text names)) }
{
    if let Some(names) = names {
        write!(out, "; names {names} of {MAX_NAMES}")?;
    }
    Ok(())
}

// Writes how many of the measure's members have reported: `majority: 2 of 3 up`.
fn write_majority<W: Write>(measure: &Report, reports: &[Report], out: &mut W) -> io::Result<()>
    ensures { OnOk result (Appends (W.contents out.old) (W.contents out.new) (majority_text measure.now reports.now)) }
{
    let members = measure.status.members.as_slice();
    let (up, count) = (count_reporting(members, reports), members.len());
    write!(out, "majority: {up} of {count} up")
}

// Writes the line of the cluster, if any node reports: `majority: 2 of 3 up; names 12 of 512; genesis differs: 4`.
fn write_cluster<W: Write>(
    measure: Option<&Report>,
    reports: &[Report],
    out: &mut W,
) -> io::Result<()>
    ensures { OnOk result (Appends (W.contents out.old) (W.contents out.new)
        (cluster_line (option_copied measure.entry) reports.now)) }
{
    let Some(measure) = measure else {
        return Ok(());
    };
    write_majority(measure, reports, out)?;
    write_names(most_names(reports), out)?;
    write_raised(measure, out)?;
    write_strangers(measure, reports, out)?;
    out.write_all(b"\n")?;
    Ok(())
}

/// Writes a line for each target, and one for the cluster if any node reports. `first` is the token of the first
/// target, `measure` the report with which the others are compared.
pub fn write_lines<W: Write>(
    inquiry: &Inquiry,
    first: u64,
    reports: &[Report],
    measure: Option<&Report>,
    out: &mut W,
) -> io::Result<()>
    ensures { OnOk result (Appends (W.contents out.old) (W.contents out.new)
        (status_text first inquiry.now reports.now (option_copied measure.entry))) }
{
    write_targets(inquiry, first, reports, executed_of(measure), out)?;
    write_cluster(measure, reports, out)?;
    Ok(())
}
