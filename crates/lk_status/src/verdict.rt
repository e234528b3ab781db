//! Judges the reports of a round: whether the cluster is served, and whether all nodes are ready.

ghost use Rattle.std.specs.Prelude.{◌≡◌, ◌↔◌, ◌≤◌, IsTrue, length};
ghost use Rattle.lk_status.specs.Verdicts.{IsServed, seeks_votes, has_reported, count_reporting, has_majority};
ghost use Rattle.lk_status.specs.Verdicts.{all_follow, count_followers, follows, has_follower, has_followers};
ghost use Rattle.lk_status.specs.Verdicts.{hears_enough, is_enough, is_led_by, is_same_ballot, leads_all, names};
ghost use Rattle.lk_status.specs.Verdicts.{some_leads, all_name, one_genesis, is_served, all_have, is_ready};

use crate::states::has_one_state;
use lk_probe::{DIGEST, Report};
use lk_types::{Member, NodeNo};

// A node that has heard of a leader within so many ticks follows it.
const FRESH: u64 = 8;

/// Whether that node is among those that report.
pub fn has_reported(node: NodeNo, reports: &[Report]) -> bool
    ensures { result ≡ has_reported node reports.now }
{
    for report in reports {
        if report.node == node {
            return true;
        }
    }
    false
}

/// Returns how many of these members have reported.
pub fn count_reporting(members: &[Member], reports: &[Report]) -> usize
    ensures value { result ≡ count_reporting members.now reports.now }
    ensures most { result ≤ length members.now }
{
    let mut count = 0;
    for member in members {
        if has_reported(member.node, reports) {
            count += 1;
        }
    }
    count
}

/// Whether a node is a candidate: it does not lead, has promised a ballot of its own, and its silence is 0. A node with
/// a term counts no silence.
pub fn seeks_votes(report: &Report) -> bool
    ensures { result ≡ seeks_votes report.now }
{
    let leadership = &report.status.leadership;
    !leadership.leads && leadership.promised.node() == report.node.get() && leadership.silence == 0
}

/// Whether a majority of the members that `report` names have reported.
pub fn has_majority(report: &Report, reports: &[Report]) -> bool
    ensures { result ≡ has_majority report.now reports.now }
{
    let members = report.status.members.as_slice();
    members.len() < 2 * count_reporting(members, reports)
}

// Whether both have promised the same ballot.
fn is_same_ballot(report: &Report, other: &Report) -> bool
    ensures { result ≡ is_same_ballot report.now other.now }
{
    let (ours, theirs) = (
        report.status.leadership.promised,
        other.status.leadership.promised,
    );
    ours.round() == theirs.round() && ours.node() == theirs.node()
}

// Whether a report names that node as the leader.
fn names(report: &Report, node: NodeNo) -> bool
    ensures { result ≡ names report.now.status.leadership.leader node }
{
    match report.status.leadership.leader {
        Some(leader) => leader == node,
        None => false,
    }
}

// Whether a report names that leader, has promised its ballot, and has heard of it within its last 8 ticks.
fn is_led_by(leader: &Report, report: &Report) -> bool
    ensures { result ≡ is_led_by leader.now report.now }
{
    names(report, leader.node)
        && is_same_ballot(report, leader)
        && report.status.leadership.silence < FRESH
}

// Whether the node of a report follows that leader, or is it, and hears a majority, as far as its report says it. A
// node that hears none counts no ticks, so it cannot tell how long its leader has been silent.
fn follows(leader: &Report, report: &Report) -> bool
    ensures { result ≡ follows leader.now report.now }
{
    let is_leader = report.status.leadership.leads && report.node == leader.node;
    hears_enough(report) && (is_leader || is_led_by(leader, report))
}

// Whether that node reports that it follows the leader.
fn has_follower(leader: &Report, node: NodeNo, reports: &[Report]) -> bool
    ensures { result ≡ has_follower leader.now node reports.now }
{
    for report in reports {
        if report.node == node && follows(leader, report) {
            return true;
        }
    }
    false
}

// Returns how many of these members report that they follow the leader.
fn count_followers(leader: &Report, members: &[Member], reports: &[Report]) -> usize
    ensures value { result ≡ count_followers leader.now members.now reports.now }
    ensures most { result ≤ length members.now }
{
    let mut count = 0;
    for member in members {
        if has_follower(leader, member.node, reports) {
            count += 1;
        }
    }
    count
}

/// Whether a majority of the members that a leader names report that they follow it: they name it, have promised its
/// ballot, and have heard of it within their last 8 ticks. Those that say they hear no majority do not count.
pub fn has_followers(leader: &Report, reports: &[Report]) -> bool
    ensures { result ≡ has_followers leader.now reports.now }
{
    let members = leader.status.members.as_slice();
    members.len() < 2 * count_followers(leader, members, reports)
}

// Whether all of these follow the leader.
fn all_follow(leader: &Report, reports: &[Report]) -> bool
    ensures { result ≡ all_follow leader.now reports.now }
{
    for report in reports {
        if !follows(leader, report) {
            return false;
        }
    }
    true
}

// Whether one of `leaders` leads, and all reports follow it.
fn leads_all(leaders: &[Report], reports: &[Report]) -> bool
    ensures { result ≡ leads_all leaders.now reports.now }
{
    for report in leaders {
        if report.status.leadership.leads && all_follow(report, reports) {
            return true;
        }
    }
    false
}

// Whether a node that hears so many of this many members hears a majority: it does if it does not say.
fn is_enough(heard: Option<u8>, count: usize) -> bool
    ensures { result ≡ is_enough heard count }
{
    match heard {
        Some(heard) => count < 2 * heard as usize,
        None => true,
    }
}

/// Whether the node of a report hears a majority of the members that it names; true if the report does not say it.
pub fn hears_enough(report: &Report) -> bool
    ensures { result ≡ hears_enough report.now }
{
    is_enough(report.heard(), report.status.members.as_slice().len())
}

// Whether one of `leaders` leads, a majority of the members that it names follow it, and it hears a majority, as far as
// its report says it.
fn some_leads(leaders: &[Report], reports: &[Report]) -> bool
    ensures { result ≡ some_leads leaders.now reports.now }
{
    for report in leaders {
        let leads = report.status.leadership.leads && hears_enough(report);
        if leads && has_followers(report, reports) {
            return true;
        }
    }
    false
}

// Whether all of these name that genesis.
fn all_name(genesis: &[u8; DIGEST], reports: &[Report]) -> bool
    ensures { result ≡ all_name genesis.now reports.now }
{
    for report in reports {
        if report.status.identity.genesis != *genesis {
            return false;
        }
    }
    true
}

/// Whether all reports name one genesis, true without reports.
pub fn has_one_genesis(reports: &[Report]) -> bool
    ensures { result ≡ one_genesis reports.now }
{
    match reports.first() {
        Some(first) => all_name(&first.status.identity.genesis, reports),
        None => true,
    }
}

// Whether one leads with a majority, all name one genesis, and no two hold different states: the test of `is_served`.
fn is_quorate(reports: &[Report]) -> bool
    ensures { result ≡ is_served reports.now }
{
    some_leads(reports, reports) && has_one_genesis(reports) && has_one_state(reports)
}

/// Whether a node leads that hears a majority, a majority of the members that it names follow it, all reports name one
/// genesis, and no two tell different states at one position. A report that does not say whom its node hears counts as
/// one of a node that hears a majority, and one without a digest differs from none.
pub fn is_served(reports: &[Report]) -> bool
    ensures value { result ≡ is_served reports.now }
    ensures served { IsTrue result ↔ IsServed reports.now }
{
    is_quorate(reports)
}

// Whether each has executed at least this many positions.
fn all_have(executed: u64, reports: &[Report]) -> bool
    ensures { result ≡ all_have executed reports.now }
{
    for report in reports {
        if report.status.progress.executed.get() < executed {
            return false;
        }
    }
    true
}

/// Whether the cluster is served, there are `asked` reports, one of each target, all nodes follow one leader, and each
/// has executed at least `executed` positions.
pub fn is_ready(asked: usize, executed: u64, reports: &[Report]) -> bool
    ensures { result ≡ is_ready asked executed reports.now }
{
    reports.len() == asked
        && all_have(executed, reports)
        && leads_all(reports, reports)
        && is_served(reports)
}
