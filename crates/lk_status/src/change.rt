//! Whether a join or a leave leaves a majority that has caught up.

ghost use Rattle.std.specs.Prelude.{◌≡◌, ◌≤◌, ◌↔◌, IsTrue, length};
ghost use Rattle.std.specs.Option.{option_copied};
ghost use Rattle.lk_members.specs.Rosters.{is_member, others};
ghost use Rattle.lk_status.specs.Changes.{with_newcomer, without_leaver, members_after, says_executed, has_executed};
ghost use Rattle.lk_status.specs.Changes.{count_executed, HasMajorityAt, goal_of, NeedsNoMajority};
ghost use Rattle.lk_status.specs.Changes.{IsSafeAt, IsSafeBy, IsJudged};

use crate::measure::furthest_report;
use arrayvec::ArrayVec;
use lk_probe::{DIGEST, Report};
use lk_types::limits::MAX_MEMBERS;
use lk_types::{Member, Members, NodeNo, Op};

// How many positions a node may be behind: as many commands as a tick of the leader brings it.
const ALLOWANCE: u64 = 16;

// Whether that node is one of these members.
fn is_member(node: NodeNo, members: &[Member]) -> bool
    ensures { result ≡ is_member node members.now }
{
    members.iter().any(|member| member.node == node)
}

// Returns the members as a list.
fn listed(members: &Members) -> ArrayVec<Member, MAX_MEMBERS>
    ensures { result.items ≡ members.now }
{
    ArrayVec::try_from(members.as_slice()).unwrap()
}

// Returns the members with a newcomer, or as they are if it is a member or there are seven.
fn with_newcomer(newcomer: Member, members: &Members) -> ArrayVec<Member, MAX_MEMBERS>
    ensures { result.items ≡ with_newcomer newcomer members.now }
{
    let mut after = listed(members);
    if !is_member(newcomer.node, members.as_slice()) && after.len() < MAX_MEMBERS {
        after.push(newcomer);
    }
    after
}

// Returns the members without that node.
fn others(node: NodeNo, members: &Members) -> ArrayVec<Member, MAX_MEMBERS>
    ensures { result.items ≡ others node members.now }
{
    let members = members.as_slice();
    let mut left = ArrayVec::new();
    for member in members {
        if member.node != node {
            left.push(*member);
        }
    }
    left
}

// Returns the members without that node, or as they are if it is the only one.
fn without_leaver(node: NodeNo, members: &Members) -> ArrayVec<Member, MAX_MEMBERS>
    ensures { result.items ≡ without_leaver node members.now }
{
    let left = others(node, members);
    if left.is_empty() {
        return listed(members);
    }
    left
}

/// Returns the members after an op, which only a join or a leave changes. A join of a member or of an eighth node and
/// the leave of the only member change nothing, since the cluster does not grant them.
pub fn members_after(op: &Op, members: &Members) -> ArrayVec<Member, MAX_MEMBERS>
    ensures { result.items ≡ members_after op.now members.now }
{
    match op {
        Op::Join(node, port) => {
            let newcomer = Member {
                node: *node,
                port: *port,
            };
            with_newcomer(newcomer, members)
        }
        Op::Leave(node) => without_leaver(*node, members),
        Op::Table(_) | Op::Raise => listed(members),
    }
}

// Whether a report says of that node that it has executed so many positions, and names this genesis.
fn says_executed(genesis: &[u8; DIGEST], goal: u64, node: NodeNo, report: &Report) -> bool
    ensures { result ≡ says_executed genesis.now goal node report.now }
{
    report.node == node
        && report.status.identity.genesis == *genesis
        && report.status.progress.executed.get() >= goal
}

/// Whether a report of that node, which names this genesis, says that it has executed so many positions.
pub fn has_executed(genesis: &[u8; DIGEST], goal: u64, node: NodeNo, reports: &[Report]) -> bool
    ensures { result ≡ has_executed genesis.now goal node reports.now }
{
    for report in reports {
        if says_executed(genesis, goal, node, report) {
            return true;
        }
    }
    false
}

// Returns how many of these members have executed so many positions.
fn count_executed(
    genesis: &[u8; DIGEST],
    goal: u64,
    members: &[Member],
    reports: &[Report],
) -> usize
    ensures value { result ≡ count_executed genesis.now goal members.now reports.now }
    ensures most { result ≤ length members.now }
{
    let mut count = 0;
    for member in members {
        if has_executed(genesis, goal, member.node, reports) {
            count += 1;
        }
    }
    count
}

// Whether a majority of these members has executed so many positions.
fn has_majority_at(
    genesis: &[u8; DIGEST],
    goal: u64,
    members: &[Member],
    reports: &[Report],
) -> bool
    ensures { IsTrue result ↔ HasMajorityAt genesis.now goal members.now reports.now }
{
    members.len() < 2 * count_executed(genesis, goal, members, reports)
}

/// How many positions a node has to have executed, by the report of the furthest one.
pub fn goal_of(furthest: &Report) -> u64
    ensures { result ≡ goal_of furthest.now }
{
    let executed = furthest.status.progress.executed.get();
    executed.saturating_sub(ALLOWANCE)
}

// Whether an op changes no member, or there is only one.
fn needs_no_majority(op: &Op, members: &Members) -> bool
    ensures { IsTrue result ↔ NeedsNoMajority op.now members.now }
{
    let count = members.as_slice().len();
    members_after(op, members).len() == count || count == 1
}

// Whether an op is safe by the members that the latest report names: no change is pending, and it needs no majority, or
// leaves one that has executed so many positions.
fn is_safe_at(op: &Op, goal: u64, latest: &Report, reports: &[Report]) -> bool
    ensures { IsTrue result ↔ IsSafeAt op.now goal latest.now reports.now }
{
    let status = &latest.status;
    let after = members_after(op, &status.members);
    let genesis = &status.identity.genesis;
    status.progress.pending == 0
        && (needs_no_majority(op, &status.members)
            || has_majority_at(genesis, goal, after.as_slice(), reports))
}

// Whether an op is safe by the furthest reports of two rounds, of which the first sets the goal.
fn is_safe_by(
    op: &Op,
    furthest: Option<&Report>,
    latest: Option<&Report>,
    reports: &[Report],
) -> bool
    ensures { IsTrue result ↔ IsSafeBy op.now (option_copied furthest.entry) (option_copied latest.entry) reports.now }
{
    match (furthest, latest) {
        (Some(furthest), Some(latest)) => is_safe_at(op, goal_of(furthest), latest, reports),
        _ => false,
    }
}

/// Whether a join or a leave leaves a majority that has caught up, changes no member, or meets a cluster of one, and no
/// change is pending. The members are those that the furthest of `reports` names. A member has caught up if one of
/// `reports` says that it has executed what the furthest of `earlier`, reports of a round before, had executed, but for
/// 16 positions. False if either round has no report.
pub fn is_safe(op: &Op, earlier: &[Report], reports: &[Report]) -> bool
    ensures { IsJudged op.now earlier.now reports.now result }
{
    is_safe_by(
        op,
        furthest_report(earlier),
        furthest_report(reports),
        reports,
    )
}
