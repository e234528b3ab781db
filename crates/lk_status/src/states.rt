//! Finds the nodes that hold another state than others at one position: they have executed other commands.

ghost use Rattle.std.specs.Prelude.{◌≡◌, ◌≤◌, length};
ghost use Rattle.lk_status.specs.States.{are_alike, count_holding, differs_from};
ghost use Rattle.lk_status.specs.States.{is_alike, is_apart, is_held_by, is_last_to_hold, is_rivalled, is_outnumbered};
ghost use Rattle.lk_status.specs.States.{rivals, one_state, outnumbers, some_apart};

use lk_probe::{Report, StateDigest};
use lk_types::NodeNo;

// Whether both are digests of one position, and the same.
fn are_alike(one: &StateDigest, other: &StateDigest) -> bool
    ensures { result ≡ are_alike one.now other.now }
{
    one.is_comparable_to(other) && one.digest == other.digest
}

// Whether two reports tell one state at one position.
fn is_alike(report: &Report, other: &Report) -> bool
    ensures { result ≡ is_alike report.now other.now }
{
    are_alike(&report.state_digest(), &other.state_digest())
}

/// Whether two reports tell different states at one position.
pub fn differs_from(report: &Report, other: &Report) -> bool
    ensures { result ≡ differs_from report.now other.now }
{
    report.state_digest().differs_from(&other.state_digest())
}

// Whether a report of that node tells the state of `report`.
fn is_held_by(report: &Report, node: NodeNo, reports: &[Report]) -> bool
    ensures { result ≡ is_held_by report.now node reports.now }
{
    for other in reports {
        if other.node == node && is_alike(report, other) {
            return true;
        }
    }
    false
}

// Whether `other` tells the state of `report`, and none of its node in `others`, the reports after it, does: so a node
// that reports at two ports counts once.
fn is_last_to_hold(report: &Report, other: &Report, others: &[Report]) -> bool
    ensures { result ≡ is_last_to_hold report.now other.now others.now }
{
    is_alike(report, other) && !is_held_by(report, other.node, others)
}

// Returns how many nodes hold the state of `report`, its own included; 0 if it tells none.
fn count_holding(report: &Report, reports: &[Report]) -> usize
    ensures value { result ≡ count_holding report.now reports.now }
    ensures most { result ≤ length reports.now }
{
    let mut count = 0;
    'all: for (index, other) in reports.iter().enumerate() {
        if is_last_to_hold(report, other, &reports[index + 1..]) {
            count += 1;
        }
    }
    count
}

/// Whether one of the reports tells another state than `report` at its position.
pub fn is_apart(report: &Report, reports: &[Report]) -> bool
    ensures { result ≡ is_apart reports.now report.now }
{
    reports.iter().any(|other| differs_from(report, other))
}

// Whether `other` tells another state than `report`, and more nodes hold it.
fn outnumbers(report: &Report, other: &Report, reports: &[Report]) -> bool
    ensures { result ≡ outnumbers reports.now report.now other.now }
{
    differs_from(report, other) && count_holding(report, reports) < count_holding(other, reports)
}

// Whether `other` tells another state than `report`, and at least as many nodes hold it.
fn rivals(report: &Report, other: &Report, reports: &[Report]) -> bool
    ensures { result ≡ rivals reports.now report.now other.now }
{
    differs_from(report, other) && count_holding(report, reports) <= count_holding(other, reports)
}

/// Whether more nodes hold another state than that of `report`.
pub fn is_outnumbered(report: &Report, reports: &[Report]) -> bool
    ensures { result ≡ is_outnumbered reports.now report.now }
{
    reports
        .iter()
        .any(|other| outnumbers(report, other, reports))
}

/// Whether at least as many nodes hold another state as hold that of `report`.
pub fn is_rivalled(report: &Report, reports: &[Report]) -> bool
    ensures { result ≡ is_rivalled reports.now report.now }
{
    reports.iter().any(|other| rivals(report, other, reports))
}

// Whether one of `some` tells another state than one of the reports at its position.
fn some_apart(some: &[Report], reports: &[Report]) -> bool
    ensures { result ≡ some_apart some.now reports.now }
{
    for report in some {
        if is_apart(report, reports) {
            return true;
        }
    }
    false
}

/// Whether no two reports tell different states at one position.
pub fn has_one_state(reports: &[Report]) -> bool
    ensures { result ≡ one_state reports.now }
{
    !some_apart(reports, reports)
}
