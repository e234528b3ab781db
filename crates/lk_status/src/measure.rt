//! Chooses the reference report of a round, with which the others are compared.

ghost use Rattle.std.specs.Prelude.{◌≡◌, ◌≤◌, length};
ghost use Rattle.std.specs.Option.{option_copied};
ghost use Rattle.lk_status.specs.Measures.{has_genesis, is_named_by, is_last_to_name, count_naming, wins_tie};
ghost use Rattle.lk_status.specs.Measures.{outweighs};
ghost use Rattle.lk_status.specs.Measures.{is_named_more, more_named, IsMostNamedOf, further, those_of};
ghost use Rattle.lk_status.specs.Measures.{IsFurthestOf, IsFurthestNamedOf};
ghost use Rattle.lk_status.specs.Measures.{IsMeasureOf, executed_of};

use lk_probe::{DIGEST, Report};
use lk_types::NodeNo;

// Whether a report names that genesis.
fn has_genesis(genesis: &[u8; DIGEST], report: &Report) -> bool
    ensures { result ≡ has_genesis genesis.now report.now }
{
    report.status.identity.genesis == *genesis
}

// Whether a report of that node names that genesis.
fn is_named_by(genesis: &[u8; DIGEST], node: NodeNo, reports: &[Report]) -> bool
    ensures { result ≡ is_named_by genesis.now node reports.now }
{
    for report in reports {
        if report.node == node && has_genesis(genesis, report) {
            return true;
        }
    }
    false
}

// Whether a report names that genesis, and none of its node in `others`, the reports after it, does: so a node that
// reports at two ports counts once.
fn is_last_to_name(genesis: &[u8; DIGEST], report: &Report, others: &[Report]) -> bool
    ensures { result ≡ is_last_to_name genesis.now report.now others.now }
{
    has_genesis(genesis, report) && !is_named_by(genesis, report.node, others)
}

// How many nodes name that genesis.
fn count_naming(genesis: &[u8; DIGEST], reports: &[Report]) -> usize
    ensures value { result ≡ count_naming genesis.now reports.now }
    ensures most { result ≤ length reports.now }
{
    let mut count = 0;
    'all: for (index, report) in reports.iter().enumerate() {
        if is_last_to_name(genesis, report, &reports[index + 1..]) {
            count += 1;
        }
    }
    count
}

// Whether `report` is preferred to `other` if as many nodes name the genesis of either: it leads, and the other does
// not or leads in a smaller ballot; or neither leads, and its node number is smaller.
fn wins_tie(report: &Report, other: &Report) -> bool
    ensures { result ≡ wins_tie report.now other.now }
{
    let (ours, theirs) = (&report.status.leadership, &other.status.leadership);
    if ours.leads {
        !theirs.leads || theirs.promised.is_below(ours.promised)
    } else {
        !theirs.leads && report.node.get() < other.node.get()
    }
}

// Whether `report` is preferred to `other`: more nodes name its genesis, or as many, and it wins the tie.
fn outweighs(report: &Report, other: &Report, reports: &[Report]) -> bool
    ensures { result ≡ outweighs reports.now report.now other.now }
{
    let ours = count_naming(&report.status.identity.genesis, reports);
    let theirs = count_naming(&other.status.identity.genesis, reports);
    theirs < ours || theirs == ours && wins_tie(report, other)
}

// Whether `report` outweighs `other`, true if there is no other.
fn is_named_more(report: &Report, other: Option<&Report>, reports: &[Report]) -> bool
    ensures { result ≡ is_named_more reports.now report.now (option_copied other.entry) }
{
    match other {
        Some(other) => outweighs(report, other, reports),
        None => true,
    }
}

// Returns `report` if it outweighs `best`, else `best`.
fn more_named<'a>(
    best: Option<&'a Report>,
    report: &'a Report,
    reports: &[Report],
) -> Option<&'a Report>
    ensures { option_copied result ≡ more_named reports.now (option_copied best.entry) report.now }
{
    if is_named_more(report, best, reports) {
        Some(report)
    } else {
        best
    }
}

// Returns the report that no other outweighs: its genesis is the one that most nodes name. `None` without reports.
fn most_named_in<'a>(reports: &'a [Report]) -> Option<&'a Report>
    ensures { IsMostNamedOf reports.now (option_copied result) }
{
    let mut best: Option<&Report> = None;
    'all: for report in reports {
        best = more_named(best, report, reports);
    }
    best
}

// Returns `report` if its genesis is this one and its node has executed at least as much as that of `furthest`, or else
// `furthest`.
fn further<'a>(
    genesis: &[u8; DIGEST],
    furthest: Option<&'a Report>,
    report: &'a Report,
) -> Option<&'a Report>
    ensures { option_copied result ≡ further genesis.now (option_copied furthest.entry) report.now }
{
    let executed = report.status.progress.executed.get();
    if has_genesis(genesis, report) && executed_of(furthest) <= executed {
        Some(report)
    } else {
        furthest
    }
}

// Returns the report with that genesis whose node has executed most, `None` if there is none.
fn furthest_in<'a>(genesis: &[u8; DIGEST], reports: &'a [Report]) -> Option<&'a Report>
    ensures { IsFurthestOf (those_of genesis.now reports.now) (option_copied result) }
{
    let mut furthest: Option<&Report> = None;
    'all: for report in reports {
        furthest = further(genesis, furthest, report);
    }
    furthest
}

/// Returns the reference report, with which the others are compared. Of the nodes with the genesis that most nodes
/// name, it is the report of the leader with the greatest ballot, or, if none leads, of one that has executed most.
/// `None` without reports.
#[tactic(auto, using(crate::proofs::Measuring::by_leader))]
pub fn reference_report<'a>(reports: &'a [Report]) -> Option<&'a Report>
    ensures { IsMeasureOf reports.now (option_copied result) }
{
    let Some(named) = most_named_in(reports) else {
        return None;
    };
    if named.status.leadership.leads {
        return Some(named);
    }
    furthest_in(&named.status.identity.genesis, reports)
}

/// Returns the report of a node that has executed most, of the nodes with the genesis that most nodes name. `None`
/// without reports.
pub fn furthest_report<'a>(reports: &'a [Report]) -> Option<&'a Report>
    ensures { IsFurthestNamedOf reports.now (option_copied result) }
{
    let Some(named) = most_named_in(reports) else {
        return None;
    };
    furthest_in(&named.status.identity.genesis, reports)
}

/// How many positions the node of a report has executed; 0 without a report, so that every report is at least as far.
pub fn executed_of(report: Option<&Report>) -> u64
    ensures { result ≡ executed_of (option_copied report.entry) }
{
    match report {
        Some(report) => report.status.progress.executed.get(),
        None => 0,
    }
}
