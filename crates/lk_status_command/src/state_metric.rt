// The metric `locks_state_differs` of each node.
ghost use Rattle.std.specs.Io.KnownBytes.{Appends};
ghost use Rattle.std.specs.Option.{option_copied};
ghost use Rattle.std.specs.Prelude.{◌≡◌, OnOk};
ghost use Rattle.lk_status_command.specs.Metrics.{differs_line, differs_lines, differs_sample, differs_text};

use crate::prometheus::{write_head, write_sample};
use lk_probe::Report;
use lk_status::states::is_rivalled;
use lk_status::target::{Inquiry, Target, report_with};
use lk_types::NodeNo;
use std::io;
use std::io::Write;

// Writes the sample of `locks_state_differs` for the node of a target.
fn write_differs_sample<W: Write>(
    inquiry: &Inquiry,
    node: NodeNo,
    target: &Target,
    differs: bool,
    out: &mut W,
) -> io::Result<()>
    ensures { OnOk result (Appends (W.contents out.old) (W.contents out.new)
        (differs_sample inquiry.now node target.now differs)) }
{
    write_sample(
        "state_differs",
        inquiry,
        Some(node),
        target,
        u64::from(differs),
        out,
    )?;
    Ok(())
}

// Writes for a target whether at least as many nodes hold another state than its node, or nothing without a report.
fn write_differs_line<W: Write>(
    inquiry: &Inquiry,
    target: &Target,
    report: Option<&Report>,
    reports: &[Report],
    out: &mut W,
) -> io::Result<()>
    ensures { OnOk result (Appends (W.contents out.old) (W.contents out.new)
        (differs_line inquiry.now reports.now target.now (option_copied report.entry))) }
{
    let Some(report) = report else {
        return Ok(());
    };
    let differs = is_rivalled(report, reports);
    write_differs_sample(inquiry, report.node, target, differs, out)?;
    Ok(())
}

// Writes the same for each target.
fn write_differs_lines<W: Write>(
    inquiry: &Inquiry,
    first: u64,
    reports: &[Report],
    out: &mut W,
) -> io::Result<()>
    ensures { OnOk result (Appends (W.contents out.old) (W.contents out.new)
        (differs_lines first inquiry.now reports.now)) }
{
    let mut token = first;
    let targets = inquiry.targets.as_slice();
    'targets: for target in targets {
        write_differs_line(inquiry, target, report_with(reports, token), reports, out)?;
        token = token.wrapping_add(1);
    }
    Ok(())
}

/// Writes the metric `locks_state_differs`: whether at least as many nodes hold another state.
#[tactic(auto, using(lk_types::proofs::Appending::appends_more))]
pub fn write_differs<W: Write>(
    inquiry: &Inquiry,
    first: u64,
    reports: &[Report],
    out: &mut W,
) -> io::Result<()>
    ensures { OnOk result (Appends (W.contents out.old) (W.contents out.new)
        (differs_text first inquiry.now reports.now)) }
{
    let help = "Whether as many nodes or more hold another state at its position.";
    write_head("state_differs", "gauge", help, out)?;
    write_differs_lines(inquiry, first, reports, out)?;
    Ok(())
}
