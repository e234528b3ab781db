// The form `--prometheus`: metrics in the text format of Prometheus, all named `locks_..`. Those of a target have its
// address and port as labels, and the number of its node where that is known.
ghost use Rattle.std.specs.Io.KnownBytes.{Appends};
ghost use Rattle.std.specs.Option.{option_copied};
ghost use Rattle.std.specs.Prelude.{◌≡◌, flat_map, OnOk};
ghost use Rattle.lk_probe.specs.Grammar.{flag};
ghost use Rattle.lk_status.specs.Targets.{target_address};
ghost use Rattle.lk_status_command.specs.Metrics.{head_text, gauge_text, served_text, genesis_text, members_up};
ghost use Rattle.lk_status_command.specs.Metrics.{members_up_text, verdict_text, node_label, place_labels, sample_text};
ghost use Rattle.lk_status_command.specs.Metrics.{up_line, up_lines, up_text, value_line, sample_line, sample_lines};
ghost use Rattle.lk_status_command.specs.Metrics.{field_text, metrics_text, one_state_text};

use crate::field::{FIELDS, Field};
use crate::state_metric::write_differs;
use lk_probe::Report;
use lk_status::states::has_one_state;
use lk_status::target::{Inquiry, Target, is_reported, report_with};
use lk_status::verdict::{count_reporting, has_one_genesis, is_served};
use lk_types::NodeNo;
use std::io;
use std::io::Write;

/// Writes the HELP and TYPE lines of a metric.
pub fn write_head<W: Write>(name: &str, kind: &str, help: &str, out: &mut W) -> io::Result<()>
    ensures { OnOk result (Appends (W.contents out.old) (W.contents out.new) (head_text name.now kind.now help.now)) }
{
    write!(
        out,
        "# HELP locks_{name} {help}\n# TYPE locks_{name} {kind}\n"
    )
}

// Writes a gauge of the whole cluster: its HELP and TYPE lines, and its one sample.
#[tactic(auto, using(lk_types::proofs::Appending::appends_more))]
fn write_gauge<W: Write>(
    cluster: u64,
    name: &str,
    help: &str,
    value: u64,
    out: &mut W,
) -> io::Result<()>
    ensures { OnOk result (Appends (W.contents out.old) (W.contents out.new)
        (gauge_text cluster name.now help.now value)) }
{
    write_head(name, "gauge", help, out)?;
    writeln!(out, "locks_{name}{{cluster=\"{cluster}\"}} {value}")?;
    Ok(())
}

// Writes a gauge of the whole cluster that is 1 for true and 0 for false.
fn write_flag<W: Write>(
    cluster: u64,
    name: &str,
    help: &str,
    is: bool,
    out: &mut W,
) -> io::Result<()>
    ensures { OnOk result (Appends (W.contents out.old) (W.contents out.new)
        (gauge_text cluster name.now help.now (flag is))) }
{
    write_gauge(cluster, name, help, u64::from(is), out)?;
    Ok(())
}

// Writes whether the cluster is served.
fn write_served<W: Write>(cluster: u64, reports: &[Report], out: &mut W) -> io::Result<()>
    ensures { OnOk result (Appends (W.contents out.old) (W.contents out.new) (served_text cluster reports.now)) }
{
    let help = "Whether a majority follows a leader, and nobody tells another genesis.";
    write_flag(cluster, "served", help, is_served(reports), out)?;
    Ok(())
}

// Writes whether all nodes name one genesis.
fn write_genesis<W: Write>(cluster: u64, reports: &[Report], out: &mut W) -> io::Result<()>
    ensures { OnOk result (Appends (W.contents out.old) (W.contents out.new) (genesis_text cluster reports.now)) }
{
    let help = "Whether all nodes tell one genesis.";
    write_flag(cluster, "one_genesis", help, has_one_genesis(reports), out)?;
    Ok(())
}

// Writes whether no two nodes hold different states at one position.
fn write_one_state<W: Write>(cluster: u64, reports: &[Report], out: &mut W) -> io::Result<()>
    ensures { OnOk result (Appends (W.contents out.old) (W.contents out.new) (one_state_text cluster reports.now)) }
{
    let help = "Whether no two nodes hold different states at one position.";
    write_flag(cluster, "one_state", help, has_one_state(reports), out)?;
    Ok(())
}

// Returns how many of the measure's members have reported, 0 without a measure.
fn members_up(measure: Option<&Report>, reports: &[Report]) -> u64
    ensures { result ≡ members_up (option_copied measure.entry) reports.now }
{
    match measure {
        Some(measure) => count_reporting(measure.status.members.as_slice(), reports) as u64,
        None => 0,
    }
}

// Writes how many members have reported.
fn write_members_up<W: Write>(
    cluster: u64,
    measure: Option<&Report>,
    reports: &[Report],
    out: &mut W,
) -> io::Result<()>
    ensures { OnOk result (Appends (W.contents out.old) (W.contents out.new)
        (members_up_text cluster (option_copied measure.entry) reports.now)) }
{
    let help = "Members that answer.";
    write_gauge(
        cluster,
        "members_up",
        help,
        members_up(measure, reports),
        out,
    )?;
    Ok(())
}

// Writes the gauges of the cluster: whether it is served, has one genesis and one state, and how many members are up.
fn write_verdict<W: Write>(
    cluster: u64,
    measure: Option<&Report>,
    reports: &[Report],
    out: &mut W,
) -> io::Result<()>
    ensures { OnOk result (Appends (W.contents out.old) (W.contents out.new)
        (verdict_text cluster (option_copied measure.entry) reports.now)) }
{
    write_served(cluster, reports, out)?;
    write_genesis(cluster, reports, out)?;
    write_one_state(cluster, reports, out)?;
    write_members_up(cluster, measure, reports, out)?;
    Ok(())
}

// Writes the label of a node, or nothing if its number is not known.
fn write_node_label<W: Write>(node: Option<NodeNo>, out: &mut W) -> io::Result<()>
    ensures { OnOk result (Appends (W.contents out.old) (W.contents out.new) (node_label node)) }
{
    if let Some(node) = node {
        write!(out, ",node=\"{}\"", node.get())?;
    }
    Ok(())
}

// Writes the labels of the address and the port of a target, and ends the labels.
fn write_place<W: Write>(inquiry: &Inquiry, target: &Target, out: &mut W) -> io::Result<()>
    ensures { OnOk result (Appends (W.contents out.old) (W.contents out.new)
        (place_labels (target_address inquiry.now target.now) target.now.port)) }
{
    let address = inquiry.address_of(target).ip();
    let port = target.port.get();
    write!(out, ",address=\"{address}\",port=\"{port}\"}} ")
}

/// Writes the sample of a metric for a target, with the label of its node, if the number is known.
#[tactic(auto, using(lk_types::proofs::Appending::appends_more))]
pub fn write_sample<W: Write>(
    name: &str,
    inquiry: &Inquiry,
    node: Option<NodeNo>,
    target: &Target,
    value: u64,
    out: &mut W,
) -> io::Result<()>
    ensures { OnOk result (Appends (W.contents out.old) (W.contents out.new)
        (sample_text name.now inquiry.now node target.now value)) }
{
    write!(out, "locks_{name}{{cluster=\"{}\"", inquiry.cluster)?;
    write_node_label(node, out)?;
    write_place(inquiry, target, out)?;
    writeln!(out, "{value}")?;
    Ok(())
}

// Writes the sample of `locks_up` for a target.
fn write_up_line<W: Write>(
    inquiry: &Inquiry,
    target: &Target,
    is_up: bool,
    out: &mut W,
) -> io::Result<()>
    ensures { OnOk result (Appends (W.contents out.old) (W.contents out.new) (up_line inquiry.now target.now is_up)) }
{
    write_sample("up", inquiry, target.node, target, u64::from(is_up), out)?;
    Ok(())
}

// Writes the sample of `locks_up` for each target. The report of the first has the token `first`, that of each other
// the next token.
fn write_up_lines<W: Write>(
    inquiry: &Inquiry,
    first: u64,
    reports: &[Report],
    out: &mut W,
) -> io::Result<()>
    ensures { OnOk result (Appends (W.contents out.old) (W.contents out.new)
        (up_lines first inquiry.now reports.now)) }
{
    let mut token = first;
    let targets = inquiry.targets.as_slice();
    'targets: for target in targets {
        write_up_line(inquiry, target, is_reported(reports, token), out)?;
        token = token.wrapping_add(1);
    }
    Ok(())
}

// Writes the metric `locks_up`: whether each target has reported.
#[tactic(auto, using(lk_types::proofs::Appending::appends_more))]
fn write_up<W: Write>(
    inquiry: &Inquiry,
    first: u64,
    reports: &[Report],
    out: &mut W,
) -> io::Result<()>
    ensures { OnOk result (Appends (W.contents out.old) (W.contents out.new)
        (up_text first inquiry.now reports.now)) }
{
    let help = "Whether the node at this address and port answers.";
    write_head("up", "gauge", help, out)?;
    write_up_lines(inquiry, first, reports, out)?;
    Ok(())
}

// Writes the sample of the node of a target, or nothing if it has no value.
fn write_value<W: Write>(
    name: &str,
    inquiry: &Inquiry,
    node: NodeNo,
    target: &Target,
    value: Option<u64>,
    out: &mut W,
) -> io::Result<()>
    ensures { OnOk result (Appends (W.contents out.old) (W.contents out.new)
        (value_line name.now inquiry.now node target.now value)) }
{
    if let Some(value) = value {
        write_sample(name, inquiry, Some(node), target, value, out)?;
    }
    Ok(())
}

// Writes the sample of a field for a target, or nothing if there is no report or it does not say the field.
fn write_field_value<W: Write>(
    field: Field,
    inquiry: &Inquiry,
    target: &Target,
    report: Option<&Report>,
    out: &mut W,
) -> io::Result<()>
    ensures { OnOk result (Appends (W.contents out.old) (W.contents out.new)
        (sample_line field inquiry.now target.now (option_copied report.entry))) }
{
    let Some(report) = report else {
        return Ok(());
    };
    let (name, value) = (field.name(), field.value(report));
    write_value(name, inquiry, report.node, target, value, out)?;
    Ok(())
}

// Writes the sample of a field for each target that has reported it.
fn write_samples<W: Write>(
    field: Field,
    inquiry: &Inquiry,
    first: u64,
    reports: &[Report],
    out: &mut W,
) -> io::Result<()>
    ensures { OnOk result (Appends (W.contents out.old) (W.contents out.new)
        (sample_lines field first inquiry.now reports.now)) }
{
    let mut token = first;
    let targets = inquiry.targets.as_slice();
    'targets: for target in targets {
        write_field_value(field, inquiry, target, report_with(reports, token), out)?;
        token = token.wrapping_add(1);
    }
    Ok(())
}

// Writes the metric of a field: its HELP and TYPE lines, and a sample for each target that has reported it.
#[tactic(auto, using(lk_types::proofs::Appending::appends_more))]
fn write_field<W: Write>(
    field: Field,
    inquiry: &Inquiry,
    first: u64,
    reports: &[Report],
    out: &mut W,
) -> io::Result<()>
    ensures { OnOk result (Appends (W.contents out.old) (W.contents out.new)
        (field_text first inquiry.now reports.now field)) }
{
    write_head(field.name(), field.kind(), field.help(), out)?;
    write_samples(field, inquiry, first, reports, out)?;
    Ok(())
}

// Writes the metrics of these fields.
fn write_fields<W: Write>(
    fields: &[Field],
    inquiry: &Inquiry,
    first: u64,
    reports: &[Report],
    out: &mut W,
) -> io::Result<()>
    ensures { OnOk result (Appends (W.contents out.old) (W.contents out.new)
        (flat_map (field_text first inquiry.now reports.now) fields.now)) }
{
    'all: for field in fields {
        write_field(*field, inquiry, first, reports, out)?;
    }
    Ok(())
}

/// Writes the gauges of the cluster, `locks_up` of each target, `locks_state_differs` of each node, and each field of
/// each report. `first` is the token of the first target, `measure` the report whose members are counted.
pub fn write_metrics<W: Write>(
    inquiry: &Inquiry,
    first: u64,
    reports: &[Report],
    measure: Option<&Report>,
    out: &mut W,
) -> io::Result<()>
    ensures { OnOk result (Appends (W.contents out.old) (W.contents out.new)
        (metrics_text first inquiry.now reports.now (option_copied measure.entry))) }
{
    write_verdict(inquiry.cluster, measure, reports, out)?;
    write_up(inquiry, first, reports, out)?;
    write_differs(inquiry, first, reports, out)?;
    write_fields(&FIELDS, inquiry, first, reports, out)?;
    Ok(())
}
