// The form `--json`: everything as one JSON object on one line. Its text is made first, and then written in one piece.
ghost use Rattle.std.specs.Io.KnownBytes.{Appends};
ghost use Rattle.std.specs.Option.{option_copied};
ghost use Rattle.std.specs.Prelude.{[], ◌∷◌, codes, flat_map, OnOk};
ghost use Rattle.hex.specs.Hex.{encode_lower};
ghost use Rattle.json.specs.Json.{boolean, string};
ghost use Rattle.lk_status_command.specs.Json.{AddsMembers, AddsValue, array_of, count_entries, field_entry, json_text};
ghost use Rattle.lk_status_command.specs.Json.{node_numbers, report_entries, status_json, target_json, targets_json};
ghost use Rattle.lk_status_command.specs.Json.{version_text, whole};

use crate::field::{FIELDS, Field};
use json::Writer;
use lk_probe::{DIGEST, Report, Version};
use lk_status::states::{has_one_state, is_rivalled};
use lk_status::target::{Inquiry, Target, report_with};
use lk_status::verdict::{count_reporting, has_one_genesis, is_served};
use lk_types::Member;
use std::alloc::{AllocError, Global};
use std::io;
use std::io::Write;

// Adds a named number.
fn add_number(name: &str, value: u64, out: &mut Writer) -> Result<(), AllocError>
    ensures { OnOk result (AddsMembers ((name.now, whole value) ∷ []) out.old out.new) }
{
    out.key(name)?;
    out.u64(value)?;
    Ok(())
}

// Adds a named truth value.
fn add_truth(name: &str, is: bool, out: &mut Writer) -> Result<(), AllocError>
    ensures { OnOk result (AddsMembers ((name.now, boolean is) ∷ []) out.old out.new) }
{
    out.key(name)?;
    out.boolean(is)?;
    Ok(())
}

// Adds a named text.
fn add_text(name: &str, text: &str, out: &mut Writer) -> Result<(), AllocError>
    ensures { OnOk result (AddsMembers ((name.now, string text.now) ∷ []) out.old out.new) }
{
    out.key(name)?;
    out.string(text)?;
    Ok(())
}

// Adds the version of a program.
fn add_program(alloc: Global, program: Version, out: &mut Writer) -> Result<(), AllocError>
    ensures { OnOk result (AddsMembers ((codes "program", string (version_text program)) ∷ []) out.old out.new) }
{
    let (major, minor, patch) = (program.major, program.minor, program.patch);
    let text = format!(in alloc; "{major}.{minor}.{patch}")?;
    add_text("program", text.as_str(), out)?;
    Ok(())
}

// Adds the digest of a genesis in hex.
fn add_genesis(alloc: Global, genesis: &[u8; DIGEST], out: &mut Writer) -> Result<(), AllocError>
    ensures { OnOk result
        (AddsMembers ((codes "genesis", string (encode_lower genesis.now)) ∷ []) out.old out.new) }
{
    let digits = hex::encode(alloc, genesis)?;
    add_text("genesis", digits.as_str(), out)?;
    Ok(())
}

// Adds a field of a report, or nothing if the report does not say it.
fn add_field(field: Field, report: &Report, out: &mut Writer) -> Result<(), AllocError>
    ensures { OnOk result (AddsMembers (field_entry report.now field) out.old out.new) }
{
    if let Some(value) = field.value(report) {
        add_number(field.name(), value, out)?;
    }
    Ok(())
}

// Adds these fields of a report.
fn add_fields(fields: &[Field], report: &Report, out: &mut Writer) -> Result<(), AllocError>
    ensures { OnOk result (AddsMembers (flat_map (field_entry report.now) fields.now) out.old out.new) }
{
    'fields: for field in fields {
        add_field(*field, report, out)?;
    }
    Ok(())
}

// Adds the node numbers of these members as an array.
fn add_members(members: &[Member], out: &mut Writer) -> Result<(), AllocError>
    ensures { OnOk result
        (AddsMembers ((codes "member_nodes", array_of (node_numbers members.now)) ∷ []) out.old out.new) }
{
    out.key("member_nodes")?;
    out.begin_array()?;
    'members: for member in members {
        out.u64(u64::from(member.node.get()))?;
    }
    out.end_array()?;
    Ok(())
}

// Adds all that a node reports, and whether its state differs from those of others.
fn add_report(
    alloc: Global,
    report: &Report,
    reports: &[Report],
    out: &mut Writer,
) -> Result<(), AllocError>
    ensures { OnOk result (AddsMembers (report_entries reports.now report.now) out.old out.new) }
{
    let identity = &report.status.identity;
    add_number("node", u64::from(report.node.get()), out)?;
    add_program(alloc, identity.program, out)?;
    add_genesis(alloc, &identity.genesis, out)?;
    add_fields(&FIELDS, report, out)?;
    add_truth("state_differs", is_rivalled(report, reports), out)?;
    add_members(report.status.members.as_slice(), out)?;
    Ok(())
}

// Adds the object of the target at that port.
fn add_target(
    alloc: Global,
    port: u16,
    report: Option<&Report>,
    reports: &[Report],
    out: &mut Writer,
) -> Result<(), AllocError>
    ensures { OnOk result
        (AddsValue (target_json reports.now port (option_copied report.entry)) out.old out.new) }
{
    out.begin_object()?;
    add_number("port", u64::from(port), out)?;
    add_truth("up", report.is_some(), out)?;
    if let Some(report) = report {
        add_report(alloc, report, reports, out)?;
    }
    out.end_object()?;
    Ok(())
}

// Adds the objects of these targets as an array. A report belongs to the target whose probe had its token: that of the
// first target had `first`, and each other one the next number.
fn add_targets(
    alloc: Global,
    first: u64,
    targets: &[Target],
    reports: &[Report],
    out: &mut Writer,
) -> Result<(), AllocError>
    ensures { OnOk result
        (AddsMembers ((codes "nodes", array_of (targets_json reports.now first targets.now)) ∷ []) out.old out.new) }
{
    out.key("nodes")?;
    out.begin_array()?;
    let mut token = first;
    'targets: for target in targets {
        let report = report_with(reports, token);
        add_target(alloc, target.port.get(), report, reports, out)?;
        token = token.wrapping_add(1);
    }
    out.end_array()?;
    Ok(())
}

// Adds how many members report and how many there are, by the report with which the others are compared; nothing
// without one.
fn add_counts(
    measure: Option<&Report>,
    reports: &[Report],
    out: &mut Writer,
) -> Result<(), AllocError>
    ensures { OnOk result
        (AddsMembers (count_entries (option_copied measure.entry) reports.now) out.old out.new) }
{
    if let Some(measure) = measure {
        let members = measure.status.members.as_slice();
        add_number("members_up", count_reporting(members, reports) as u64, out)?;
        add_number("members", members.len() as u64, out)?;
    }
    Ok(())
}

// Adds the object of the whole status.
fn add_status(
    alloc: Global,
    inquiry: &Inquiry,
    first: u64,
    reports: &[Report],
    measure: Option<&Report>,
    out: &mut Writer,
) -> Result<(), AllocError>
    ensures { OnOk result (AddsValue (status_json inquiry.now.cluster first inquiry.now.targets.items reports.now
        (option_copied measure.entry)) out.old out.new) }
{
    out.begin_object()?;
    add_number("cluster", inquiry.cluster, out)?;
    add_truth("served", is_served(reports), out)?;
    add_truth("one_genesis", has_one_genesis(reports), out)?;
    add_truth("one_state", has_one_state(reports), out)?;
    add_counts(measure, reports, out)?;
    add_targets(alloc, first, inquiry.targets.as_slice(), reports, out)?;
    out.end_object()?;
    Ok(())
}

/// Writes the verdict and all targets as one JSON object on one line. `first` is the token of the first target,
/// `measure` the report with which the others are compared, if there is any. An error of kind `OutOfMemory` may come
/// before anything is written.
pub fn write_json<W: Write>(
    alloc: Global,
    inquiry: &Inquiry,
    first: u64,
    reports: &[Report],
    measure: Option<&Report>,
    out: &mut W,
) -> io::Result<()>
    ensures { OnOk result (Appends (W.contents out.old) (W.contents out.new)
        (json_text inquiry.now.cluster first inquiry.now.targets.items reports.now (option_copied measure.entry))) }
{
    let mut object = Writer::new(Vec::new(alloc));
    add_status(alloc, inquiry, first, reports, measure, &mut object)?;
    let mut text = object.into_inner();
    text.push(b'\n')?;
    out.write_all(text.as_slice())?;
    Ok(())
}
