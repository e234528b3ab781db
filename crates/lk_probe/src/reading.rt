// Reads probes and reports. Each `read_..` returns a part and the bytes after it, or `None` if the bytes do not begin
// with one.
ghost use Rattle.std.specs.Prelude.{◌≡◌, is_some, IfSome, IsSomeAnd};
ghost use Rattle.lk_codec.specs.Parser.{Finds};
ghost use Rattle.lk_probe.specs.Grammar.{SpellsProbe, SpellsReport, form};
ghost use Rattle.lk_probe.specs.Reading.{are_zeros, read_origin, read_maybe_node, read_maybe_client, read_flag};
ghost use Rattle.lk_probe.specs.Reading.{read_digest, read_version, read_identity, read_leadership, read_progress};
ghost use Rattle.lk_probe.specs.Reading.{read_traffic, read_status, read_probe_fields, read_report_fields, fronted};
ghost use Rattle.lk_probe.specs.Reading.{read_heard, read_reach, read_tail, read_blank, probe_in, probe_of, report_in};
ghost use Rattle.lk_probe.specs.Reading.{read_state_digest, report_of};
ghost use Rattle.lk_probe.specs.declared.probe.Probe.{Probe as ProbeValue};
ghost use Rattle.lk_probe.specs.declared.probe.Report.{Report as ReportValue};

use crate::datagram::form_number;
use crate::neighbours::Origin;
use crate::probe::{Probe, Report};
use crate::reach::Reach;
use crate::state_digest::StateDigest;
use crate::status::{
    DIGEST, Identity, LENGTH, Leadership, Progress, REACH, STATE_DIGEST, Status, Traffic, Version,
};
use lk_codec::{
    read_any_ballot, read_executed, read_members, read_node, read_u8, read_u16, read_u32, read_u64,
};
use lk_types::{ClientNo, NodeNo};

// Reads the number of a node; four zeros are no node.
#[tactic(auto, unfolding(crate::specs::Reading::read_maybe_node))]
fn read_maybe_node(bytes: &[u8]) -> Option<(Option<NodeNo>, &[u8])>
    ensures { Finds (λ x. (x.0, x.1.now)) result (read_maybe_node bytes.now) }
{
    let (number, rest) = read_u32(bytes)?;
    if number == 0 {
        return Some((None, rest));
    }
    Some((Some(NodeNo::of(number)?), rest))
}

// Reads the number of a client; two zeros are no client.
#[tactic(auto, unfolding(crate::specs::Reading::read_maybe_client))]
fn read_maybe_client(bytes: &[u8]) -> Option<(Option<ClientNo>, &[u8])>
    ensures { Finds (λ x. (x.0, x.1.now)) result (read_maybe_client bytes.now) }
{
    let (number, rest) = read_u16(bytes)?;
    if number == 0 {
        return Some((None, rest));
    }
    Some((Some(ClientNo::of(number)?), rest))
}

// Reads a byte that is 1 for true or 0 for false.
#[tactic(auto, unfolding(crate::specs::Reading::read_flag))]
fn read_flag(bytes: &[u8]) -> Option<(bool, &[u8])>
    ensures { Finds (λ x. (x.0, x.1.now)) result (read_flag bytes.now) }
{
    let (number, rest) = read_u8(bytes)?;
    if number > 1 {
        return None;
    }
    Some((number == 1, rest))
}

#[tactic(auto, unfolding(crate::specs::Reading::read_digest))]
fn read_digest(bytes: &[u8]) -> Option<([u8; DIGEST], &[u8])>
    ensures { Finds (λ x. (x.0, x.1.now)) result (read_digest bytes.now) }
{
    let (digest, rest) = bytes.split_first_chunk::<DIGEST>()?;
    Some((*digest, rest))
}

#[tactic(auto, unfolding(crate::specs::Reading::read_version))]
fn read_version(bytes: &[u8]) -> Option<(Version, &[u8])>
    ensures { Finds (λ x. (x.0, x.1.now)) result (read_version bytes.now) }
{
    let (major, rest) = read_u8(bytes)?;
    let (minor, rest) = read_u8(rest)?;
    let (patch, rest) = read_u8(rest)?;
    let version = Version {
        major,
        minor,
        patch,
    };
    Some((version, rest))
}

#[tactic(auto, unfolding(crate::specs::Reading::read_identity))]
fn read_identity(bytes: &[u8]) -> Option<(Identity, &[u8])>
    ensures { Finds (λ x. (x.0, x.1.now)) result (read_identity bytes.now) }
{
    let (genesis, rest) = read_digest(bytes)?;
    let (program, rest) = read_version(rest)?;
    let (format, rest) = read_u8(rest)?;
    let (table, rest) = read_u8(rest)?;
    let identity = Identity {
        genesis,
        program,
        format,
        table,
    };
    Some((identity, rest))
}

#[tactic(auto, unfolding(crate::specs::Reading::read_leadership))]
fn read_leadership(bytes: &[u8]) -> Option<(Leadership, &[u8])>
    ensures { Finds (λ x. (x.0, x.1.now)) result (read_leadership bytes.now) }
{
    let (leads, rest) = read_flag(bytes)?;
    if let Some((leader, rest)) = read_maybe_node(rest)
        && let Some((silence, rest)) = read_u64(rest)
        && let Some((promised, rest)) = read_any_ballot(rest)
    {
        let leadership = Leadership {
            leads,
            leader,
            silence,
            promised,
        };
        return Some((leadership, rest));
    }
    None
}

#[tactic(auto, unfolding(crate::specs::Reading::read_progress))]
fn read_progress(bytes: &[u8]) -> Option<(Progress, &[u8])>
    ensures { Finds (λ x. (x.0, x.1.now)) result (read_progress bytes.now) }
{
    if let Some((executed, rest)) = read_executed(bytes)
        && let Some((snapshot, rest)) = read_executed(rest)
        && let Some((pending, rest)) = read_u8(rest)
    {
        let progress = Progress {
            executed,
            snapshot,
            pending,
        };
        return Some((progress, rest));
    }
    None
}

#[tactic(auto, unfolding(crate::specs::Reading::read_traffic))]
fn read_traffic(bytes: &[u8]) -> Option<(Traffic, &[u8])>
    ensures { Finds (λ x. (x.0, x.1.now)) result (read_traffic bytes.now) }
{
    let (waiting, rest) = read_u16(bytes)?;
    let (unread, rest) = read_u64(rest)?;
    let (unsent, rest) = read_u64(rest)?;
    let (ticks, rest) = read_u64(rest)?;
    let traffic = Traffic {
        waiting,
        unread,
        unsent,
        ticks,
    };
    Some((traffic, rest))
}

#[tactic(auto, unfolding(crate::specs::Reading::read_status))]
fn read_status(bytes: &[u8]) -> Option<(Status, &[u8])>
    ensures { Finds (λ x. (x.0, x.1.now)) result (read_status bytes.now) }
{
    if let Some((identity, rest)) = read_identity(bytes)
        && let Some((leadership, rest)) = read_leadership(rest)
        && let Some((progress, rest)) = read_progress(rest)
        && let Some((traffic, rest)) = read_traffic(rest)
        && let Some((members, rest)) = read_members(rest)
    {
        let status = Status {
            identity,
            leadership,
            progress,
            traffic,
            members,
        };
        return Some((status, rest));
    }
    None
}

// Reads the digest of the genesis of `node`, the node that asks. It has to be zeros if no node asks.
#[tactic(auto, unfolding(crate::specs::Reading::read_digest))]
fn read_origin(node: Option<NodeNo>, bytes: &[u8]) -> Option<(Option<Origin>, &[u8])>
    ensures { Finds (λ x. (x.0, x.1.now)) result (read_origin node bytes.now) }
{
    let (digest, rest) = bytes.split_first_chunk::<DIGEST>()?;
    match node {
        Some(node) => {
            let genesis = *digest;
            let origin = Origin { node, genesis };
            Some((Some(origin), rest))
        }
        None if are_zeros(digest) => Some((None, rest)),
        None => None,
    }
}

#[tactic(auto, unfolding(crate::specs::Reading::read_probe_fields))]
fn read_probe_fields(asks_reach: bool, bytes: &[u8]) -> Option<(Probe, &[u8])>
    ensures { Finds (λ x. (x.0, x.1.now)) result (read_probe_fields asks_reach bytes.now) }
{
    if let Some((cluster, rest)) = read_u64(bytes)
        && let Some((node, rest)) = read_maybe_node(rest)
        && let Some((client, rest)) = read_maybe_client(rest)
        && let Some((token, rest)) = read_u64(rest)
        && let Some((origin, rest)) = read_origin(node, rest)
    {
        let probe = Probe {
            cluster,
            origin,
            client,
            token,
            asks_reach,
        };
        return Some((probe, rest));
    }
    None
}

#[tactic(auto, unfolding(crate::specs::Reading::read_report_fields))]
fn read_report_fields(reach: Option<Reach>, bytes: &[u8]) -> Option<(Report, &[u8])>
    ensures { Finds (λ x. (x.0, x.1.now)) result (read_report_fields reach bytes.now) }
{
    if let Some((cluster, rest)) = read_u64(bytes)
        && let Some((node, rest)) = read_node(rest)
        && let Some((client, rest)) = read_maybe_client(rest)
        && let Some((token, rest)) = read_u64(rest)
        && let Some((status, rest)) = read_status(rest)
    {
        let report = Report {
            cluster,
            node,
            client,
            token,
            status,
            reach,
        };
        return Some((report, rest));
    }
    None
}

// Whether all of these bytes are 0.
fn are_zeros(bytes: &[u8]) -> bool
    ensures { result ≡ are_zeros bytes.now }
{
    for byte in bytes {
        if *byte != 0 {
            return false;
        }
    }
    true
}

// Reads how many members are heard, a number one above that; two zeros say nothing.
#[tactic(auto, unfolding(crate::specs::Reading::read_heard))]
fn read_heard(bytes: &[u8]) -> Option<(Option<u8>, &[u8])>
    ensures { Finds (λ x. (x.0, x.1.now)) result (read_heard bytes.now) }
{
    let (number, rest) = read_u16(bytes)?;
    if number > 256 {
        return None;
    }
    if number == 0 {
        return Some((None, rest));
    }
    Some((Some((number - 1) as u8), rest))
}

// Reads the digest of a state, after its position.
#[tactic(auto, unfolding(crate::specs::Reading::read_state_digest))]
fn read_state_digest(bytes: &[u8]) -> Option<(StateDigest, &[u8])>
    ensures { Finds (λ x. (x.0, x.1.now)) result (read_state_digest bytes.now) }
{
    if let Some((position, rest)) = read_executed(bytes)
        && let Some((digest, rest)) = rest.split_first_chunk::<STATE_DIGEST>()
    {
        let state = StateDigest {
            position,
            digest: *digest,
        };
        return Some((state, rest));
    }
    None
}

#[tactic(auto, unfolding(crate::specs::Reading::read_reach))]
fn read_reach(bytes: &[u8]) -> Option<(Reach, &[u8])>
    ensures { Finds (λ x. (x.0, x.1.now)) result (read_reach bytes.now) }
{
    if let Some((heard, rest)) = read_heard(bytes)
        && let Some((reads_bundles, rest)) = read_flag(rest)
        && let Some((sends_bundles, rest)) = read_flag(rest)
        && let Some((watches, rest)) = read_u16(rest)
        && let Some((names, rest)) = read_u16(rest)
        && let Some((state, rest)) = read_state_digest(rest)
    {
        let reach = Reach {
            heard,
            reads_bundles,
            sends_bundles,
            watches,
            names,
            state,
        };
        return Some((reach, rest));
    }
    None
}

// Reads what a report has after the bytes of form 1: no reach if nothing follows. `None` if anything but a reach does.
#[tactic(auto, unfolding(crate::specs::Reading::read_tail))]
fn read_tail(bytes: &[u8]) -> Option<Option<Reach>>
    ensures { Finds (λ x. x) result (read_tail bytes.now) }
{
    if bytes.len() == 0 {
        return Some(None);
    }
    let Some((reach, rest)) = read_reach(bytes) else {
        return None;
    };
    if rest.len() > 0 {
        return None;
    }
    Some(Some(reach))
}

// Reads whether a probe asks for a reach, by what follows the bytes of form 1: nothing, or zeros in place of a reach.
#[tactic(auto, unfolding(crate::specs::Reading::read_blank))]
fn read_blank(bytes: &[u8]) -> Option<bool>
    ensures { Finds (λ x. x) result (read_blank bytes.now) }
{
    if bytes.len() == 0 {
        return Some(false);
    }
    if bytes.len() != REACH || !are_zeros(bytes) {
        return None;
    }
    Some(true)
}

// Reads the bytes that a probe has in both forms. `None` if length, letters, form, kind, a field or the zeros at their
// end differ.
#[tactic(auto, unfolding(crate::specs::Reading::probe_in))]
fn probe_in(asks_reach: bool, bytes: &[u8]) -> Option<Probe>
    ensures { Finds (λ x. x) result (probe_in asks_reach bytes.now) }
{
    if bytes.len() != LENGTH {
        return None;
    }
    let form = form_number(asks_reach);
    match bytes {
        [b'L', b'P', version, 9, fields @ ..] if *version == form => {
            let Some((probe, rest)) = read_probe_fields(asks_reach, fields) else {
                return None;
            };
            if !are_zeros(rest) {
                return None;
            }
            Some(probe)
        }
        _ => None,
    }
}

// Reads a whole datagram as a probe, `None` if it is none.
#[tactic(auto, unfolding(crate::specs::Reading::probe_of))]
fn probe_of(bytes: &[u8]) -> Option<Probe>
    ensures { Finds (λ x. x) result (probe_of bytes.now) }
{
    let (front, tail) = bytes.split_first_chunk::<LENGTH>()?;
    probe_in(read_blank(tail)?, front)
}

// Reads the bytes that a report has in both forms. `None` if length, letters, form, kind, a field or the zeros at their
// end differ.
#[tactic(auto, unfolding(crate::specs::Reading::report_in))]
fn report_in(reach: Option<Reach>, bytes: &[u8]) -> Option<Report>
    ensures { Finds (λ x. x) result (report_in reach bytes.now) }
{
    if bytes.len() != LENGTH {
        return None;
    }
    let form = form_number(reach.is_some());
    match bytes {
        [b'L', b'P', version, 10, fields @ ..] if *version == form => {
            let Some((report, rest)) = read_report_fields(reach, fields) else {
                return None;
            };
            if !are_zeros(rest) {
                return None;
            }
            Some(report)
        }
        _ => None,
    }
}

// Reads a whole datagram as a report, `None` if it is none.
#[tactic(auto, unfolding(crate::specs::Reading::report_of))]
fn report_of(bytes: &[u8]) -> Option<Report>
    ensures { Finds (λ x. x) result (report_of bytes.now) }
{
    let (front, tail) = bytes.split_first_chunk::<LENGTH>()?;
    report_in(read_tail(tail)?, front)
}

impl Probe {
    /// Reads a whole datagram as a probe, `None` if it is none. Allocates nothing.
    pub fn read(bytes: &[u8]) -> Option<Probe>
        // A value that is returned is spelled by the bytes.
        ensures found { IfSome result (λ p. SpellsProbe p bytes.now) }
        // Bytes that spell a value are read as that value.
        ensures only { (p : ProbeValue) → SpellsProbe p bytes.now → IsSomeAnd result (λ r. r ≡ p) }
    {
        probe_of(bytes)
    }
}

impl Report {
    /// Reads a whole datagram as a report, `None` if it is none. Allocates nothing.
    pub fn read(bytes: &[u8]) -> Option<Report>
        // A value that is returned is spelled by the bytes.
        ensures found { IfSome result (λ r. SpellsReport r bytes.now) }
        // Bytes that spell a value are read as that value.
        ensures only { (r : ReportValue) → SpellsReport r bytes.now → IsSomeAnd result (λ s. s ≡ r) }
    {
        report_of(bytes)
    }
}
