// The fields of a report that JSON and Prometheus print: the name, kind, help and value of each.
ghost use Rattle.std.specs.Prelude.{◌≡◌};
ghost use Rattle.lk_probe.specs.Grammar.{heard_of, or_zero};
ghost use Rattle.lk_status_command.specs.Fields.{field_name, field_kind, field_help, field_value, reads_in, sends_in};
ghost use Rattle.lk_status_command.specs.Fields.{field_number, names_in, presumed_in, state_in, watches_in};

use lk_probe::{Reach, Report};
use lk_types::NodeNo;

/// A number in a node's report, printed by name in JSON and as a metric.
#[derive(Clone, Copy)]
pub enum Field {
    Leads,
    Leader,
    Silence,
    Promised,
    Executed,
    Snapshot,
    Members,
    Pending,
    Waiting,
    Unread,
    Unsent,
    Ticks,
    Format,
    Table,
    Heard,
    ReadsBundles,
    SendsBundles,
    Watches,
    Names,
    State,
}

/// All of them, in the order in which they are printed.
pub const FIELDS: [Field; 20] = [
    Field::Leads,
    Field::Leader,
    Field::Silence,
    Field::Promised,
    Field::Executed,
    Field::Snapshot,
    Field::Members,
    Field::Pending,
    Field::Waiting,
    Field::Unread,
    Field::Unsent,
    Field::Ticks,
    Field::Format,
    Field::Table,
    Field::Heard,
    Field::ReadsBundles,
    Field::SendsBundles,
    Field::Watches,
    Field::Names,
    Field::State,
];

// The number of a node, or 0.
fn node_number(node: Option<NodeNo>) -> u64
    ensures { result ≡ or_zero node }
{
    match node {
        Some(node) => u64::from(node.get()),
        None => 0,
    }
}

// Returns the number of the node that a report takes for the leader, or 0. A leader takes itself for it.
fn presumed_leader(report: &Report) -> u64
    ensures { result ≡ presumed_in report.now }
{
    let leadership = &report.status.leadership;
    if leadership.leads {
        return u64::from(report.node.get());
    }
    node_number(leadership.leader)
}

// Returns 1 if a node reads bundles, 0 if not, and `None` if it does not say it.
fn reads_bundles(reach: &Option<Reach>) -> Option<u64>
    ensures { result ≡ reads_in reach.now }
{
    match reach {
        Some(reach) => Some(u64::from(reach.reads_bundles)),
        None => None,
    }
}

// Returns 1 if a node sends bundles, 0 if not, and `None` if it does not say it.
fn sends_bundles(reach: &Option<Reach>) -> Option<u64>
    ensures { result ≡ sends_in reach.now }
{
    match reach {
        Some(reach) => Some(u64::from(reach.sends_bundles)),
        None => None,
    }
}

/// Returns how many watches a node keeps, `None` if it does not say it.
pub fn watches_kept(reach: &Option<Reach>) -> Option<u64>
    ensures { result ≡ watches_in reach.now }
{
    match reach {
        Some(reach) => Some(u64::from(reach.watches)),
        None => None,
    }
}

/// Returns how many names the lock table of a node has, `None` if it does not say it.
pub fn names_kept(reach: &Option<Reach>) -> Option<u64>
    ensures { result ≡ names_in reach.now }
{
    match reach {
        Some(reach) => Some(u64::from(reach.names)),
        None => None,
    }
}

// Returns the position of the digest of a node's state, 0 if it has none yet; `None` if it does not say it.
fn state_position(reach: &Option<Reach>) -> Option<u64>
    ensures { result ≡ state_in reach.now }
{
    match reach {
        Some(reach) => Some(reach.state.position.get()),
        None => None,
    }
}

// Returns how many members a node hears, `None` if it does not say it.
fn members_heard(report: &Report) -> Option<u64>
    ensures { result ≡ heard_of report.now.reach }
{
    match report.heard() {
        Some(heard) => Some(u64::from(heard)),
        None => None,
    }
}

impl Field {
    /// Returns its name in JSON. A metric has `locks_` before it.
    pub fn name(self) -> &'static str
        ensures { result.now ≡ field_name self }
    {
        match self {
            Field::Leads => "leads",
            Field::Leader => "leader",
            Field::Silence => "leader_silence_ticks",
            Field::Promised => "promised_round",
            Field::Executed => "executed_positions",
            Field::Snapshot => "snapshot_position",
            Field::Members => "members",
            Field::Pending => "change_pending_positions",
            Field::Waiting => "waiting_requests",
            Field::Unread => "unread_datagrams_total",
            Field::Unsent => "failed_sends_total",
            Field::Ticks => "ticks_total",
            Field::Format => "store_format",
            Field::Table => "table_version",
            Field::Heard => "members_heard",
            Field::ReadsBundles => "reads_bundles",
            Field::SendsBundles => "sends_bundles",
            Field::Watches => "watches",
            Field::Names => "names",
            Field::State => "state_position",
        }
    }

    /// Its kind, as Prometheus has it: a counter only grows until the node restarts.
    pub fn kind(self) -> &'static str
        ensures { result.now ≡ field_kind self }
    {
        match self {
            Field::Unread | Field::Unsent | Field::Ticks => "counter",
            _ => "gauge",
        }
    }

    /// Returns its help text in Prometheus.
    pub fn help(self) -> &'static str
        ensures { result.now ≡ field_help self }
    {
        match self {
            Field::Leads => "Whether the node leads.",
            Field::Leader => "The node that it takes for the leader, or 0.",
            Field::Silence => "Ticks since it last heard of a leader.",
            Field::Promised => "Round of the ballot that it has promised.",
            Field::Executed => "Positions that it has executed.",
            Field::Snapshot => "Position of its snapshot.",
            Field::Members => "Members of the next position, as it knows them.",
            Field::Pending => "Positions before the last join or leave takes effect.",
            Field::Waiting => "Requests that wait to be proposed.",
            Field::Unread => "Datagrams that could not be read, since its start.",
            Field::Unsent => "Sends that failed, since its start.",
            Field::Ticks => "Ticks since its start.",
            Field::Format => "Format of its store.",
            Field::Table => "Version of its lock table: 2 once it is raised.",
            Field::Heard => "Members of the next position that it hears, itself included.",
            Field::ReadsBundles => "Whether it reads bundles.",
            Field::SendsBundles => "Whether it sends bundles.",
            Field::Watches => "Watches that it keeps.",
            Field::Names => "Names that its lock table has, free ones too: 512 at most.",
            Field::State => "Position at which it took the last digest of its state, 0 for none.",
        }
    }

    // Returns its value in a report, of a field that each report has; 0 of another one.
    fn number(self, report: &Report) -> u64
        ensures { result ≡ field_number self report.now }
    {
        let status = &report.status;
        match self {
            Field::Leads => u64::from(status.leadership.leads),
            Field::Leader => presumed_leader(report),
            Field::Silence => status.leadership.silence,
            Field::Promised => status.leadership.promised.round(),
            Field::Executed => status.progress.executed.get(),
            Field::Snapshot => status.progress.snapshot.get(),
            Field::Members => status.members.as_slice().len() as u64,
            Field::Pending => u64::from(status.progress.pending),
            Field::Waiting => u64::from(status.traffic.waiting),
            Field::Unread => status.traffic.unread,
            Field::Unsent => status.traffic.unsent,
            Field::Ticks => status.traffic.ticks,
            Field::Format => u64::from(status.identity.format),
            Field::Table => u64::from(status.identity.table),
            Field::Heard
            | Field::ReadsBundles
            | Field::SendsBundles
            | Field::Watches
            | Field::Names
            | Field::State => 0,
        }
    }

    /// Returns its value in a report, `None` if that does not say it.
    pub fn value(self, report: &Report) -> Option<u64>
        ensures { result ≡ field_value self report.now }
    {
        match self {
            Field::Heard => members_heard(report),
            Field::ReadsBundles => reads_bundles(&report.reach),
            Field::SendsBundles => sends_bundles(&report.reach),
            Field::Watches => watches_kept(&report.reach),
            Field::Names => names_kept(&report.reach),
            Field::State => state_position(&report.reach),
            _ => Some(self.number(report)),
        }
    }
}
