//! Runs `locks node`: opens what a node runs on, and runs it there.

ghost use Rattle.std.specs.Prelude.{◌≡◌, IfOk, OnErr};
ghost use Rattle.lk_main.specs.NodeRuns.{EndsAsPlanned};

use lk_disk::LogDisk;
use lk_locks::LockTable;
use lk_node_events::line::{Events, Observer, Unobserved};
use lk_node_files::causes::FailureCause;
use lk_node_process::node_end::NodeEnd;
use lk_node_process::running::run_node;
use lk_node_setup::platform::Platform;
use lk_node_setup::resources::{NodePlan, open_resources};
use lk_program_fault::ProgramFault;
use lk_replica::Replica;
use lk_server_replica::ServerReplica;
use lk_transport::socket::DatagramSocket;
use log::sink::{Console, Discard};
use log::{Level, Log, Logged};
use std::alloc::Global;
use std::io::Write;
use std::time::Clock;

// Opens what a plan names, and runs its node on that, which stays open until the node has ended. An error says why it
// does not open.
fn run_plan<
    D: LogDisk + FailureCause + Drop,
    S: DatagramSocket + Drop,
    P: Platform<D, S>,
    L: Log,
    O: Observer,
    E: Write,
>(
    platform: &P,
    alloc: Global,
    plan: &NodePlan<'_>,
    log: &L,
    observer: &mut O,
    err: &mut E,
) -> Result<NodeEnd<LockTable, D, S>, ProgramFault>
    ensures ends { IfOk result (λ end. EndsAsPlanned (P.is_text platform.now) (P.is_store platform.now)
        (P.is_bound platform.now) D.is_honest D.disk ⟦<Replica<LockTable, D> as ServerReplica>⟧.Says S.is_observable
        S.sent S.failures S.incoming plan.now end.status end.left) }
    // The observer was told nothing: neither a start nor a turn.
    ensures err { OnErr result (observer.new ≡ observer.old) }
{
    match open_resources(platform, alloc, plan, err) {
        Ok((resources, _lock)) => Ok(run_node::<LockTable, _, _, _, _, _, _>(
            platform, alloc, plan, resources, log, observer, err,
        )),
        Err(fault) => Err(fault),
    }
}

// Runs the node of a plan, and logs its events at level info, if `tells_events`, by a clock and on standard error.
fn run_observed<
    D: LogDisk + FailureCause + Drop,
    S: DatagramSocket + Drop,
    P: Platform<D, S>,
    R: Eprint + Clock,
    L: Log,
    E: Write,
>(
    rt: &R,
    platform: &P,
    alloc: Global,
    plan: &NodePlan<'_>,
    tells_events: bool,
    log: &L,
    err: &mut E,
) -> Result<NodeEnd<LockTable, D, S>, ProgramFault>
    ensures { IfOk result (λ end. EndsAsPlanned (P.is_text platform.now) (P.is_store platform.now)
        (P.is_bound platform.now) D.is_honest D.disk ⟦<Replica<LockTable, D> as ServerReplica>⟧.Says S.is_observable
        S.sent S.failures S.incoming plan.now end.status end.left) }
{
    if !tells_events {
        return run_plan(platform, alloc, plan, log, &mut Unobserved, err);
    }
    let told = Logged::new(rt, Level::Info, Console(rt));
    let mut events = Events::new(rt, told, plan.header.node());
    run_plan(platform, alloc, plan, log, &mut events, err)
}

/// Runs the node of a plan on a platform. Logs what it does at this level, if there is one, and its events at level
/// info if `tells_events`, by the clock and on the standard error of `rt`. An error says why its files or its socket do
/// not open.
pub fn run_logged<
    D: LogDisk + FailureCause + Drop,
    S: DatagramSocket + Drop,
    P: Platform<D, S>,
    R: Eprint + Clock,
    E: Write,
>(
    rt: &R,
    platform: &P,
    alloc: Global,
    plan: &NodePlan<'_>,
    level: Option<Level>,
    tells_events: bool,
    err: &mut E,
) -> Result<NodeEnd<LockTable, D, S>, ProgramFault>
    // What the plan names was opened, and its node has run on that, and on nothing else.
    ensures { IfOk result (λ end. EndsAsPlanned (P.is_text platform.now) (P.is_store platform.now)
        (P.is_bound platform.now) D.is_honest D.disk ⟦<Replica<LockTable, D> as ServerReplica>⟧.Says S.is_observable
        S.sent S.failures S.incoming plan.now end.status end.left) }
{
    match level {
        None => run_observed(rt, platform, alloc, plan, tells_events, &Discard, err),
        Some(level) => {
            let log = Logged::new(rt, level, Console(rt));
            run_observed(rt, platform, alloc, plan, tells_events, &log, err)
        }
    }
}
