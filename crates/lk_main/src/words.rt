//! Runs a command line: reads the arguments, opens what the subcommand needs, and runs that.

ghost use Rattle.std.specs.Prelude.{◌≡◌, ◌≤◌, Some, codes};
ghost use Rattle.clap.specs.Words.{subcommand_name_of};
ghost use Rattle.lk_command_line.specs.Questions.{WaitsFor};
ghost use Rattle.lk_main.specs.NodeRuns.{RunsArguments, RunsNamed};
ghost use Rattle.lk_main.specs.Plans.{PrintsClientKey};

use crate::asking::{ask_if_cleared, wait_at};
use crate::node::run_logged;
use crate::plans::{
    AskPlan, ask_options, ask_plan, client_key_plan, fuzz_plan, init_plan, level_of, listing_of,
    node_plan,
};
use crate::seeding::seed_plan;
use crate::subcommand::Subcommand;
use clap::error::ErrorKind;
use clap::{ArgMatches, Error};
use lk_client::destination::Place;
use lk_command_line::argument_error::ArgumentError;
use lk_command_line::asking::places_of;
use lk_command_line::commands::program;
use lk_command_line::operation::warn_of_name;
use lk_command_line::status_plan::status_plan;
use lk_command_line::values::word;
use lk_disk::LogDisk;
use lk_inspect::dump::dump;
use lk_inspect::inspect::inspect;
use lk_inspect::scrub::scrub;
use lk_locks::LockTable;
use lk_memory_disk::MemoryDisk;
use lk_node_files::causes::{FailureCause, open_socket_at};
use lk_node_process::demo::demo;
use lk_node_process::first_store::init;
use lk_node_setup::client_key::client_key;
use lk_node_setup::network::{NetworkOptions, destination_of};
use lk_node_setup::platform::Platform;
use lk_node_setup::system::{FolderDisk, System};
use lk_node_setup::text_files::TextFiles;
use lk_program_fault::ProgramFault;
use lk_random_schedules::fuzzing::{print_script, run_fuzz};
use lk_replica::Replica;
use lk_script::ending::{end, write_fault};
use lk_script::script::run_to_end;
use lk_script_lines::fault::ScriptFault;
use lk_seed::seed::seed;
use lk_server_replica::ServerReplica;
use lk_sim_dump::node_state::run_to_state;
use lk_status::target::Inquiry;
use lk_status_command::status::status;
use lk_transport::socket::{DatagramSocket, LocalSocket};
use std::alloc::Global;
use std::fs::{File, Files};
use std::io;
use std::io::{BufRead, Write};
use std::net::{IpAddr, Ipv4Addr, Net, SocketAddr};
use std::time::Clock;

// The replicas of a world: of lock tables, with disks in memory.
type Nodes = Replica<LockTable, MemoryDisk>;

// Writes which argument of a subcommand is invalid, and why. Returns status 2.
fn write_argument_error<E: Write>(error: &ArgumentError<'_>, err: &mut E) -> u8
    ensures { result ≡ 2 }
{
    let _ = writeln!(err, "{error}");
    let _ = writeln!(err, "error: invalid arguments; try --help");
    2
}

// Runs `locks node` on a platform, and logs by the clock and on the standard error of `rt`.
fn run_node_words<
    D: LogDisk + FailureCause + Drop,
    S: DatagramSocket + Drop,
    P: Platform<D, S>,
    R: Eprint + Clock,
    E: Write,
>(rt: &R, platform: &P, alloc: Global, matches: &ArgMatches<'_>, err: &mut E) -> u8
    ensures status { result ≤ 2 }
    // At status 0 the node of the plan that the arguments spell has run on what that plan names.
    ensures ran { result ≡ 0 → RunsArguments (P.is_text platform.now) (P.is_store platform.now)
        (P.is_bound platform.now) D.is_honest D.disk ⟦<Replica<LockTable, D> as ServerReplica>⟧.Says S.is_observable
        S.sent S.failures S.incoming matches.now result }
{
    let plan = match node_plan(matches) {
        Ok(plan) => plan,
        Err(error) => return write_argument_error(&error, err),
    };
    match run_logged::<D, S, P, R, E>(
        rt,
        platform,
        alloc,
        &plan,
        level_of(matches),
        matches.get_flag("events"),
        err,
    ) {
        Ok(ended) => ended.status,
        Err(fault) => fault.write_to(err),
    }
}

// Runs `locks init`.
fn run_init_words<R: Files<File = File>, E: Write>(
    rt: &R,
    alloc: Global,
    matches: &ArgMatches<'_>,
    err: &mut E,
) -> u8
    ensures { result ≤ 2 }
{
    match init_plan(matches) {
        Ok(plan) => init::<LockTable, R, E>(rt, alloc, &plan, err),
        Err(error) => write_argument_error(&error, err),
    }
}

// Runs `locks seed`.
fn run_seed_words<R: Files<File = File>, E: Write>(
    rt: &R,
    alloc: Global,
    matches: &ArgMatches<'_>,
    err: &mut E,
) -> u8
    ensures { result ≤ 2 }
{
    let survivors = matches.get_strs("from").unwrap_or(&[]);
    match seed_plan(alloc, matches) {
        Ok(Ok(plan)) => seed(rt, alloc, plan, survivors, err),
        Ok(Err(error)) => write_argument_error(&error, err),
        Err(fault) => fault.write_to(err),
    }
}

// Returns the address to bind a client's socket to: any of its machine, in the family of the nodes that it asks, since
// an answer may name a node elsewhere; 127.0.0.1 with neither `--address` nor `--hosts`.
fn local_address(options: &NetworkOptions<'_>, inquiry: &Inquiry) -> IpAddr {
    let local = inquiry.local_address();
    if local.is_ipv4() && (options.bind.is_some() || options.hosts.is_some()) {
        return IpAddr::V4(Ipv4Addr::UNSPECIFIED);
    }
    local
}

// Sends the request of a plan from this socket, if it may be sent: to these places in turn, of which the first ones are
// the nodes. Waits for its lock if the plan says so.
fn ask_from<S: DatagramSocket, C: Clock, W: Write, E: Write>(
    alloc: Global,
    socket: &mut S,
    clock: &C,
    plan: AskPlan<'_>,
    places: Vec<Place>,
    out: &mut W,
    err: &mut E,
) -> u8
    requires { WaitsFor plan.question.request.op plan.wait }
    ensures { result ≤ 2 }
{
    let AskPlan {
        question,
        inquiry,
        is_forced,
        wait,
        ..
    } = plan;
    match wait {
        Some(wait) => wait_at(
            alloc, socket, clock, inquiry, question, wait, places, out, err,
        ),
        None => ask_if_cleared(
            alloc, socket, inquiry, question, &places, is_forced, out, err,
        ),
    }
}

// Reads the addresses and keys, opens a socket, and sends the request of the plan if it may be sent.
fn run_ask<R: Files<File = File> + Net + Clock, W: Write, E: Write>(
    rt: &R,
    alloc: Global,
    plan: AskPlan<'_>,
    out: &mut W,
    err: &mut E,
) -> u8
    requires { WaitsFor plan.question.request.op plan.wait }
    ensures { result ≤ 2 }
{
    let AskPlan {
        question,
        mut inquiry,
        is_forced,
        options,
        wait,
    } = plan;
    inquiry.destination = match destination_of(&System(rt), alloc, inquiry.cluster, &options, err) {
        Ok(destination) => destination,
        Err(fault) => return fault.write_to(err),
    };
    let places = match places_of(alloc, &inquiry) {
        Ok(places) => places,
        Err(_) => return ProgramFault::NoMemory.write_to(err),
    };
    let local = local_address(&options, &inquiry);
    let plan = AskPlan {
        question,
        inquiry,
        is_forced,
        options,
        wait,
    };
    match open_socket_at(rt, SocketAddr::from((local, 0)), err) {
        Ok(mut socket) => ask_from(alloc, &mut socket, rt, plan, places, out, err),
        Err(fault) => fault.write_to(err),
    }
}

// Runs `locks ask`.
fn run_ask_words<R: Files<File = File> + Net + Clock, W: Write, E: Write>(
    rt: &R,
    alloc: Global,
    matches: &ArgMatches<'_>,
    out: &mut W,
    err: &mut E,
) -> u8
    ensures { result ≤ 2 }
{
    let plan = match ask_plan(alloc, matches) {
        Ok(Ok(plan)) => plan,
        Ok(Err(error)) => return write_argument_error(&error, err),
        Err(fault) => return fault.write_to(err),
    };
    warn_of_name(matches.get_strs("op").unwrap_or(&[]), err);
    run_ask(rt, alloc, plan, out, err)
}

// Runs `locks status`.
fn run_status_words<R: Files<File = File> + Net, W: Write, E: Write>(
    rt: &R,
    alloc: Global,
    matches: &ArgMatches<'_>,
    out: &mut W,
    err: &mut E,
) -> u8
    ensures { result ≤ 2 }
{
    let mut plan = match status_plan(alloc, matches) {
        Ok(Ok(plan)) => plan,
        Ok(Err(error)) => return write_argument_error(&error, err),
        Err(fault) => return fault.write_to(err),
    };
    let options = match ask_options(matches) {
        Ok(options) => options,
        Err(error) => return write_argument_error(&error, err),
    };
    plan.inquiry.destination = match destination_of(
        &System(rt),
        alloc,
        plan.inquiry.cluster,
        &options,
        err,
    ) {
        Ok(destination) => destination,
        Err(fault) => return fault.write_to(err),
    };
    match open_socket_at(rt, SocketAddr::from((plan.inquiry.local_address(), 0)), err) {
        Ok(mut socket) => status(alloc, &mut socket, &plan, out, err),
        Err(fault) => fault.write_to(err),
    }
}

// Runs `locks client-key`.
fn run_client_key_words<T: TextFiles, W: Write, E: Write>(
    files: &T,
    alloc: Global,
    matches: &ArgMatches<'_>,
    out: &mut W,
    err: &mut E,
) -> u8
    ensures status { result ≤ 2 }
    ensures printed { result ≡ 0
        → PrintsClientKey (T.is_text files.now) matches.now (W.contents out.old) (W.contents out.new) }
{
    match client_key_plan(matches) {
        Ok((master, client)) => client_key(files, alloc, master, client, out, err),
        Err(error) => write_argument_error(&error, err),
    }
}

// Runs `locks sim`: a script from standard input.
fn run_sim_words<R: BufRead, W: Write, E: Write>(
    alloc: Global,
    matches: &ArgMatches<'_>,
    reader: &mut R,
    out: &mut W,
    err: &mut E,
) -> u8
    ensures { result ≤ 2 }
{
    if matches.get_flag("state") {
        return run_to_state::<Nodes, R, W, E>(alloc, reader, out, err);
    }
    run_to_end::<Nodes, R, W, E>(alloc, reader, out, err)
}

// Runs `locks fuzz`: a random schedule.
fn run_fuzz_words<W: Write, E: Write>(
    alloc: Global,
    matches: &ArgMatches<'_>,
    out: &mut W,
    err: &mut E,
) -> u8
    ensures { result ≤ 2 }
{
    let plan = match fuzz_plan(matches) {
        Ok(plan) => plan,
        Err(error) => return write_argument_error(&error, err),
    };
    if matches.get_flag("script") {
        return print_script::<Nodes, W, E>(alloc, plan, out, err);
    }
    run_fuzz::<Nodes, W, E>(alloc, plan, out, err)
}

// Runs the subcommand that the command line names, `node` on this platform; status 2 if it names none.
fn run_matches<
    D: LogDisk + FailureCause + Drop,
    S: DatagramSocket + Drop,
    P: Platform<D, S>,
    H: Files<File = File> + Net + Eprint + Clock,
    R: BufRead,
    W: Write,
    E: Write,
>(
    rt: &H,
    platform: &P,
    alloc: Global,
    matches: &ArgMatches<'_>,
    reader: &mut R,
    out: &mut W,
    err: &mut E,
) -> u8
    ensures status { result ≤ 2 }
    // If `node` is named, that is so of its arguments.
    ensures node { subcommand_name_of matches.now ≡ Some (codes "node") → result ≡ 0
        → RunsNamed (P.is_text platform.now) (P.is_store platform.now) (P.is_bound platform.now) D.is_honest D.disk
        ⟦<Replica<LockTable, D> as ServerReplica>⟧.Says S.is_observable S.sent S.failures S.incoming
        matches.now result }
{
    let Some((name, words)) = matches.subcommand() else {
        return 2;
    };
    let Some(subcommand) = Subcommand::of(name) else {
        return 2;
    };
    match subcommand {
        Subcommand::Sim => run_sim_words(alloc, words, reader, out, err),
        Subcommand::Fuzz => run_fuzz_words(alloc, words, out, err),
        Subcommand::Node => run_node_words::<D, S, P, H, E>(rt, platform, alloc, words, err),
        Subcommand::Init => run_init_words(rt, alloc, words, err),
        Subcommand::Ask => run_ask_words(rt, alloc, words, out, err),
        Subcommand::Demo => demo::<LockTable, H, W, E>(rt, alloc, out, err),
        Subcommand::Dump => dump(rt, alloc, word(words, "dir"), out, err),
        Subcommand::Scrub => scrub(rt, alloc, word(words, "dir"), out, err),
        Subcommand::Status => run_status_words(rt, alloc, words, out, err),
        Subcommand::Seed => run_seed_words(rt, alloc, words, err),
        Subcommand::ClientKey => run_client_key_words(platform, alloc, words, out, err),
        Subcommand::Inspect => {
            let (folder, listing) = (word(words, "dir"), listing_of(words));
            inspect(rt, alloc, folder, listing, out, err)
        }
    }
}

// Writes the help that was asked for.
fn write_help<W: Write>(help: &Error, out: &mut W) -> Result<(), ScriptFault> {
    write!(out, "{help}").map_err(|_| ScriptFault::Write)
}

// Reports why the command line was rejected: help goes to standard output with status 0, out of memory has status 1,
// anything else status 2.
fn refuse_command_line<W: Write, E: Write>(error: &Error, out: &mut W, err: &mut E) -> u8
    ensures { result ≤ 2 }
{
    if error.kind() == ErrorKind::OutOfMemory {
        return write_fault(ScriptFault::ScriptMemory, err);
    }
    if error.use_stderr() {
        let _ = write!(err, "{error}");
        return 2;
    }
    let wrote = write_help(error, out);
    end(wrote, out, err)
}

/// Reads the command line, whose first word is the program's name, and runs it. Returns the status: 0; 1 after a fault,
/// whose message is the last line of standard error, or if nothing answered or there is no store; 2 if the command line
/// is invalid.
pub fn run_words<'a, H: Files<File = File> + Net + Eprint + Clock, R: BufRead, W: Write, E: Write>(
    rt: &H,
    alloc: Global,
    words: &'a [&'a str],
    reader: &mut R,
    out: &mut W,
    err: &mut E,
) -> u8
    ensures { result ≤ 2 }
{
    let Ok(command) = program(alloc) else {
        return write_fault(ScriptFault::ScriptMemory, err);
    };
    match command.try_get_matches_from(words) {
        Ok(matches) => run_matches::<FolderDisk, LocalSocket, System<'_, H>, H, R, W, E>(
            rt,
            &System(rt),
            alloc,
            &matches,
            reader,
            out,
            err,
        ),
        Err(error) => refuse_command_line(&error, out, err),
    }
}

/// Writes why no command line could be read. Returns status 2 for an argument that is not valid UTF-8, or 1 if it is
/// out of memory.
pub fn write_start_error<E: Write>(error: &io::Error, err: &mut E) -> u8
    ensures { result ≤ 2 }
{
    if error.kind() == io::ErrorKind::InvalidData {
        let _ = writeln!(err, "error: an argument is not valid UTF-8");
        return 2;
    }
    write_fault(ScriptFault::ScriptMemory, err)
}
