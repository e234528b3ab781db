//! Reads the arguments of each subcommand into a plan of what it is to do.

ghost use Rattle.std.specs.Prelude.{◌≡◌, IfOk, option_map, codes};
ghost use Rattle.lk_command_line.specs.Arguments.{words_of, IsSet, IsUnset};
ghost use Rattle.lk_command_line.specs.Targets.{AreTargetsOf};
ghost use Rattle.lk_main.specs.Plans.{LogsAt, OptionsAre, PacesAs, PlansAsk, PlansClientKey, PlansInit};
ghost use Rattle.lk_main.specs.Plans.{PlansNode, PlansSchedule};

use clap::ArgMatches;
use lk_address_book::admins::Admins;
use lk_client::question::Question;
use lk_client::waiting::Wait;
use lk_command_line::admins::admins_in;
use lk_command_line::argument_error::{ArgumentError, invalid_argument};
use lk_command_line::asking::{inquiry_of, question_of, wait_in};
use lk_command_line::operation::invalid_operation;
use lk_command_line::targets::targets_in;
use lk_command_line::values::{
    address_in, client_in, genesis_in, node_in, number_in, port_in, word,
};
use lk_inspect::lines::Listing;
use lk_node_process::first_store::InitPlan;
use lk_node_setup::network::NetworkOptions;
use lk_node_setup::resources::NodePlan;
use lk_pacing::pace::Pace;
use lk_program_fault::ProgramFault;
use lk_random_schedules::fuzzing::MAX_EVENTS;
use lk_random_schedules::plan::Plan;
use lk_status::target::{Inquiry, Target};
use lk_store_format::Header;
use lk_types::{ClientNo, Op};
use lk_word_parsers::command_line::operation_of;
use log::Level;
use std::alloc::Global;

// Reads the options about others; `name` is the option with the address.
fn options_in<'a>(
    matches: &ArgMatches<'a>,
    name: &'a str,
    key: Option<&'a str>,
    admins: Admins,
) -> Result<NetworkOptions<'a>, ArgumentError<'a>>
    ensures options { IfOk result (OptionsAre matches.now name.now) }
    ensures key { IfOk result (λ o. o.key ≡ key.entry) }
    ensures admins { IfOk result (λ o. o.admins ≡ admins) }
{
    Ok(NetworkOptions {
        hosts: matches.get_str("hosts"),
        bind: address_in(matches, name)?,
        key,
        client_key: matches.get_str("client-key"),
        admins,
    })
}

/// Reads a client's options about other machines.
pub fn ask_options<'a>(matches: &ArgMatches<'a>) -> Result<NetworkOptions<'a>, ArgumentError<'a>>
    ensures { IfOk result (OptionsAre matches.now (codes "address")) }
{
    options_in(matches, "address", None, Admins::Everyone)
}

// Reads what the ticks of a node go by. Nodes with a key always go by the clock, and `--ticks datagrams` is then
// invalid.
fn pace_in<'a>(matches: &ArgMatches<'a>) -> Result<Pace, ArgumentError<'a>>
    ensures { IfOk result (PacesAs matches.now) }
{
    let has_key = matches.get_str("key").is_some();
    match matches.get_str("ticks") {
        None if has_key => Ok(Pace::Clock),
        None => Ok(Pace::Datagrams),
        Some("clock") => Ok(Pace::Clock),
        Some("datagrams") if !has_key => Ok(Pace::Datagrams),
        Some(_) => Err(invalid_argument(matches, "ticks")),
    }
}

/// Reads the arguments of `locks node`.
pub fn node_plan<'a>(matches: &ArgMatches<'a>) -> Result<NodePlan<'a>, ArgumentError<'a>>
    ensures { IfOk result (PlansNode matches.now) }
{
    let genesis = genesis_in(matches)?;
    let node = node_in(matches)?;
    Ok(NodePlan {
        header: Header::new(node, genesis),
        port: port_in(matches)?,
        pace: pace_in(matches)?,
        folder: word(matches, "dir"),
        existing: matches.get_flag("existing"),
        sums: matches.get_flag("sums"),
        bundles: matches.get_flag("bundle"),
        options: options_in(matches, "bind", matches.get_str("key"), admins_in(matches)?)?,
    })
}

/// Returns the level at which a node logs: debug with `--verbose`, info with `--log` alone, `None` without either.
pub fn level_of(matches: &ArgMatches<'_>) -> Option<Level>
    ensures { LogsAt matches.now result }
{
    if matches.get_flag("verbose") {
        return Some(Level::Debug);
    }
    matches.get_flag("log").then_some(Level::Info)
}

/// Returns which names `locks inspect` prints: all with `--all`, else those that are held.
pub fn listing_of(matches: &ArgMatches<'_>) -> Listing
    ensures all { IsSet matches.now (codes "all") → result ≡ Listing.All }
    ensures held { IsUnset matches.now (codes "all") → result ≡ Listing.Held }
{
    if matches.get_flag("all") {
        Listing::All
    } else {
        Listing::Held
    }
}

/// Reads the arguments of `locks init`.
pub fn init_plan<'a>(matches: &ArgMatches<'a>) -> Result<InitPlan<'a>, ArgumentError<'a>>
    ensures { IfOk result (PlansInit matches.now) }
{
    let genesis = genesis_in(matches)?;
    let node = node_in(matches)?;
    Ok(InitPlan {
        header: Header::new(node, genesis),
        folder: word(matches, "dir"),
        sums: matches.get_flag("sums"),
    })
}

/// Reads the arguments of `locks fuzz`.
pub fn fuzz_plan<'a>(matches: &ArgMatches<'a>) -> Result<Plan, ArgumentError<'a>>
    ensures { IfOk result (PlansSchedule matches.now) }
{
    let start = number_in(matches, "start", u64::MAX)?;
    let events = number_in(matches, "events", MAX_EVENTS)?;
    Ok(Plan {
        start,
        count: events as u32,
        groups: matches.get_flag("groups"),
        nudges: matches.get_flag("nudges"),
    })
}

/// Reads the arguments of `locks client-key`: the file of the masters, and the client whose key to print.
pub fn client_key_plan<'a>(
    matches: &ArgMatches<'a>,
) -> Result<(&'a str, ClientNo), ArgumentError<'a>>
    ensures { IfOk result (λ p. PlansClientKey matches.now p.0.now p.1) }
{
    Ok((word(matches, "master"), client_in(matches)?))
}

/// What `locks ask` is to ask; whom, in turn, and first for their members if the request is a join or a leave that is
/// not forced; for which lock it waits, if it does; and its options about other machines.
#[derive(Drop)]
pub struct AskPlan<'a> {
    pub question: Question,
    pub inquiry: Inquiry,
    pub is_forced: bool,
    pub wait: Option<Wait>,
    pub options: NetworkOptions<'a>,
}

// Returns the plan of `locks ask` with this operation and these targets.
fn ask_plan_of<'a>(
    matches: &ArgMatches<'a>,
    op: Op,
    targets: Vec<Target>,
) -> Result<AskPlan<'a>, ArgumentError<'a>>
    requires { AreTargetsOf (words_of matches.now (codes "port")) targets.items }
    ensures { IfOk result (PlansAsk matches.now) }
{
    let Some(first) = targets.first() else {
        return Err(invalid_argument(matches, "port"));
    };
    let options = ask_options(matches)?;
    let wait = wait_in(matches, &op)?;
    let question = question_of(matches, op, first.port)?;
    Ok(AskPlan {
        inquiry: inquiry_of(matches, &question, targets),
        question,
        is_forced: matches.get_flag("force"),
        wait,
        options,
    })
}

/// Reads the arguments of `locks ask`. The outer error is running out of memory, the inner one an invalid argument.
pub fn ask_plan<'a>(
    alloc: Global,
    matches: &ArgMatches<'a>,
) -> Result<Result<AskPlan<'a>, ArgumentError<'a>>, ProgramFault>
    ensures { IfOk result (λ plan. IfOk plan (PlansAsk matches.now)) }
{
    let words = matches.get_strs("op").unwrap_or(&[]);
    let Some(op) = operation_of(alloc, words)? else {
        let first = matches.get_str("op").unwrap_or("");
        return Ok(Err(invalid_operation(first)));
    };
    match targets_in(alloc, matches)? {
        Ok(targets) => Ok(ask_plan_of(matches, op, targets)),
        Err(error) => Ok(Err(error)),
    }
}
