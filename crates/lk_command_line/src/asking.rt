//! What `locks ask` is to send, and to which places.

ghost use Rattle.std.specs.Prelude.{◌≡◌, IfOk, IfErr, option_map, codes};
ghost use Rattle.clap.specs.Matches.{found_of, first_value};
ghost use Rattle.lk_command_line.specs.Arguments.{Names, word_of};
ghost use Rattle.lk_command_line.specs.Questions.{AsksAs, IsFirstError, IsWaitOf, SealsBy, WaitsFor};

use crate::argument_error::ArgumentError;
use crate::status_plan::time_of;
use crate::values::{client_in, number_in, request_in};
use clap::ArgMatches;
use lk_client::destination::{Destination, Place};
use lk_client::question::Question;
use lk_client::waiting::Wait;
use lk_client::wanted::Wanted;
use lk_status::target::{Inquiry, Target};
use lk_types::{ClientNo, Op, Port, Request};
use std::alloc::{AllocError, Global};

// How many receives of 100 ms may bring nothing before a round of probes ends.
const PATIENCE: u32 = 5;

/// Returns the question that `locks ask` sends for an operation, first to this port, with cluster, client and number
/// from the arguments, or the error of the first invalid one. Its destination is this machine, without a key.
pub fn question_of<'a>(
    matches: &ArgMatches<'a>,
    op: Op,
    port: Port,
) -> Result<Question, ArgumentError<'a>>
    ensures ok { IfOk result (AsksAs matches.now op port) }
    // The first of the three numbers that is invalid is refused.
    ensures err { IfErr result (IsFirstError matches.now) }
{
    let cluster = number_in(matches, "cluster", u64::MAX)?;
    let client = client_in(matches)?;
    let number = request_in(matches)?;
    Ok(Question {
        cluster,
        port,
        request: Request { client, number, op },
        destination: Destination::local(cluster),
    })
}

// Returns the client of the question if its key is given: then it seals the probes.
fn sealing_client(matches: &ArgMatches<'_>, question: &Question) -> Option<ClientNo>
    ensures { SealsBy matches.now question.now.request.client result }
{
    match matches.get_str("client-key") {
        Some(_) => Some(question.request.client),
        None => None,
    }
}

/// Returns what `locks ask` asks these targets before it sends a join or a leave: their status, with the key of the
/// question's client if it is given. The destination is this machine, without a key.
pub fn inquiry_of(matches: &ArgMatches<'_>, question: &Question, targets: Vec<Target>) -> Inquiry
    ensures cluster { result.cluster ≡ question.now.cluster }
    ensures client { SealsBy matches.now question.now.request.client result.client }
    ensures targets { result.targets ≡ targets }
{
    Inquiry {
        cluster: question.cluster,
        client: sealing_client(matches, question),
        destination: Destination::local(question.cluster),
        targets,
        patience: PATIENCE,
    }
}

// How often the place is asked, where there is one: each half second, for five seconds.
const ROUNDS_ALONE: u32 = 10;
// How often each place is asked, where there are several.
const ROUNDS: u32 = 3;

// Appends the places of all targets.
fn add_places(inquiry: &Inquiry, places: &mut Vec<Place>) -> Result<(), AllocError> {
    for target in inquiry.targets.as_slice() {
        places.push(inquiry.place_of(target))?;
    }
    Ok(())
}

/// Returns the places that `locks ask` asks in turn: those of the targets, each three times, or the only one ten times.
pub fn places_of(alloc: Global, inquiry: &Inquiry) -> Result<Vec<Place>, AllocError> {
    let mut places = Vec::new(alloc);
    let rounds = if inquiry.targets.len() < 2 {
        ROUNDS_ALONE
    } else {
        ROUNDS
    };
    for _ in 0..rounds {
        add_places(inquiry, &mut places)?;
    }
    Ok(places)
}

// Returns the error of an invalid `--wait`.
fn invalid_wait<'a>(word: &'a str, wanted: &'a str) -> ArgumentError<'a>
    ensures { Names (codes "wait") word.now result }
{
    ArgumentError {
        argument: "wait",
        value: word,
        wanted,
    }
}

/// Reads `--wait`: how many seconds `locks ask` waits for the lock that an op asks for, `None` without it. An op that
/// asks for no lock cannot wait.
pub fn wait_in<'a>(matches: &ArgMatches<'a>, op: &Op) -> Result<Option<Wait>, ArgumentError<'a>>
    ensures seconds { IfOk result (λ wait.
        IsWaitOf (first_value (found_of matches.now) (codes "wait")) (option_map (λ w. w.seconds) wait)) }
    ensures lock { IfOk result (λ wait. WaitsFor op.now wait) }
    ensures err { IfErr result (Names (codes "wait") (word_of matches.now (codes "wait"))) }
{
    let Some(word) = matches.get_str("wait") else {
        return Ok(None);
    };
    let Some(seconds) = time_of(word.as_bytes()) else {
        return Err(invalid_wait(word, "must be 1 to 86400 seconds"));
    };
    match Wanted::of(op) {
        Some(wanted) => Ok(Some(Wait { wanted, seconds })),
        None => Err(invalid_wait(word, "needs acquire NAME or share NAME")),
    }
}
