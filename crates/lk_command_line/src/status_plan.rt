//! Reads the arguments of `locks status` as a plan.

ghost use Rattle.std.specs.Prelude.{◌≡◌, ◌≤◌, ℕ, [], None, Ok, true, false, map, codes};
ghost use Rattle.std.specs.Prelude.{IfOk, IfErr, IsErrAnd, IfSome, IsNone};
ghost use Rattle.clap.specs.Matches.{found_of, first_value};
ghost use Rattle.lk_types.specs.Ranges.{IsClient};
ghost use Rattle.lk_command_line.specs.Arguments.{IsSet, IsUnset, Names, is_given, word_of, words_of};
ghost use Rattle.lk_command_line.specs.Spellings.{IsRefused, Spells, SpellsNone};
ghost use Rattle.lk_command_line.specs.StatusPlans.{IsAsker, IsNoTime, IsTime, IsTimeOf, PlansFor, SpellsReady};
ghost use Rattle.lk_command_line.specs.StatusPlans.{IsPatience, IsPatienceOf, IsWait, receives_of};

use crate::argument_error::{ArgumentError, invalid_word};
use crate::targets::targets_in;
use crate::values::{number_in, read_client, read_number_up_to};
use clap::ArgMatches;
use lk_client::destination::Destination;
use lk_program_fault::ProgramFault;
use lk_status::target::{Inquiry, Target};
use lk_status_command::status::{Form, Plan};
use lk_types::ClientNo;
use lk_word_parsers::number::read_number;
use std::alloc::Global;

// How long a receive waits, in milliseconds.
const RECEIVE_MS: u64 = 100;

// The greatest `--wait`, in milliseconds.
const MOST_WAIT: u64 = 60_000;

// How many receives may bring nothing if there is no `--wait`.
const PATIENCE: u32 = 5;

// The greatest `--until ready SECONDS`: a day.
const MOST_SECONDS: u64 = 86_400;

// Returns how many receives of 100 ms last as long as `wait` milliseconds, rounded up, one at least.
fn receives_of(wait: u64) -> u64
    ensures value { result ≡ receives_of wait }
    ensures few { wait ≤ 60000 → result ≤ 600 }
{
    if wait == 0 {
        return 1;
    }
    wait.div_ceil(RECEIVE_MS)
}

// Reads a wait in milliseconds, 60000 at most, and returns it as a number of receives.
fn read_patience<'a>(word: &'a str) -> Result<u32, ArgumentError<'a>>
    ensures ok { IfOk result (IsPatience word.now) }
    ensures err { IfErr result (IsRefused IsWait (codes "wait") word.now) }
{
    let wait = read_number_up_to("wait", word, MOST_WAIT)?;
    Ok(receives_of(wait) as u32)
}

// Reads `--wait` as the number of receives that may bring nothing, five without it.
fn patience_in<'a>(matches: &ArgMatches<'a>) -> Result<u32, ArgumentError<'a>>
    ensures ok { IfOk result (IsPatienceOf (first_value (found_of matches.now) (codes "wait"))) }
    ensures err { IfErr result (IsRefused IsWait (codes "wait") (word_of matches.now (codes "wait"))) }
{
    match matches.get_str("wait") {
        Some(word) => read_patience(word),
        None => Ok(PATIENCE),
    }
}

/// Reads seconds from 1 to 86400. `None` if the word spells none of them.
pub(crate) fn time_of(word: &[u8]) -> Option<u32>
    ensures some { IfSome result (Spells IsTime word.now) }
    ensures none { IsNone result → SpellsNone IsTime word.now }
{
    let seconds = read_number(word, MOST_SECONDS)?;
    if seconds == 0 {
        return None;
    }
    Some(seconds as u32)
}

// Reads the words after `--until`, `ready SECONDS`. `None` if they are anything else.
fn seconds_of(words: &[&str]) -> Option<u32>
    ensures some { IfSome result (SpellsReady (map (λ word. word.now) words.now)) }
    ensures none { IsNone result → (n : ℕ) → SpellsReady (map (λ word. word.now) words.now) n → ⊥ }
{
    match words {
        ["ready", seconds] => time_of(seconds.as_bytes()),
        _ => None,
    }
}

// Reads `--until` as the seconds to wait until all are ready, 0 without it.
fn seconds_in<'a>(matches: &ArgMatches<'a>) -> Result<u32, ArgumentError<'a>>
    ensures ok { IfOk result (IsTimeOf (words_of matches.now (codes "until"))) }
    ensures err { IfErr result (IsNoTime (words_of matches.now (codes "until"))) }
{
    let Some(words) = matches.get_strs("until") else {
        return Ok(0);
    };
    match seconds_of(words) {
        Some(seconds) => Ok(seconds),
        None => Err(invalid_word("until", words.last().copied().unwrap_or(""))),
    }
}

// Reads the form: lines, unless `--json` or `--prometheus` is given.
fn form_in<'a>(matches: &ArgMatches<'a>) -> Result<Form, ArgumentError<'a>>
    ensures lines { IsUnset matches.now (codes "json") → IsUnset matches.now (codes "prometheus")
        → result ≡ Ok Form.Lines }
    ensures json { IsSet matches.now (codes "json") → IsUnset matches.now (codes "prometheus")
        → result ≡ Ok Form.Json }
    ensures metrics { IsUnset matches.now (codes "json") → IsSet matches.now (codes "prometheus")
        → result ≡ Ok Form.Prometheus }
    // Both are refused.
    ensures both { IsSet matches.now (codes "json") → IsSet matches.now (codes "prometheus")
        → IsErrAnd result (Names (codes "prometheus") (codes "--json")) }
{
    match (matches.get_flag("json"), matches.get_flag("prometheus")) {
        (false, false) => Ok(Form::Lines),
        (true, false) => Ok(Form::Json),
        (false, true) => Ok(Form::Prometheus),
        (true, true) => Err(invalid_word("prometheus", "--json")),
    }
}

// Reads `--client`, the client whose key is used, `None` without it. A `--client-key` without `--client` is an error.
fn asker_in<'a>(matches: &ArgMatches<'a>) -> Result<Option<ClientNo>, ArgumentError<'a>>
    ensures ok { IfOk result (IsAsker (first_value (found_of matches.now) (codes "client"))) }
    // Without a client no key may be given.
    ensures keyless { is_given matches.now (codes "client") ≡ false → is_given matches.now (codes "client-key") ≡ false
        → result ≡ Ok None }
    ensures keyed { is_given matches.now (codes "client") ≡ false → is_given matches.now (codes "client-key") ≡ true
        → IsErrAnd result (Names (codes "client") []) }
    ensures err { is_given matches.now (codes "client") ≡ true
        → IfErr result (IsRefused IsClient (codes "client") (word_of matches.now (codes "client"))) }
{
    match (matches.get_str("client"), matches.get_str("client-key")) {
        (None, None) => Ok(None),
        (Some(word), _) => Ok(Some(read_client(word)?)),
        (None, Some(_)) => Err(ArgumentError {
            argument: "client",
            value: "",
            wanted: "needed with --client-key",
        }),
    }
}

// Returns the plan with these targets and all other arguments, or the error of the first invalid one. Its destination
// is this machine, without a key.
fn plan_of<'a>(matches: &ArgMatches<'a>, targets: Vec<Target>) -> Result<Plan, ArgumentError<'a>>
    ensures { IfOk result (PlansFor matches.now targets.items) }
{
    let cluster = number_in(matches, "cluster", u64::MAX)?;
    let (patience, seconds) = (patience_in(matches)?, seconds_in(matches)?);
    let (form, client) = (form_in(matches)?, asker_in(matches)?);
    let inquiry = Inquiry {
        cluster,
        client,
        destination: Destination::local(cluster),
        targets,
        patience,
    };
    Ok(Plan {
        inquiry,
        form,
        seconds,
    })
}

/// Returns the plan of `locks status`. The inner error is that of an invalid argument, the outer one out of memory.
pub fn status_plan<'a>(
    alloc: Global,
    matches: &ArgMatches<'a>,
) -> Result<Result<Plan, ArgumentError<'a>>, ProgramFault> {
    match targets_in(alloc, matches)? {
        Ok(targets) => Ok(plan_of(matches, targets)),
        Err(error) => Ok(Err(error)),
    }
}
