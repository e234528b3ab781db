//! Reads the arguments of `locks seed`.

ghost use Rattle.std.specs.Prelude.{IfOk, codes, map};
ghost use Rattle.lk_command_line.specs.Arguments.{words_of};
ghost use Rattle.lk_seed.specs.Words.{SpellAllWanted};
ghost use Rattle.lk_main.specs.Seeds.{AreWantedBy, IsAlone, PlansSeed};

use clap::ArgMatches;
use lk_command_line::argument_error::{ArgumentError, invalid_word};
use lk_command_line::values::{genesis_in, node_in, number_in, word};
use lk_program_fault::ProgramFault;
use lk_seed::seed::SeedPlan;
use lk_seed::wanted::{Wanted, read_wanted};
use lk_store_format::Header;
use lk_types::limits::MAX_COUNT;
use std::alloc::Global;

// Reads whose store to begin: that of the only member of the genesis.
fn header_in<'a>(matches: &ArgMatches<'a>) -> Result<Header, ArgumentError<'a>>
    ensures { IfOk result (IsAlone matches.now) }
{
    let genesis = genesis_in(matches)?;
    let node = node_in(matches)?;
    match genesis.members.as_slice() {
        [only] if only.node == node => Ok(Header::new(node, genesis)),
        [_] => Err(invalid_node(matches)),
        _ => Err(invalid_members(matches)),
    }
}

// Returns the error of a number that is not that of the only member.
fn invalid_node<'a>(matches: &ArgMatches<'a>) -> ArgumentError<'a> {
    ArgumentError {
        argument: "number",
        value: word(matches, "number"),
        wanted: "must be the node of the genesis",
    }
}

// Returns the error of a genesis with several members.
fn invalid_members<'a>(matches: &ArgMatches<'a>) -> ArgumentError<'a> {
    ArgumentError {
        argument: "genesis",
        value: word(matches, "genesis"),
        wanted: "a seeded cluster begins with one member; others join it",
    }
}

// Reads each of these words as what is wanted of a name. The inner error is that of an invalid word, the outer one out
// of memory.
fn read_names<'a>(
    alloc: Global,
    words: &[&'a str],
) -> Result<Result<Vec<Wanted>, ArgumentError<'a>>, ProgramFault>
    ensures { IfOk result (λ inner. IfOk inner
        (λ wanted. SpellAllWanted (map (λ word. word.now) words.now) wanted.items)) }
{
    let mut wanted = Vec::new(alloc);
    'words: for word in words {
        let Some(one) = read_wanted(word.as_bytes()) else {
            return Ok(Err(invalid_word("name", word)));
        };
        wanted.push(one)?;
    }
    Ok(Ok(wanted))
}

// Reads `--name`, each word as what is wanted of a name.
fn names_in<'a>(
    alloc: Global,
    matches: &ArgMatches<'a>,
) -> Result<Result<Vec<Wanted>, ArgumentError<'a>>, ProgramFault>
    ensures { IfOk result (λ inner. IfOk inner
        (λ wanted. AreWantedBy (words_of matches.now (codes "name")) wanted.items)) }
{
    match matches.get_strs("name") {
        Some(words) => read_names(alloc, words),
        None => Ok(Ok(Vec::new(alloc))),
    }
}

// Returns the plan of `locks seed` that wants these fences.
fn seed_plan_of<'a>(
    matches: &ArgMatches<'a>,
    wanted: Vec<Wanted>,
) -> Result<SeedPlan<'a>, ArgumentError<'a>>
    requires { AreWantedBy (words_of matches.now (codes "name")) wanted.items }
    ensures { IfOk result (PlansSeed matches.now) }
{
    Ok(SeedPlan {
        header: header_in(matches)?,
        folder: word(matches, "dir"),
        past: number_in(matches, "past", MAX_COUNT - 1)?,
        wanted,
    })
}

/// Reads the arguments of `locks seed`. The outer error is running out of memory, the inner one an invalid argument.
pub fn seed_plan<'a>(
    alloc: Global,
    matches: &ArgMatches<'a>,
) -> Result<Result<SeedPlan<'a>, ArgumentError<'a>>, ProgramFault>
    ensures { IfOk result (λ inner. IfOk inner (PlansSeed matches.now)) }
{
    match names_in(alloc, matches)? {
        Ok(wanted) => Ok(seed_plan_of(matches, wanted)),
        Err(error) => Ok(Err(error)),
    }
}
