//! The nodes that `--port` names, for `locks ask` and `locks status`.

ghost use Rattle.std.specs.Prelude.{◌≡◌, IfOk, IfErr, codes};
ghost use Rattle.lk_command_line.specs.Arguments.{words_of};
ghost use Rattle.lk_command_line.specs.Targets.{AreTargetsOf};

use crate::argument_error::ArgumentError;
use clap::ArgMatches;
use lk_program_fault::ProgramFault;
use lk_status::target::{Target, targets_of};
use std::alloc::Global;

// Returns the error of the first of these words that is neither `PORT` nor `NODE:PORT`. If there is none, there are too
// many words.
fn invalid_targets<'a>(alloc: Global, words: &[&'a str]) -> Result<ArgumentError<'a>, ProgramFault>
    ensures { IfOk result (λ e. e.argument.now ≡ codes "port") }
{
    for word in words {
        if targets_of(alloc, &[*word])?.is_none() {
            return Ok(ArgumentError {
                argument: "port",
                value: *word,
                wanted: "must be PORT or NODE:PORT",
            });
        }
    }
    Ok(ArgumentError {
        argument: "port",
        value: words.last().copied().unwrap_or(""),
        wanted: "at most 64 nodes can be asked",
    })
}

/// Reads `--port`, each word as `PORT` or `NODE:PORT`. The inner error is that of an invalid word or of too many, the
/// outer one out of memory.
pub fn targets_in<'a>(
    alloc: Global,
    matches: &ArgMatches<'a>,
) -> Result<Result<Vec<Target>, ArgumentError<'a>>, ProgramFault>
    ensures ok { IfOk result (λ inner. IfOk inner
        (λ targets. AreTargetsOf (words_of matches.now (codes "port")) targets.items)) }
    ensures err { IfOk result (λ inner. IfErr inner (λ e. e.argument.now ≡ codes "port")) }
{
    let Some(words) = matches.get_strs("port") else {
        return Ok(Ok(Vec::new(alloc)));
    };
    match targets_of(alloc, words)? {
        Some(targets) => Ok(Ok(targets)),
        None => Ok(Err(invalid_targets(alloc, words)?)),
    }
}
