//! The admins that `--admin` names, for `locks node`.

ghost use Rattle.std.specs.Prelude.{◌≡◌, IfOk, IfErr, IfSome, IsNone, codes};
ghost use Rattle.clap.specs.Matches.{found_of, first_value};
ghost use Rattle.lk_command_line.specs.Admins.{AreAdmins, AddsClients, IsNoList};
ghost use Rattle.lk_command_line.specs.Arguments.{word_of};
ghost use Rattle.lk_address_book.specs.Admins.{nobody};
ghost use Rattle.lk_address_book.specs.declared.admins.Admins.{Admins as AdminsValue};

use crate::argument_error::{ArgumentError, invalid_word};
use crate::values::client_of;
use clap::ArgMatches;
use lk_address_book::admins::Admins;
use lk_word_parsers::word::split_once;

// Reads clients, one or more, separated by commas, as a list of admins. `None` if a word spells no client.
fn admins_of(words: &[u8]) -> Option<Admins>
    ensures some { IfSome result (AddsClients words.now nobody) }
    ensures none { IsNone result → (a : AdminsValue) → AddsClients words.now nobody a → ⊥ }
{
    let mut admins = Admins::nobody();
    let mut rest = words;
    'words: while let Some((word, behind)) = split_once(rest, b',') {
        let Some(client) = client_of(word) else {
            return None;
        };
        admins.admit(client);
        rest = behind;
    }
    let Some(client) = client_of(rest) else {
        return None;
    };
    admins.admit(client);
    Some(admins)
}

/// Reads `--admin`, clients separated by commas; without it each client is an admin.
pub fn admins_in<'a>(matches: &ArgMatches<'a>) -> Result<Admins, ArgumentError<'a>>
    ensures ok { IfOk result (AreAdmins (first_value (found_of matches.now) (codes "admin"))) }
    ensures err { IfErr result (IsNoList (codes "admin") (word_of matches.now (codes "admin"))) }
{
    let Some(word) = matches.get_str("admin") else {
        return Ok(Admins::Everyone);
    };
    match admins_of(word.as_bytes()) {
        Some(admins) => Ok(admins),
        None => Err(invalid_word("admin", word)),
    }
}
