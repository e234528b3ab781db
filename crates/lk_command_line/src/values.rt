//! The values of a subcommand's arguments, or the error of an invalid one.

ghost use Rattle.std.specs.Net.Grammar.{IsIpText};
ghost use Rattle.std.specs.Prelude.{◌≡◌, ◌≤◌, IfOk, IfErr, IfSome, IsNone, is_some, codes};
ghost use Rattle.lk_types.specs.Ranges.{IsClient, IsCount, IsNode, IsPort};
ghost use Rattle.lk_word_parsers.specs.Geneses.{SpellsGenesis};
ghost use Rattle.lk_command_line.specs.Arguments.{is_given, word_of};
ghost use Rattle.lk_command_line.specs.Spellings.{IsNoAddress, IsNoGenesis, IsRefused, Spells, SpellsNone};

use crate::argument_error::{ArgumentError, invalid_genesis, invalid_word};
use clap::ArgMatches;
use lk_types::limits::{MAX_CLIENT, MAX_COUNT};
use lk_types::{ClientNo, Genesis, NodeNo, Port, RequestNumber};
use lk_word_parsers::genesis::read_genesis;
use lk_word_parsers::number::read_number;
use lk_word_parsers::operation::{node_of, port_of};
use std::net::IpAddr;

/// Returns the first word of an argument, empty if it was not given.
pub fn word<'a>(matches: &ArgMatches<'a>, name: &str) -> &'a str
    ensures { result.now ≡ word_of matches.now name.now }
{
    match matches.get_str(name) {
        Some(word) => word,
        None => "",
    }
}

/// Reads a word as a decimal number without leading zeros, `greatest` at most. An error names `argument`.
pub fn read_number_up_to<'a>(
    argument: &'a str,
    word: &'a str,
    greatest: u64,
) -> Result<u64, ArgumentError<'a>>
    ensures ok { IfOk result (Spells (λ n. n ≤ greatest) word.now) }
    ensures err { IfErr result (IsRefused (λ n. n ≤ greatest) argument.now word.now) }
{
    match read_number(word.as_bytes(), greatest) {
        Some(number) => Ok(number),
        None => Err(invalid_word(argument, word)),
    }
}

/// Reads an argument as a decimal number without leading zeros, `greatest` at most.
pub fn number_in<'a>(
    matches: &ArgMatches<'a>,
    name: &'a str,
    greatest: u64,
) -> Result<u64, ArgumentError<'a>>
    ensures ok { IfOk result (Spells (λ n. n ≤ greatest) (word_of matches.now name.now)) }
    ensures err { IfErr result (IsRefused (λ n. n ≤ greatest) name.now (word_of matches.now name.now)) }
{
    read_number_up_to(name, word(matches, name), greatest)
}

/// Reads an argument as an IP address, `None` if it was not given.
pub fn address_in<'a>(
    matches: &ArgMatches<'a>,
    name: &'a str,
) -> Result<Option<IpAddr>, ArgumentError<'a>>
    ensures given { IfOk result (λ address. is_some address ≡ is_given matches.now name.now) }
    ensures ok { IfOk result (λ address. IfSome address (IsIpText (word_of matches.now name.now))) }
    ensures err { IfErr result (IsNoAddress name.now (word_of matches.now name.now)) }
{
    let Some(word) = matches.get_str(name) else {
        return Ok(None);
    };
    match IpAddr::parse_ascii(word.as_bytes()) {
        Ok(address) => Ok(Some(address)),
        Err(_) => Err(invalid_word(name, word)),
    }
}

/// Reads `--genesis`. The error names its first invalid part.
pub fn genesis_in<'a>(matches: &ArgMatches<'a>) -> Result<Genesis, ArgumentError<'a>>
    ensures ok { IfOk result (λ g. SpellsGenesis (word_of matches.now (codes "genesis")) g.cluster g.alpha g.members) }
    ensures err { IfErr result (IsNoGenesis (word_of matches.now (codes "genesis"))) }
{
    let text = word(matches, "genesis");
    match read_genesis(text.as_bytes()) {
        Some(genesis) => Ok(genesis),
        None => Err(invalid_genesis(text)),
    }
}

// Reads a word as the number of a node. An error names `--number`.
fn read_node<'a>(word: &'a str) -> Result<NodeNo, ArgumentError<'a>>
    ensures ok { IfOk result (Spells IsNode word.now) }
    ensures err { IfErr result (IsRefused IsNode (codes "number") word.now) }
{
    match node_of(word.as_bytes()) {
        Some(node) => Ok(node),
        None => Err(invalid_word("number", word)),
    }
}

/// Reads `--number`, the number of the node.
pub fn node_in<'a>(matches: &ArgMatches<'a>) -> Result<NodeNo, ArgumentError<'a>>
    ensures ok { IfOk result (Spells IsNode (word_of matches.now (codes "number"))) }
    ensures err { IfErr result (IsRefused IsNode (codes "number") (word_of matches.now (codes "number"))) }
{
    read_node(word(matches, "number"))
}

/// Reads a word as a port. An error names `--port`.
pub fn read_port<'a>(word: &'a str) -> Result<Port, ArgumentError<'a>>
    ensures ok { IfOk result (Spells IsPort word.now) }
    ensures err { IfErr result (IsRefused IsPort (codes "port") word.now) }
{
    match port_of(word.as_bytes()) {
        Some(port) => Ok(port),
        None => Err(invalid_word("port", word)),
    }
}

/// Reads the first `--port`.
pub fn port_in<'a>(matches: &ArgMatches<'a>) -> Result<Port, ArgumentError<'a>>
    ensures ok { IfOk result (Spells IsPort (word_of matches.now (codes "port"))) }
    ensures err { IfErr result (IsRefused IsPort (codes "port") (word_of matches.now (codes "port"))) }
{
    read_port(word(matches, "port"))
}

// Reads a word as the number of a client, 1 to 256. `None` if it spells none.
pub(crate) fn client_of(word: &[u8]) -> Option<ClientNo>
    ensures some { IfSome result (Spells IsClient word.now) }
    ensures none { IsNone result → SpellsNone IsClient word.now }
{
    let number = read_number(word, u64::from(MAX_CLIENT))?;
    ClientNo::of(number as u16)
}

/// Reads a word as the number of a client. An error names `--client`.
pub fn read_client<'a>(word: &'a str) -> Result<ClientNo, ArgumentError<'a>>
    ensures ok { IfOk result (Spells IsClient word.now) }
    ensures err { IfErr result (IsRefused IsClient (codes "client") word.now) }
{
    match client_of(word.as_bytes()) {
        Some(client) => Ok(client),
        None => Err(invalid_word("client", word)),
    }
}

/// Reads `--client`.
pub fn client_in<'a>(matches: &ArgMatches<'a>) -> Result<ClientNo, ArgumentError<'a>>
    ensures ok { IfOk result (Spells IsClient (word_of matches.now (codes "client"))) }
    ensures err { IfErr result (IsRefused IsClient (codes "client") (word_of matches.now (codes "client"))) }
{
    read_client(word(matches, "client"))
}

// Reads a word as the number of a request, 1 to 2^48. `None` if it spells none.
fn request_of(word: &[u8]) -> Option<RequestNumber>
    ensures some { IfSome result (Spells IsCount word.now) }
    ensures none { IsNone result → SpellsNone IsCount word.now }
{
    let number = read_number(word, MAX_COUNT)?;
    RequestNumber::of(number)
}

// Reads a word as the number of a request. An error names `--request`.
fn read_request<'a>(word: &'a str) -> Result<RequestNumber, ArgumentError<'a>>
    ensures ok { IfOk result (Spells IsCount word.now) }
    ensures err { IfErr result (IsRefused IsCount (codes "request") word.now) }
{
    match request_of(word.as_bytes()) {
        Some(number) => Ok(number),
        None => Err(invalid_word("request", word)),
    }
}

/// Reads `--request`, the number of the request.
pub fn request_in<'a>(matches: &ArgMatches<'a>) -> Result<RequestNumber, ArgumentError<'a>>
    ensures ok { IfOk result (Spells IsCount (word_of matches.now (codes "request"))) }
    ensures err { IfErr result (IsRefused IsCount (codes "request") (word_of matches.now (codes "request"))) }
{
    read_request(word(matches, "request"))
}
