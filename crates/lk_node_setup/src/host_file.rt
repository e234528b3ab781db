//! The file of the hosts: where nodes live, a line for each.

ghost use Rattle.std.specs.Prelude.{◌≡◌, ◌↔◌, ◌∷◌, ◌++◌, [], ℕ, List, true, false, IsTrue, IfSome, IsNone, IfOk, IfErr};
ghost use Rattle.std.specs.Option.{option_copied};
ghost use Rattle.std.specs.declared.net.ip_addr.IpAddr.{IpAddr as Address};
ghost use Rattle.lk_auth.specs.KeyFiles.{is_blank_or_comment, lines};
ghost use Rattle.lk_node_setup.specs.HostFiles.{IsFirstInvalid, IsInvalidAfter, MayFollow, SpellHosts, SpellsHost};

use lk_program_fault::ProgramFault;
use lk_types::NodeNo;
use lk_word_parsers::operation::node_of;
use lk_word_parsers::word::{split_once, split_word};
use std::alloc::Global;
use std::net::IpAddr;

// Parses a line of the hosts: NODE ADDRESS.
fn host_of(line: &[u8]) -> Option<(NodeNo, IpAddr)>
    ensures some { IfSome result (SpellsHost line.now) }
    ensures none { IsNone result → (host : ℕ × Address) → SpellsHost line.now host → ⊥ }
{
    let (node, host) = split_word(line)?;
    let node = node_of(node)?;
    match IpAddr::parse_ascii(host) {
        Ok(host) => Some((node, host)),
        Err(_) => None,
    }
}

// Returns whether a line may follow the last one: its node is higher, and its address is of the same family.
fn may_follow(last: Option<&(NodeNo, IpAddr)>, host: &(NodeNo, IpAddr)) -> bool
    ensures { IsTrue result ↔ MayFollow (option_copied last.entry) host.now }
{
    match last {
        Some(last) => last.0 < host.0 && last.1.is_ipv4() == host.1.is_ipv4(),
        None => true,
    }
}

// Whether a line is empty or a comment.
fn is_blank_or_comment(line: &[u8]) -> bool
    ensures { result ≡ is_blank_or_comment line.now }
{
    line.is_empty() || line[0] == b'#'
}

// Adds the host of a line, unless that is empty or a comment. Returns whether the line is valid.
fn add_line(line: &[u8], hosts: &mut Vec<(NodeNo, IpAddr)>) -> Result<bool, ProgramFault>
    ensures adds { IfOk result
        (λ is_valid. is_valid ≡ true → (lines : List (List ℕ)) → SpellHosts lines hosts.old.items
        → SpellHosts (lines ++ line.now ∷ []) hosts.new.items) }
    ensures invalid { IfOk result (λ is_valid. is_valid ≡ false → IsInvalidAfter hosts.old.items line.now) }
{
    if is_blank_or_comment(line) {
        return Ok(true);
    }
    match host_of(line) {
        Some(host) if may_follow(hosts.last(), &host) => hosts.push(host)?,
        _ => return Ok(false),
    }
    Ok(true)
}

// Parses the lines of hosts, or returns the number, from 1, of the first invalid one. Nodes must rise, and all
// addresses must be of one family. The outer error is out of memory.
pub(crate) fn read_hosts(
    alloc: Global,
    text: &[u8],
) -> Result<Result<Vec<(NodeNo, IpAddr)>, u32>, ProgramFault>
    ensures hosts { IfOk result (λ r. IfOk r (λ hosts. SpellHosts (lines text.now) hosts.items)) }
    ensures invalid { IfOk result (λ r. IfErr r (IsFirstInvalid text.now)) }
{
    let mut hosts: Vec<(NodeNo, IpAddr)> = Vec::new(alloc);
    let mut number = 1u32;
    let mut rest = text;
    'lines: while let Some((line, behind)) = split_once(rest, b'\n') {
        if !add_line(line, &mut hosts)? {
            return Ok(Err(number));
        }
        number = number.saturating_add(1);
        rest = behind;
    }
    if !add_line(rest, &mut hosts)? {
        return Ok(Err(number));
    }
    Ok(Ok(hosts))
}
