// The format of a file, and whether its entries mix the two formats.
ghost use Rattle.std.specs.Prelude.{◌≡◌};
ghost use Rattle.std.specs.List.{list_any};
ghost use Rattle.lk_store_format.specs.Formats.{format, is_raise, has_raise, is_mixed};

use crate::stored::Stored;
use lk_types::{Command, Entry, Op, Position, Vote};

/// Returns the format of the Base with which the entries begin, 1 or 2; 0 if they begin with no Base.
pub fn format_of(entries: &[Stored]) -> u8
    ensures { result ≡ format entries.now }
{
    match entries {
        [Stored::Base(base), ..] => base.format,
        _ => 0,
    }
}

// Whether the command is a Raise, which puts the machine into its second version.
fn is_raise(command: &Command) -> bool
    ensures { result ≡ is_raise command.now }
{
    match command {
        Command::Request(request) => match &request.op {
            Op::Raise => true,
            Op::Table(_) | Op::Join(_, _) | Op::Leave(_) => false,
        },
        Command::Noop => false,
    }
}

// Whether some vote is for a Raise.
fn some_vote_raises(votes: &[Vote]) -> bool
    ensures { result ≡ list_any (λ v. is_raise v.command) votes.now }
{
    votes.iter().any(|vote| is_raise(&vote.command))
}

// Whether some decided command is a Raise.
fn some_pair_raises(pairs: &[(Position, Command)]) -> bool
    ensures { result ≡ list_any (λ p. is_raise p.1) pairs.now }
{
    pairs.iter().any(|pair| is_raise(&pair.1))
}

// Whether the entry has a Raise, in a vote or as a decided command.
fn has_raise(entry: &Stored) -> bool
    ensures { result ≡ has_raise entry.now }
{
    match entry {
        Stored::Base(base) => {
            some_vote_raises(&base.standing.votes) || some_pair_raises(&base.standing.pairs)
        }
        Stored::Plain(Entry::Promise(_)) => false,
        Stored::Plain(Entry::Vote(vote)) => is_raise(&vote.command),
        Stored::Plain(Entry::Decided(_, command)) => is_raise(command),
    }
}

// Whether some entry has a Raise.
fn some_has_raise(entries: &[Stored]) -> bool
    ensures { result ≡ list_any has_raise entries.now }
{
    entries.iter().any(|entry| has_raise(entry))
}

/// Returns whether a file of format 1 has a Raise, which only format 2 permits: such a file is damaged.
pub fn is_mixed(entries: &[Stored]) -> bool
    ensures { result ≡ is_mixed entries.now }
{
    format_of(entries) == 1 && some_has_raise(entries)
}
