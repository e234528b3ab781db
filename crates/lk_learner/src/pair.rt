ghost use Rattle.std.specs.Prelude.{◌≡◌, ◌+◌, ◌≤◌, ◌↔◌, nat_lt, length, Contains, IsTrue, IfOk};
ghost use Rattle.std.specs.List.{prefix_len};
ghost use Rattle.lk_types.specs.Limits.{max_count};
ghost use Rattle.lk_learner.specs.Pairs.{Command as CommandValue, are_pairs_above};

use lk_types::{Command, NoMemory, Position};
use std::alloc::Global;
use std::marker::Model;

/// A decided command and its position, kept until it is executed.
#[derive(Drop)]
pub struct Pair {
    pub(crate) position: Position,
    pub(crate) command: Command,
}

impl Model for Pair {
    ghost use Rattle.std.specs.Prelude.{ℕ};
    ghost use Rattle.lk_types.specs.declared.command.Command.{Command};

    ghost Value = { ℕ × Command };

    ghost view = { λ p. (p.position, p.command) };
}

impl Default for Pair {
    ghost is_default = { λ p. p.0 ≡ 1 };

    /// Returns a no-op at the first position, only to fill unused places of an `ArrayVec`.
    fn default() -> Self {
        Pair::new(Position::default(), Command::Noop)
    }
}

impl Pair {
    // Creates the pair of a command at a position.
    pub(crate) fn new(position: Position, command: Command) -> Pair
        ensures { result ≡ (position, command) }
    {
        Pair { position, command }
    }

    /// The position.
    pub fn position(&self) -> Position
        ensures { result ≡ self.now.0 }
    {
        self.position
    }

    /// The command.
    pub fn command(&self) -> &Command
        ensures { result.now ≡ self.now.1 }
    {
        &self.command
    }
}

/// Whether one of the pairs is at the position.
pub fn is_kept(pairs: &[Pair], position: Position) -> bool
    ensures { IsTrue result ↔ ((v : CommandValue) × Contains pairs.now (position, v)) }
{
    pairs.iter().any(|pair| pair.position == position)
}

/// Returns the index at which a pair of this position belongs: how many pairs have smaller ones. The pairs rise by
/// position, above `low`, which only the contract needs.
pub fn index_of(pairs: &[Pair], position: Position, low: u64) -> usize
    requires { IsTrue (are_pairs_above low pairs.now) }
    ensures index { result ≡ prefix_len (λ p. nat_lt p.0 position) pairs.now }
    ensures within { result ≤ length pairs.now }
{
    pairs.partition_point(|pair| pair.position < position)
}

/// Copies the pairs, as tuples.
pub fn copied_pairs(alloc: Global, pairs: &[Pair]) -> Result<Vec<(Position, Command)>, NoMemory>
    ensures { IfOk result (λ ps. ps.items ≡ pairs.now) }
{
    let mut copies = Vec::new(alloc);
    for pair in pairs {
        copies.push((pair.position(), pair.command().copy()))?;
    }
    Ok(copies)
}

/// Returns the position `offset` after `first`. The sum is at most 2^48.
pub fn position_behind(first: Position, offset: usize) -> Position
    requires { first + offset ≤ max_count }
    ensures { result ≡ first + offset }
{
    Position::of(first.get() + offset as u64).unwrap()
}
