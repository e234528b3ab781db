ghost use Rattle.std.specs.Prelude.{◌≡◌, ◌↔◌, IsSome, IfSome, IsTrue};
ghost use Rattle.std.specs.List.{AllByRecursion};
ghost use Rattle.lk_types.specs.Commands.{IsCommand};
ghost use Rattle.lk_messages.specs.Values.{IsDecided, are_commands_from, is_run};

use lk_types::limits::{MAX_COMMANDS, MAX_COUNT};
use lk_types::{Command, Position};
use std::marker::Model;

/// Decided commands: of the position `first`, and of those that follow it.
#[derive(Debug, Drop)]
pub struct Decided {
    first: Position,
    commands: Vec<Command>,
}

impl Model for Decided {
    ghost use Rattle.lk_messages.specs.Values.{DecidedValue, IsDecided};

    ghost Value = { DecidedValue };

    ghost view = { λ d. record { first = d.first; commands = d.commands.items } };

    ghost invariant = { λ d. IsDecided (record { first = d.first; commands = d.commands.items }) };
}

// Shows the prover that each command is in its range. Does nothing at run time.
fn commands_facts(commands: &[Command])
    ensures { AllByRecursion IsCommand commands.now }
{
    for command in commands {
        command.facts();
    }
}

impl Decided {
    /// Returns whether one Decided may have this many commands: 1 to 16, the last at a position of at most 2^48.
    pub fn is_run(first: Position, count: usize) -> bool
        ensures { result ≡ is_run first count }
    {
        count >= 1 && count <= MAX_COMMANDS && first.get() + count as u64 <= MAX_COUNT + 1
    }

    /// The value, or `None` if there are not 1 to 16 commands or the last one's position is above 2^48.
    pub fn of(first: Position, commands: Vec<Command>) -> Option<Decided>
        ensures some { IsSome result ↔ IsTrue (are_commands_from first commands.items) }
        ensures value { IfSome result (λ d. d ≡ record { first = first; commands = commands.items }) }
    {
        let _ = first.get();
        commands_facts(&commands);
        if !Decided::is_run(first, commands.len()) {
            return None;
        }
        Some(Decided { first, commands })
    }

    /// The position of the first command, and the commands.
    pub fn fields(&self) -> (Position, &[Command])
        ensures first { result.0 ≡ self.now.first }
        ensures commands { result.1.now ≡ self.now.commands }
    {
        (self.first, &self.commands)
    }

    /// Shows the prover that each part is in its range and no command past the last position. Does nothing at run time.
    pub fn facts(&self)
        ensures { IsDecided self.now }
    {
        let _first = self.first;
    }
}
