ghost use Rattle.std.specs.Prelude.{◌≡◌, ◌∷◌, [], length, IfSome, IfOk};
ghost use Rattle.std.specs.List.{AllByRecursion};
ghost use Rattle.lk_types.specs.Commands.{IsCommand};
ghost use Rattle.lk_codec.specs.FieldReading.{read_command};
ghost use Rattle.lk_codec.specs.Parser.{Finds, many, past};
ghost use Rattle.lk_messages.specs.Reading.{read_decided};
ghost use Rattle.lk_messages.specs.Values.{IsDecided};
ghost use Rattle.lk_wire.specs.Views.{commands_in, AreCommands};

use lk_codec::{front_of, read_command, read_position, read_u8, skip_command};
use lk_messages::Decided;
use lk_types::{Command, NoMemory, Position};
use std::alloc::Global;
use std::marker::Model;

/// Commands in a datagram, one after another: their count, and exactly the bytes that spell them. A contract sees the
/// list of them.
#[derive(Drop)]
pub struct Commands<'a> {
    count: u8,
    bytes: &'a [u8],
}

impl<'a> Model for Commands<'a> {
    ghost use Rattle.std.specs.Prelude.{List};
    ghost use Rattle.lk_types.specs.declared.command.Command.{Command};
    ghost use Rattle.lk_wire.specs.Views.{commands_in, AreCommands};

    ghost Value = { List Command };

    ghost view = { λ c. commands_in c.count c.bytes.now };

    ghost invariant = { λ c. AreCommands c.count c.bytes.now };
}

// Returns the bytes after this many commands; `None` if there are fewer.
fn end_of(count: u8, bytes: &[u8]) -> Option<&[u8]>
    ensures { Finds (λ x. x.now) result (past (many read_command count) bytes.now) }
{
    let mut rest = bytes;
    for _ in 0..count {
        rest = skip_command(rest)?;
    }
    Some(rest)
}

// Shows the prover that bytes that spell `count` commands yield a list of that length, with each in its range. Does
// nothing at run time.
fn facts_of(count: u8, bytes: &[u8])
    ensures count { AreCommands count bytes.now → length (commands_in count bytes.now) ≡ count }
    ensures in_range { AreCommands count bytes.now → AllByRecursion IsCommand (commands_in count bytes.now) }
{
    let _bytes = bytes;
}

impl<'a> Commands<'a> {
    // Reads this many commands in place, and returns them with the bytes after them.
    fn of(count: u8, bytes: &'a [u8]) -> Option<(Commands<'a>, &'a [u8])>
        ensures { Finds (λ x. (x.0, x.1.now)) result (many read_command count bytes.now) }
    {
        let rest = end_of(count, bytes)?;
        let bytes = front_of(bytes, rest);
        Some((Commands { count, bytes }, rest))
    }

    /// Returns another reference to the same commands.
    pub fn copy(&self) -> Commands<'a>
        ensures { result ≡ self.now }
    {
        Commands {
            count: self.count,
            bytes: self.bytes,
        }
    }

    /// How many they are.
    pub fn len(&self) -> usize
        ensures { result ≡ length self.now }
    {
        facts_of(self.count, self.bytes);
        self.count as usize
    }

    /// Returns the commands after the first, which it does not read; `None` if there are none.
    pub fn skip(&self) -> Option<Commands<'a>>
        ensures some { IfSome result (λ others. (c : Command) × (self.now ≡ c ∷ others)) }
        ensures none { result ≡ None → self.now ≡ [] }
    {
        if self.count == 0 {
            return None;
        }
        let rest = skip_command(self.bytes)?;
        Some(Commands {
            count: self.count - 1,
            bytes: rest,
        })
    }

    /// Reads the first command, and returns it with the others; `None` if there are none.
    pub fn read(&self) -> Option<(Command, Commands<'a>)>
        ensures some { IfSome result (λ x. self.now ≡ x.0 ∷ x.1) }
        ensures none { result ≡ None → self.now ≡ [] }
    {
        if self.count == 0 {
            return None;
        }
        let Some((command, rest)) = read_command(self.bytes) else {
            return None;
        };
        let others = Commands {
            count: self.count - 1,
            bytes: rest,
        };
        Some((command, others))
    }

    /// Copies all of them, in order, into a list.
    pub fn to_vec(&self, alloc: Global) -> Result<Vec<Command>, NoMemory>
        ensures { IfOk result (λ cs. cs.items ≡ self.now) }
    {
        let mut list = Vec::new(alloc);
        list.reserve(self.len())?;
        let mut rest = self.copy();
        for _ in 0..self.len() {
            let Some((command, others)) = rest.read() else {
                return Ok(list);
            };
            list.push(command)?;
            rest = others;
        }
        Ok(list)
    }
}

/// A Decided in a datagram. A contract sees it as the Decided.
#[derive(Drop)]
pub struct DecidedRef<'a> {
    first: Position,
    commands: Commands<'a>,
}

impl<'a> Model for DecidedRef<'a> {
    ghost use Rattle.std.specs.Prelude.{IsTrue};
    ghost use Rattle.lk_messages.specs.Values.{DecidedValue, are_commands_from};

    ghost Value = { DecidedValue };

    ghost view = { λ d. record { first = d.first; commands = d.commands } };

    ghost invariant = { λ d. IsTrue (are_commands_from d.first d.commands) };
}

impl<'a> DecidedRef<'a> {
    // Reads the Decided at the start of the bytes in place, and returns it with the bytes after it.
    #[tactic(auto, unfolding(lk_messages::specs::Reading::read_decided, lk_messages::specs::Reading::read_commands))]
    pub(crate) fn of(bytes: &'a [u8]) -> Option<(DecidedRef<'a>, &'a [u8])>
        ensures { Finds (λ x. (x.0, x.1.now)) result (read_decided bytes.now) }
    {
        if let Some((first, rest)) = read_position(bytes)
            && let Some((count, rest)) = read_u8(rest)
            && let Some((commands, rest)) = Commands::of(count, rest)
            && Decided::is_run(first, commands.len())
        {
            return Some((DecidedRef { first, commands }, rest));
        }
        None
    }

    /// The position of the first command.
    pub fn first(&self) -> Position
        ensures { result ≡ self.now.first }
    {
        self.first
    }

    /// The commands, in order of position.
    pub fn commands(&self) -> &Commands<'a>
        ensures { result.now ≡ self.now.commands }
    {
        &self.commands
    }

    /// Shows the prover that each part is in its range and no command past the last position. Does nothing at run time.
    pub fn facts(&self)
        ensures { IsDecided self.now }
    {
        let _ = self.first.get();
        facts_of(self.commands.count, self.commands.bytes);
    }

    /// Copies the Decided, with its commands, into memory of its own.
    pub fn copy(&self, alloc: Global) -> Result<Decided, NoMemory>
        ensures { IfOk result (λ d. d ≡ self.now) }
    {
        let commands = self.commands.to_vec(alloc)?;
        Ok(Decided::of(self.first, commands).unwrap())
    }
}
