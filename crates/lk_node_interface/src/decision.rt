// The Decided message of one position.
ghost use Rattle.std.specs.Prelude.{◌≡◌, IfOk};
ghost use Rattle.lk_node_interface.specs.DecidedMessages.{decided_message};

use lk_types::{Command, NoMemory, Position};
use lk_wire::{Decided, NodeMessage};
use std::alloc::Global;

/// Builds the Decided message of one command at the position.
pub fn decided_message(
    alloc: Global,
    position: Position,
    command: &Command,
) -> Result<NodeMessage, NoMemory>
    ensures { IfOk result (λ m. m ≡ decided_message (position, command.now)) }
{
    let mut commands = Vec::new(alloc);
    commands.push(command.copy())?;
    let _ = position.get();
    Ok(NodeMessage::Decided(Decided::of(position, commands).unwrap()))
}
