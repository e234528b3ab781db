// World mode: executes the lines of a script in a world, and prints what their events do.
ghost use Rattle.std.specs.Prelude.{◌≡◌, ◌+◌, ◌*◌, ◌<◌, ◌≤◌, ◌++◌, ℕ, List, replicate, Ok, Some, None, IfOk, IsErrOf};
ghost use Rattle.lk_sim.specs.Events.{IsExecuted, IsRefused};
ghost use Rattle.lk_sim.specs.declared.event.Event.TheVariants.{Tick};
ghost use Rattle.lk_sim_nodes.specs.declared.refused.Refused.{Refused as RefusedValue};
ghost use Rattle.lk_types.specs.Limits.{max_count};
ghost use Rattle.lk_script_lines.specs.declared.instruction.Instruction.{Instruction as InstructionValue};
ghost use Rattle.lk_script_lines.specs.WorldLines.{SpellsInstruction};
ghost use Rattle.lk_script.specs.Worlds.{new_world, events_of, Follows, refused_line};

use crate::printing::{print_event, print_refusal};
use lk_replica::MemoryReplica;
use lk_script_lines::fault::LineFault;
use lk_script_lines::instruction::Instruction;
use lk_script_lines::world_line::read_instruction;
use lk_sim::{Event, Refused, World};
use lk_types::{Genesis, NoMemory, NodeNo};
use std::alloc::Global;

/// A world, and how many events were done in it.
#[derive(Drop)]
pub struct WorldRun<R: MemoryReplica> {
    world: World<R>,
    done: u64,
}

impl<R: MemoryReplica> WorldRun<R> {
    /// Returns a run in a world of this genesis in which nothing has happened.
    pub fn new(alloc: Global, genesis: Genesis) -> Self
        ensures world { result.world ≡ new_world genesis }
        ensures done { result.done ≡ 0 }
    {
        WorldRun {
            world: World::new(alloc, genesis),
            done: 0,
        }
    }

    /// Returns how many events were done.
    pub fn done(&self) -> u64
        ensures { result ≡ self.now.done }
    {
        self.done
    }

    /// Ends the run and returns its world.
    pub fn into_world(self) -> World<R>
        ensures { result ≡ self.world }
    {
        let WorldRun { world, done: _ } = self;
        world
    }

    // Executes one event and appends what it prints. Returns why it was rejected, if it was.
    fn happen(&mut self, event: Event, text: &mut Vec<u8>) -> Result<Option<Refused>, NoMemory>
        requires { self.old.done < 2 * max_count }
        ensures does { result ≡ Ok None
            → IsExecuted R.behaves self.old.world event self.new.world × (self.new.done ≡ self.old.done + 1) }
        ensures refused { (r : RefusedValue) → result ≡ Ok (Some r)
            → IsRefused R.behaves self.old.world event r self.new.world × (self.new.done ≡ self.old.done) }
        ensures paces { self.new.done ≤ self.old.done + 1 }
    {
        let counts = (self.world.trace().len(), self.world.datagrams().len());
        if let Err(refused) = self.world.apply(event) {
            return Ok(Some(refused));
        }
        self.done += 1;
        let (trace, sent) = (self.world.trace(), self.world.datagrams());
        print_event(text, trace, sent, counts, self.world.last_end())?;
        Ok(None)
    }

    // Gives the node this many ticks, or those up to the first that is rejected.
    fn tick(
        &mut self,
        node: NodeNo,
        times: u16,
        text: &mut Vec<u8>,
    ) -> Result<Option<Refused>, NoMemory>
        requires { self.old.done < max_count }
        ensures follows { IfOk result
            (λ refused. (k : ℕ) × Follows R.behaves self.old.world
            (replicate times (Tick node)) k refused self.new.world × (self.new.done ≡ self.old.done + k)) }
        ensures paces { self.new.done ≤ self.old.done + times }
    {
        'ticks: for _ in 0..times {
            if let Some(refused) = self.happen(Event::Tick(node), text)? {
                return Ok(Some(refused));
            }
        }
        Ok(None)
    }

    // Executes the events of a line, or those up to the first that is rejected, and appends what they print.
    fn follow(
        &mut self,
        instruction: Instruction,
        text: &mut Vec<u8>,
    ) -> Result<Option<Refused>, NoMemory>
        requires { self.old.done < max_count }
        ensures follows { IfOk result
            (λ refused. (k : ℕ) × Follows R.behaves self.old.world (events_of instruction) k refused self.new.world
            × (self.new.done ≡ self.old.done + k)) }
        ensures paces { self.new.done ≤ self.old.done + 65535 }
    {
        match instruction {
            Instruction::Ticks(node, times) => self.tick(node, times, text),
            Instruction::Once(event) => self.happen(event, text),
        }
    }

    /// Executes a line and replaces the text with what it prints. If an event is rejected, its line is the last, and
    /// the reason is returned.
    pub fn print_line(
        &mut self,
        alloc: Global,
        line: &[u8],
        text: &mut Vec<u8>,
    ) -> Result<Option<Refused>, LineFault>
        requires { self.old.done < max_count }
        // The events of the line happen in the world, in order, up to the first that is rejected; and no others.
        ensures follows { IfOk result
            (λ refused. (o : InstructionValue) × (k : ℕ) × SpellsInstruction line.now o
            × Follows R.behaves self.old.world (events_of o) k refused self.new.world
            × (self.new.done ≡ self.old.done + k)) }
        ensures refused { (r : RefusedValue) → result ≡ Ok (Some r)
            → (printed : List ℕ) × (text.new.items ≡ printed ++ refused_line r) }
        ensures not_understood { IsErrOf result LineFault.NotUnderstood → (o : InstructionValue)
            → SpellsInstruction line.now o → ⊥ }
        ensures unchanged { IsErrOf result LineFault.NotUnderstood → self.new ≡ self.old }
        ensures paces { self.new.done ≤ self.old.done + 65535 }
    {
        let instruction = read_instruction(alloc, line)?;
        text.clear();
        let ended = self.follow(instruction, text)?;
        if let Some(refused) = ended {
            print_refusal(alloc, refused, text)?;
        }
        Ok(ended)
    }
}
