//! Executes events in a world, and keeps a script of them.

ghost use Rattle.std.specs.Prelude.{◌≡◌, ◌++◌, ◌∷◌, [], Err, OnOk};
ghost use Rattle.lk_sim.specs.Events.{IsExecuted};
ghost use Rattle.lk_sim.specs.Refusals.{IsRejectedFor};
ghost use Rattle.lk_sim_nodes.specs.declared.refused.Refused.{Refused as RefusedValue};
ghost use Rattle.lk_random_schedules.specs.Schedules.{IsReplaced};
ghost use Rattle.lk_random_schedules.specs.Transcripts.{Adds, kept_lines};

use lk_replica::MemoryReplica;
use lk_script_lines::event_line::print_line;
use lk_sim::{Event, Refused, World};
use lk_types::NoMemory;
use std::alloc::Global;

/// The script lines of the events that were executed, if they are kept.
#[derive(Drop)]
pub struct Transcript {
    pub is_kept: bool,
    pub text: Vec<u8>,
}

impl Transcript {
    /// Returns a transcript without lines, which keeps them only if `is_kept`.
    pub fn new(alloc: Global, is_kept: bool) -> Transcript
        ensures kept { result.is_kept ≡ is_kept }
        ensures empty { result.text.items ≡ [] }
    {
        Transcript {
            is_kept,
            text: Vec::new(alloc),
        }
    }

    // Appends the script line of an event, if lines are kept.
    fn add(&mut self, alloc: Global, event: &Event) -> Result<(), NoMemory>
        ensures kept { self.new.is_kept ≡ self.old.is_kept }
        ensures text { OnOk result
            (self.new.text.items ≡ self.old.text.items ++ kept_lines self.old.is_kept (event.now ∷ [])) }
    {
        if self.is_kept {
            print_line(alloc, event, &mut self.text)?;
        }
        Ok(())
    }

    /// Executes the event in the world, and appends its line if lines are kept. A rejected event adds none.
    pub fn apply<R: MemoryReplica>(
        &mut self,
        alloc: Global,
        world: &mut World<R>,
        event: Event,
    ) -> Result<(), Refused>
        ensures does { OnOk result (IsExecuted R.behaves world.old event world.new) }
        ensures adds { OnOk result (Adds R.behaves (event ∷ []) world.old self.old world.new self.new) }
        ensures skipped { (r : RefusedValue) → result ≡ Err r → IsReplaced r
            → IsRejectedFor world.old event r × Adds R.behaves [] world.old self.old world.new self.new }
    {
        let length = self.text.len();
        // The world takes the event over, so its line is added first, and removed again if the event is rejected.
        self.add(alloc, &event)?;
        match world.apply(event) {
            Ok(()) => Ok(()),
            Err(refused) => {
                self.text.truncate(length);
                Err(refused)
            }
        }
    }
}
