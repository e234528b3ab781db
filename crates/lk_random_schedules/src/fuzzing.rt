//! Runs random schedules, and prints what came of one or a script of it.

ghost use Rattle.std.specs.Prelude.{◌≡◌, ◌≤◌, ◌+◌, ◌++◌, ◌∷◌, ◌⊎◌, ℕ, List, [], true, Ok, Err, OnOk, IfOk, IfErr};
ghost use Rattle.std.specs.Prelude.{string_bytes};
ghost use Rattle.std.specs.Fmt.{decimal};
ghost use Rattle.std.specs.Io.KnownBytes.{Appends};
ghost use Rattle.lk_script.specs.Worlds.{refused_line};
ghost use Rattle.lk_sim.specs.Events.{IsExecuted};
ghost use Rattle.lk_sim.specs.declared.event.Event.TheVariants.{Start};
ghost use Rattle.lk_random_schedules.specs.Schedules.{IsOfThree, IsNew, IsReplaced, ReplacesEvent, Happens, Starts};
ghost use Rattle.lk_random_schedules.specs.Schedules.{Next};
ghost use Rattle.lk_random_schedules.specs.Schedules.{Fuzzes};
ghost use Rattle.lk_random_schedules.specs.Transcripts.{AddsSome};
ghost use Rattle.lk_random_schedules.specs.Lines.{ran_at, IsFurthest, done_line, Reports, world_line, IsScript};

use crate::plan::Plan;
use crate::schedule::Schedule;
use crate::transcript::Transcript;
use lk_node_interface::Note;
use lk_replica::MemoryReplica;
use lk_script::ending::end;
use lk_script::printing::print_refusal;
use lk_script_lines::fault::ScriptFault;
use lk_sim::{Event, Refused, World};
use lk_types::{Genesis, Member, NoMemory, NodeNo, Port};
use std::alloc::{AllocError, Global};
use std::io::Write;

/// The most events that a run draws.
pub const MAX_EVENTS: u64 = 20_000;

// The first line of a script, which sets up the world of `genesis`.
const WORLD_LINE: &[u8] = b"genesis 5 2 1:7001 2:7002 3:7003\n";

// Returns the member with this number, at port 7000 plus the number.
fn member(number: u16) -> Member
    requires { (1 ≤ number) × (number ≤ 3) }
    ensures { result ≡ record { node = number; port = 7000 + number } }
{
    Member {
        node: NodeNo::of(u32::from(number)).unwrap(),
        port: Port::of(7000 + number).unwrap(),
    }
}

// Returns the genesis of each run: cluster 5, alpha 2, and nodes 1 to 3.
fn genesis() -> Genesis
    ensures { IsOfThree result }
{
    Genesis::of(5, 2, &[member(1), member(2), member(3)]).unwrap()
}

// Gives node 1 a tick, or restarts it if it is down: the replacement of an event that was rejected.
fn replace_event<R: MemoryReplica>(
    alloc: Global,
    world: &mut World<R>,
    transcript: &mut Transcript,
) -> Result<(), Refused>
    ensures replaces { OnOk result (ReplacesEvent R.behaves world.old world.new) }
    ensures adds { OnOk result (AddsSome R.behaves world.old transcript.old world.new transcript.new) }
{
    let first = NodeNo::of(1).unwrap();
    match transcript.apply(alloc, world, Event::Tick(first)) {
        Err(Refused::NotUp) => transcript.apply(alloc, world, Event::Restart(first)),
        done => done,
    }
}

// Whether a rejected event is replaced: its reason is neither room nor memory, so another event may succeed.
fn is_replaced(refused: Refused) -> bool
    ensures { result ≡ true → IsReplaced refused }
{
    !matches!(refused, Refused::WorldFull | Refused::WorldMemory)
}

// Executes a drawn event, or its replacement if it is rejected for a reason other than room and memory.
fn happen<R: MemoryReplica>(
    alloc: Global,
    world: &mut World<R>,
    event: Event,
    transcript: &mut Transcript,
) -> Result<(), Refused>
    ensures happens { OnOk result (Happens R.behaves world.old event world.new) }
    ensures adds { OnOk result (AddsSome R.behaves world.old transcript.old world.new transcript.new) }
{
    match transcript.apply(alloc, world, event) {
        Err(refused) if is_replaced(refused) => replace_event(alloc, world, transcript),
        done => done,
    }
}

// Starts the node of this number.
fn start_one<R: MemoryReplica>(
    alloc: Global,
    world: &mut World<R>,
    number: u32,
    transcript: &mut Transcript,
) -> Result<(), Refused>
    requires { (1 ≤ number) × (number ≤ 3) }
    ensures starts { OnOk result (IsExecuted R.behaves world.old (Start number) world.new) }
    ensures adds { OnOk result (AddsSome R.behaves world.old transcript.old world.new transcript.new) }
{
    let node = NodeNo::of(number).unwrap();
    transcript.apply(alloc, world, Event::Start(node))
}

// Starts the three nodes, in order.
fn start<R: MemoryReplica>(
    alloc: Global,
    world: &mut World<R>,
    transcript: &mut Transcript,
) -> Result<(), Refused>
    ensures starts { OnOk result (Starts R.behaves world.old world.new) }
    ensures adds { OnOk result (AddsSome R.behaves world.old transcript.old world.new transcript.new) }
{
    start_one(alloc, world, 1, transcript)?;
    start_one(alloc, world, 2, transcript)?;
    start_one(alloc, world, 3, transcript)?;
    Ok(())
}

// Draws the next event of the plan and executes it.
fn step<R: MemoryReplica>(
    alloc: Global,
    world: &mut World<R>,
    plan: Plan,
    schedule: &mut Schedule,
    transcript: &mut Transcript,
) -> Result<(), Refused>
    ensures next { OnOk result (Next R.behaves plan world.old world.new) }
    ensures adds { OnOk result (AddsSome R.behaves world.old transcript.old world.new transcript.new) }
{
    let event = schedule.next_event(alloc, plan, world.datagrams())?;
    happen(alloc, world, event, transcript)
}

/// Returns a new world of three nodes: cluster 5, alpha 2, and nodes 1, 2 and 3 at the ports 7001 to 7003.
pub fn world_of_three<R: MemoryReplica>(alloc: Global) -> World<R>
    ensures { IsNew result }
{
    World::new(alloc, genesis())
}

/// Starts the three nodes, executes as many drawn events as the plan says, and adds them to the transcript. An event
/// that is rejected with 16 to 20 becomes a tick of node 1, or its restart if it is down. Any other rejection ends the
/// run and is returned; what was executed before it stays.
pub fn run_schedule<R: MemoryReplica>(
    alloc: Global,
    world: &mut World<R>,
    plan: Plan,
    transcript: &mut Transcript,
) -> Result<(), Refused>
    ensures fuzzes { OnOk result (Fuzzes R.behaves plan world.old world.new) }
    ensures adds { OnOk result (AddsSome R.behaves world.old transcript.old world.new transcript.new) }
{
    start(alloc, world, transcript)?;
    let mut schedule = Schedule::of(plan.start);
    'events: for _ in 0..plan.count {
        step(alloc, world, plan, &mut schedule, transcript)?;
    }
    Ok(())
}

// Returns the position that the note reports as executed, or 0.
fn ran_at(note: &Note) -> u64
    ensures { result ≡ ran_at note.now }
{
    match note {
        Note::Ran(_, position, _) => position.get(),
        _ => 0,
    }
}

// Returns the greatest position that a node has executed, or 0.
fn furthest(trace: &[Note]) -> u64
    ensures { IsFurthest trace.now result }
{
    let mut furthest = 0;
    for note in trace {
        furthest = furthest.max(ran_at(note));
    }
    furthest
}

// Returns the words followed by the number.
fn numbered(alloc: Global, words: &str, number: u64) -> Result<String, AllocError>
    ensures { IfOk result (λ text. string_bytes text ≡ words.now ++ decimal number) }
{
    format!(in alloc; "{words}{number}")
}

// Returns the two texts as one line, with its line feed.
fn lined(alloc: Global, front: &str, behind: &str) -> Result<String, AllocError>
    ensures { IfOk result (λ text. string_bytes text ≡ front.now ++ behind.now ++ 10 ∷ []) }
{
    format!(in alloc; "{front}{behind}\n")
}

// Returns the line `done COUNT positions FURTHEST` of a run that no rejection ended.
fn done_text(alloc: Global, count: u64, furthest: u64) -> Result<String, AllocError>
    ensures { IfOk result (λ text. string_bytes text ≡ done_line count furthest) }
{
    let events = numbered(alloc, "done ", count)?;
    let positions = numbered(alloc, " positions ", furthest)?;
    lined(alloc, events.as_str(), positions.as_str())
}

// Writes a text.
fn write_text<W: Write>(text: &[u8], out: &mut W) -> Result<(), ScriptFault>
    ensures ok { OnOk result (Appends (W.contents out.old) (W.contents out.new) text.now) }
    ensures err { IfErr result (λ fault. fault ≡ ScriptFault.Write) }
{
    match out.write_all(text) {
        Ok(()) => Ok(()),
        Err(_) => Err(ScriptFault::Write),
    }
}

// Writes the line of a run that no rejection ended.
fn write_done<W: Write>(
    alloc: Global,
    count: u32,
    trace: &[Note],
    out: &mut W,
) -> Result<(), ScriptFault>
    ensures { OnOk result ((p : ℕ) × IsFurthest trace.now p
        × Appends (W.contents out.old) (W.contents out.new) (done_line count p)) }
{
    match done_text(alloc, u64::from(count), furthest(trace)) {
        Ok(text) => write_text(text.as_bytes(), out),
        Err(_) => Err(ScriptFault::ScriptMemory),
    }
}

// Writes the line of the rejection that ended a run. It always fails: with `Ended`, or with the fault of the writing.
fn write_refusal<W: Write>(alloc: Global, refused: Refused, out: &mut W) -> Result<(), ScriptFault>
    ensures ended { (result ≡ Ok tt) → ⊥ }
    ensures written { result ≡ Err (ScriptFault.Ended refused)
        → Appends (W.contents out.old) (W.contents out.new) (refused_line refused) }
{
    let mut text = Vec::new(alloc);
    if print_refusal(alloc, refused, &mut text).is_err() {
        return Err(ScriptFault::ScriptMemory);
    }
    write_text(&text, out)?;
    Err(ScriptFault::Ended(refused))
}

// Runs a schedule in a new world, and writes its result as one line.
fn write_run<R: MemoryReplica, W: Write>(
    alloc: Global,
    plan: Plan,
    out: &mut W,
) -> Result<(), ScriptFault>
    ensures { OnOk result ((text : List ℕ) × Reports R.behaves plan text
        × Appends (W.contents out.old) (W.contents out.new) text) }
{
    let mut world = world_of_three::<R>(alloc);
    match run_schedule(alloc, &mut world, plan, &mut Transcript::new(alloc, false)) {
        Ok(()) => write_done(alloc, plan.count, world.trace(), out),
        Err(refused) => write_refusal(alloc, refused, out),
    }
}

// Returns a transcript that keeps lines and begins with the line that sets up the world.
fn script_head(alloc: Global) -> Result<Transcript, NoMemory>
    ensures kept { IfOk result (λ t. t.is_kept ≡ true) }
    ensures text { IfOk result (λ t. t.text.items ≡ world_line) }
{
    let mut transcript = Transcript::new(alloc, true);
    transcript.text.extend_from_slice(WORLD_LINE)?;
    Ok(transcript)
}

// Runs a schedule in a new world, and writes it as a script. If a rejection ends the run, only that is written.
fn write_script<R: MemoryReplica, W: Write>(
    alloc: Global,
    plan: Plan,
    out: &mut W,
) -> Result<(), ScriptFault>
    ensures { OnOk result ((text : List ℕ) × IsScript R.behaves plan text
        × Appends (W.contents out.old) (W.contents out.new) text) }
{
    let Ok(mut transcript) = script_head(alloc) else {
        return Err(ScriptFault::ScriptMemory);
    };
    let mut world = world_of_three::<R>(alloc);
    match run_schedule(alloc, &mut world, plan, &mut transcript) {
        Ok(()) => write_text(&transcript.text, out),
        Err(refused) => write_refusal(alloc, refused, out),
    }
}

/// Runs the plan in a new world of three nodes. Writes `done N positions P`, P being the greatest position that a node
/// has executed, or the refusal that ended the run. Returns status 0, or 1 after a refused event or after writing a
/// fault to standard error.
pub fn run_fuzz<R: MemoryReplica, W: Write, E: Write>(
    alloc: Global,
    plan: Plan,
    out: &mut W,
    err: &mut E,
) -> u8
    ensures ok { result ≡ 0 → (text : List ℕ) × Reports R.behaves plan text
        × Appends (W.contents out.old) (W.contents out.new) text }
    ensures quiet { result ≡ 0 → err.new ≡ err.old }
    ensures status { (result ≡ 0) ⊎ (result ≡ 1) }
{
    let wrote = write_run::<R, W>(alloc, plan, out);
    end(wrote, out, err)
}

/// Runs the plan as `run_fuzz` does, but writes the executed events as a script for `locks sim`. If a rejection ends
/// the run, only that is written. Returns the status as `run_fuzz` does.
pub fn print_script<R: MemoryReplica, W: Write, E: Write>(
    alloc: Global,
    plan: Plan,
    out: &mut W,
    err: &mut E,
) -> u8
    ensures ok { result ≡ 0 → (text : List ℕ) × IsScript R.behaves plan text
        × Appends (W.contents out.old) (W.contents out.new) text }
    ensures quiet { result ≡ 0 → err.new ≡ err.old }
    ensures status { (result ≡ 0) ⊎ (result ≡ 1) }
{
    let wrote = write_script::<R, W>(alloc, plan, out);
    end(wrote, out, err)
}
