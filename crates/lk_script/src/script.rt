//! Runs a script line by line, in the mode that its first line chooses.

ghost use Rattle.std.specs.Prelude.{◌≡◌, ◌≢◌, ◌+◌, ◌<◌, ◌≤◌, ◌⊎◌, List, [], ℕ, Some, None, Ok, Err, IfOk, IfErr};
ghost use Rattle.std.specs.Prelude.{IfSome, OnOk, IsErrOf, string_bytes};
ghost use Rattle.std.specs.Io.KnownBytes.{Appends};
ghost use Rattle.lk_types.specs.Limits.{max_count};
ghost use Rattle.lk_sim_nodes.specs.declared.refused.Refused.{Refused as RefusedValue};
ghost use Rattle.lk_script.specs.TableMode.{IsTableLine};
ghost use Rattle.lk_script.specs.Worlds.{new_world, done_line};
ghost use Rattle.lk_script.specs.Scripts.{Script, begun, table, world, IsFirstLine, IsUnderstood, RunsLine, Refuses};
ghost use Rattle.lk_script.specs.Scripts.{last_line};
ghost use Rattle.lk_script.specs.Endings.{PrintsAll, SetsUp, EndsBy};
ghost use Rattle.lk_script.specs.TableRuns.{Fits, done_in};

use crate::buffers::Buffers;
use crate::ending::end;
use crate::mode::Mode;
use crate::table_run::TableRun;
use crate::world_run::WorldRun;
use lk_replica::MemoryReplica;
use lk_script_lines::fault::{LineFault, ScriptFault};
use lk_script_lines::genesis_line::read_genesis;
use lk_script_lines::lines::next_line;
use lk_sim::Refused;
use lk_types::Genesis;
use std::alloc::{AllocError, Global};
use std::io::{BufRead, Write};

// Returns the number after `table `, also where it is not in the one spelling that `cluster_of` admits.
fn cluster_named(line: &[u8]) -> Option<u64>
    ensures { (cluster : ℕ) → IsTableLine line.now cluster → result ≡ Some cluster }
{
    let digits = line.strip_prefix(b"table ".as_slice())?;
    let digits = str::from_utf8(digits).ok()?;
    digits.parse().ok()
}

// Returns the line `table CLUSTER`.
fn table_line(alloc: Global, cluster: u64) -> Result<String, AllocError>
    ensures { IfOk result (λ text. IsTableLine (string_bytes text) cluster) }
{
    format!(in alloc; "table {cluster}")
}

// Reads the line `table CLUSTER`. Only the decimal without sign or leading zeros is understood, so it is printed again
// and compared.
fn cluster_of(alloc: Global, line: &[u8]) -> Result<u64, LineFault>
    ensures ok { IfOk result (IsTableLine line.now) }
    ensures not_understood { IsErrOf result LineFault.NotUnderstood → (cluster : ℕ) → IsTableLine line.now cluster → ⊥ }
{
    let cluster = cluster_named(line).ok_or(LineFault::NotUnderstood)?;
    if table_line(alloc, cluster)?.as_bytes() != line {
        return Err(LineFault::NotUnderstood);
    }
    Ok(cluster)
}

// Returns table mode: a lock table of this cluster before any request.
fn table_mode<M: MemoryReplica>(alloc: Global, cluster: u64) -> Mode<M>
    ensures fits { Fits (table cluster []) result }
    ensures done { done_in result ≡ 0 }
{
    Mode::Table(TableRun::new(alloc, cluster))
}

// Returns world mode: a world of this genesis in which nothing has happened.
fn world_mode<M: MemoryReplica>(alloc: Global, genesis: Genesis) -> Mode<M>
    ensures fits { Fits (world (new_world genesis) 0) result }
    ensures done { done_in result ≡ 0 }
{
    Mode::World(WorldRun::new(alloc, genesis))
}

// Sets up the mode that the first line asks for: table mode if it is a cluster, or else (`NotUnderstood`) world mode by
// a genesis. It is not inlined, as a lock table is large: in `run_line` each line would pay for the space of a new one.
#[inline(never)]
fn start_mode<M: MemoryReplica>(alloc: Global, line: &[u8]) -> Result<Mode<M>, LineFault>
    ensures ok { IfOk result (λ m. (after : Script M) × RunsLine M.behaves begun line.now [] after × Fits after m) }
    ensures done { IfOk result (λ m. done_in m ≡ 0) }
    ensures not_understood { IsErrOf result LineFault.NotUnderstood → IsFirstLine line.now → ⊥ }
{
    match cluster_of(alloc, line) {
        Ok(cluster) => Ok(table_mode(alloc, cluster)),
        Err(LineFault::NotUnderstood) => {
            let genesis = read_genesis(line)?;
            Ok(world_mode(alloc, genesis))
        }
        Err(LineFault::NoMemory) => Err(LineFault::NoMemory),
    }
}

// Executes a line that is not empty, and puts what it prints into the text of the buffers. Returns why an event of the
// line was rejected, if one was.
fn run_line<M: MemoryReplica>(
    alloc: Global,
    mode: &mut Mode<M>,
    line: &[u8],
    buffers: &mut Buffers,
) -> Result<Option<Refused>, LineFault>
    requires { done_in mode.old < max_count }
    ensures ok { result ≡ Ok None → (s : Script M) → Fits s mode.old
        → (after : Script M) × RunsLine M.behaves s line.now buffers.new.text.items after × Fits after mode.new }
    ensures refused { (r : RefusedValue) → result ≡ Ok (Some r) → (s : Script M) → Fits s mode.old
        → Refuses M.behaves s line.now buffers.new.text.items r }
    ensures not_understood { IsErrOf result LineFault.NotUnderstood → (s : Script M) → Fits s mode.old
        → IsUnderstood s line.now → ⊥ }
    ensures paces { done_in mode.new ≤ done_in mode.old + 65535 }
{
    match mode {
        Mode::Unset => {
            *mode = start_mode(alloc, line)?;
            buffers.text.clear();
            Ok(None)
        }
        Mode::Table(server) => {
            server.print_line(line, buffers)?;
            Ok(None)
        }
        Mode::World(run) => run.print_line(alloc, line, &mut buffers.text),
    }
}

// Writes a text.
fn write_text<W: Write>(writer: &mut W, text: &[u8]) -> Result<(), ScriptFault>
    ensures ok { OnOk result (Appends (W.contents writer.old) (W.contents writer.new) text.now) }
    ensures err { IfErr result (λ fault. fault ≡ ScriptFault.Write) }
{
    match writer.write_all(text) {
        Ok(()) => Ok(()),
        Err(_) => Err(ScriptFault::Write),
    }
}

// Returns `done COUNT`, the last line in world mode if no event was rejected.
fn done_text(alloc: Global, done: u64) -> Result<String, AllocError>
    ensures { IfOk result (λ text. string_bytes text ≡ done_line done) }
{
    format!(in alloc; "done {done}\n")
}

// Writes the last line at the end of the input: `done COUNT` in world mode, otherwise none.
fn write_last<M: MemoryReplica, W: Write>(
    alloc: Global,
    mode: &Mode<M>,
    writer: &mut W,
) -> Result<(), ScriptFault>
    ensures ok { OnOk result
        ((s : Script M) → Fits s mode.now → Appends (W.contents writer.old) (W.contents writer.new) (last_line s)) }
    ensures err { IfErr result
        (λ fault. (fault ≡ ScriptFault.Write)
        ⊎ ((fault ≡ ScriptFault.ScriptMemory) × (W.contents writer.new ≡ W.contents writer.old))) }
{
    let Mode::World(run) = mode else {
        return Ok(());
    };
    match done_text(alloc, run.done()) {
        Ok(text) => write_text(writer, text.as_bytes()),
        Err(_) => Err(ScriptFault::ScriptMemory),
    }
}

// Writes what a line printed. If one of its events was rejected, returns the fault `Ended`, which ends the run.
fn write_line<W: Write>(
    ended: Option<Refused>,
    text: &[u8],
    writer: &mut W,
) -> Result<(), ScriptFault>
    ensures ok { OnOk result ((ended ≡ None) × Appends (W.contents writer.old) (W.contents writer.new) text.now) }
    ensures err { IfErr result
        (λ fault. (fault ≡ ScriptFault.Write)
        ⊎ ((r : RefusedValue) × (fault ≡ ScriptFault.Ended r) × (ended ≡ Some r)
        × Appends (W.contents writer.old) (W.contents writer.new) text.now)) }
{
    write_text(writer, text)?;
    match ended {
        None => Ok(()),
        Some(refused) => Err(ScriptFault::Ended(refused)),
    }
}

/// Runs the script from the reader, writes what each line prints, and returns the mode with what the script has set up.
/// Empty lines print nothing, but count in the line numbers of faults.
///
/// In world mode the replicas are of the type `M`.
pub fn run_script<M: MemoryReplica, R: BufRead, W: Write>(
    alloc: Global,
    reader: &mut R,
    writer: &mut W,
) -> Result<Mode<M>, ScriptFault>
    ensures ok { IfOk result
        (λ mode. IfSome (R.remaining reader.old)
        (λ script. (text : List ℕ) × SetsUp M.behaves script text mode
        × Appends (W.contents writer.old) (W.contents writer.new) text)) }
    ensures err { IfErr result
        (λ fault. fault ≢ ScriptFault.Write
        → IfSome (R.remaining reader.old)
        (λ script. (text : List ℕ) × EndsBy M.behaves fault script text (R.remaining reader.new)
        × Appends (W.contents writer.old) (W.contents writer.new) text)) }
{
    let mut line = Vec::new(alloc);
    let mut buffers = Buffers::new(alloc);
    let mut mode = Mode::<M>::Unset;
    for number in 1..u32::MAX {
        if !next_line(reader, &mut line)? {
            write_last(alloc, &mode, writer)?;
            return Ok(mode);
        }
        if !line.is_empty() {
            match run_line(alloc, &mut mode, &line, &mut buffers) {
                Ok(ended) => write_line(ended, &buffers.text, writer)?,
                Err(fault) => return Err(fault.of_line(number)),
            }
        }
    }
    Err(ScriptFault::Read)
}

/// Runs a script to its end: writes and flushes what each line prints, and writes a fault to standard error. An event
/// that the world refuses is in the output instead. Returns status 0, or 1 after a fault or a refused event.
pub fn run_to_end<M: MemoryReplica, R: BufRead, W: Write, E: Write>(
    alloc: Global,
    reader: &mut R,
    out: &mut W,
    err: &mut E,
) -> u8
    ensures ok { result ≡ 0 → IfSome (R.remaining reader.old)
        (λ script. (text : List ℕ) × PrintsAll M.behaves script text
        × Appends (W.contents out.old) (W.contents out.new) text) }
    ensures quiet { result ≡ 0 → err.new ≡ err.old }
    ensures status { (result ≡ 0) ⊎ (result ≡ 1) }
{
    let ran = run_script::<M, R, W>(alloc, reader, out).map(|_| ());
    end(ran, out, err)
}
