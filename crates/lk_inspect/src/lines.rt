//! Prints an inspection as lines of text.

ghost use Rattle.std.specs.Io.KnownBytes.{Appends};
ghost use Rattle.std.specs.Prelude.{◌+◌, ◌<◌, ◌^◌, [], OnOk, length, if◌then◌else◌};
ghost use Rattle.lk_inspect.specs.Lines.{set_line, change_line, are_same, later_lines, window_lines, holder_line};
ghost use Rattle.lk_inspect.specs.Lines.{sharer_lines, free_line, free_lines, name_lines, names_lines, count_line};
ghost use Rattle.lk_inspect.specs.Lines.{counts_lines, executed_line, inspection_text};

use crate::inspection::Inspection;
use lk_locks::{Holders, LockEntry, Name};
use lk_members::{Window, WindowSet};
use lk_types::limits::{MAX_CLIENT, MAX_NAMES};
use lk_types::{ClientNo, Executed, Fence, Members};
use std::io;
use std::io::Write;

/// Which names are printed.
#[derive(Clone, Copy)]
pub enum Listing {
    /// Those that are held.
    Held,
    /// All.
    All,
}

// Writes each member as ` NODE:PORT`, and ends the line.
fn write_set<W: Write>(set: &Members, out: &mut W) -> io::Result<()>
    ensures { OnOk result (Appends (W.contents out.old) (W.contents out.new) (set_line set.now)) }
{
    let members = set.as_slice();
    'members: for member in members {
        write!(out, " {}:{}", member.node.get(), member.port.get())?;
    }
    out.write_all(b"\n")?;
    Ok(())
}

// Writes a line `members from P NODE:PORT ..`.
#[tactic(auto, using(lk_types::proofs::Appending::appends_more))]
fn write_change<W: Write>(position: u64, set: &Members, out: &mut W) -> io::Result<()>
    ensures { OnOk result (Appends (W.contents out.old) (W.contents out.new) (change_line position set.now)) }
{
    write!(out, "members from {position}")?;
    write_set(set, out)?;
    Ok(())
}

// Writes the line of a position's members, unless they are those of the position before.
fn write_changed<W: Write>(
    position: u64,
    before: &Members,
    set: &Members,
    out: &mut W,
) -> io::Result<()>
    ensures { OnOk result (Appends (W.contents out.old) (W.contents out.new)
        (if are_same set.now before.now then [] else change_line position set.now)) }
{
    if set != before {
        write_change(position, set, out)?;
    }
    Ok(())
}

// Writes the lines of these sets. The first is of the position `first`, each other of the next; `before` is that of the
// position before the first.
fn write_later<W: Write>(
    first: u64,
    before: &Members,
    sets: &[WindowSet],
    out: &mut W,
) -> io::Result<()>
    requires { first + length sets.now < 2 ^ 64 }
    ensures { OnOk result (Appends (W.contents out.old) (W.contents out.new) (later_lines first before.now sets.now)) }
{
    let (mut position, mut last) = (first, before);
    'sets: for each in sets {
        write_changed(position, last, each.set(), out)?;
        last = each.set();
        position += 1;
    }
    Ok(())
}

// Writes a line `members NODE:PORT ..` for the next position, and a line `members from P NODE:PORT ..` for each later
// position of the window whose members differ from those before it.
#[tactic(auto, using(lk_types::proofs::Appending::appends_more))]
fn write_window<W: Write>(executed: Executed, window: &Window, out: &mut W) -> io::Result<()>
    ensures { OnOk result (Appends (W.contents out.old) (W.contents out.new) (window_lines executed window.now)) }
{
    let sets = window.as_slice();
    let [next, later @ ..] = sets else {
        return Ok(());
    };
    out.write_all(b"members")?;
    write_set(next.set(), out)?;
    write_later(executed.get() + 2, next.set(), later, out)?;
    Ok(())
}

// Writes a line `held NAME CLIENT FENCE`.
fn write_holder<W: Write>(
    name: &Name,
    client: ClientNo,
    fence: Fence,
    out: &mut W,
) -> io::Result<()>
    ensures { OnOk result (Appends (W.contents out.old) (W.contents out.new) (holder_line name.now client fence)) }
{
    out.write_all(b"held ")?;
    out.write_all(name.as_slice())?;
    writeln!(out, " {} {}", client.get(), fence.get())?;
    Ok(())
}

// Writes a line `held NAME CLIENT FENCE` for each of these clients.
fn write_sharers<W: Write>(
    name: &Name,
    clients: &[ClientNo],
    fence: Fence,
    out: &mut W,
) -> io::Result<()>
    ensures { OnOk result (Appends (W.contents out.old) (W.contents out.new)
        (sharer_lines name.now fence clients.now)) }
{
    'all: for client in clients {
        write_holder(name, *client, fence, out)?;
    }
    Ok(())
}

// Writes a line `free NAME FENCE`.
fn write_free_name<W: Write>(name: &Name, fence: Fence, out: &mut W) -> io::Result<()>
    ensures { OnOk result (Appends (W.contents out.old) (W.contents out.new) (free_line name.now fence)) }
{
    out.write_all(b"free ")?;
    out.write_all(name.as_slice())?;
    writeln!(out, " {}", fence.get())?;
    Ok(())
}

// Writes the line of a free name if all are listed.
fn write_free<W: Write>(listing: Listing, name: &Name, fence: Fence, out: &mut W) -> io::Result<()>
    ensures { OnOk result (Appends (W.contents out.old) (W.contents out.new) (free_lines listing name.now fence)) }
{
    match listing {
        Listing::Held => {}
        Listing::All => write_free_name(name, fence, out)?,
    }
    Ok(())
}

// Writes the lines of a name: one for each client that holds it, and if all names are listed, one for a free name.
fn write_name<W: Write>(
    listing: Listing,
    name: &Name,
    lock_entry: &LockEntry,
    out: &mut W,
) -> io::Result<()>
    ensures { OnOk result (Appends (W.contents out.old) (W.contents out.new)
        (name_lines listing (name.now, lock_entry.now))) }
{
    match &lock_entry.holders {
        Holders::Nobody => write_free(listing, name, lock_entry.fence, out)?,
        Holders::ExclusiveHold(client) => write_holder(name, *client, lock_entry.fence, out)?,
        Holders::SharedHold(clients) => write_sharers(
            name,
            clients.as_slice(),
            lock_entry.fence,
            out,
        )?,
    }
    Ok(())
}

// Writes the lines of these names.
fn write_names<W: Write>(
    listing: Listing,
    names: &[(Name, LockEntry)],
    out: &mut W,
) -> io::Result<()>
    ensures { OnOk result (Appends (W.contents out.old) (W.contents out.new) (names_lines listing names.now)) }
{
    'all: for (name, lock_entry) in names {
        write_name(listing, name, lock_entry, out)?;
    }
    Ok(())
}

// Writes a line `NAME COUNT of MOST`.
fn write_count<W: Write>(name: &str, count: usize, most: usize, out: &mut W) -> io::Result<()>
    ensures { OnOk result (Appends (W.contents out.old) (W.contents out.new) (count_line name.now count most)) }
{
    writeln!(out, "{name} {count} of {most}")
}

// Writes how many names and clients there are: `names K of 512`, `clients K of 256`.
#[tactic(auto, using(lk_types::proofs::Appending::appends_more))]
fn write_counts<W: Write>(names: usize, clients: usize, out: &mut W) -> io::Result<()>
    ensures { OnOk result (Appends (W.contents out.old) (W.contents out.new) (counts_lines names clients)) }
{
    write_count("names", names, MAX_NAMES, out)?;
    write_count("clients", clients, usize::from(MAX_CLIENT), out)?;
    Ok(())
}

// Writes `executed P`.
fn write_executed<W: Write>(executed: Executed, out: &mut W) -> io::Result<()>
    ensures { OnOk result (Appends (W.contents out.old) (W.contents out.new) (executed_line executed)) }
{
    writeln!(out, "executed {}", executed.get())
}

/// Writes `executed P`, the members, `names K of 512`, `clients K of 256`, and the lines of the names: `held NAME
/// CLIENT FENCE` for each client that holds one, and if all are listed, `free NAME FENCE` for each that is free.
#[tactic(auto, using(lk_types::proofs::Appending::appends_more))]
pub fn write_inspection<W: Write>(
    inspection: &Inspection,
    listing: Listing,
    out: &mut W,
) -> io::Result<()>
    ensures { OnOk result (Appends (W.contents out.old) (W.contents out.new)
        (inspection_text listing inspection.now)) }
{
    write_executed(inspection.executed, out)?;
    write_window(inspection.executed, &inspection.window, out)?;
    write_counts(inspection.names.len(), inspection.clients, out)?;
    write_names(listing, inspection.names.as_slice(), out)?;
    Ok(())
}
