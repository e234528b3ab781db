//! Raises the fences of the only member of a cluster, by grants.

ghost use Rattle.std.specs.Prelude.{List, IfOk, OnOk};
ghost use Rattle.lk_store_format.specs.Values.{HeaderValue};
ghost use Rattle.lk_seed.specs.Histories.{IsMember, IsWanted};
ghost use Rattle.lk_seed.specs.Seedings.{AreLeftBy};
ghost use Rattle.lk_seed.specs.declared.wanted.Wanted.{Wanted as WantedValue};

use crate::sole_member::SoleMember;
use crate::wanted::Wanted;
use lk_locks::Name;
use lk_memory_disk::MemoryDisk;
use lk_program_fault::ProgramFault;
use lk_store_format::Header;
use lk_types::limits::MAX_COUNT;
use std::alloc::Global;
use std::io::Write;

// Grants a name until its last fence is this one. Returns whether it is at least that.
fn raise(member: &mut SoleMember, name: &Name, fence: u64) -> Result<bool, ProgramFault>
    ensures { (header : HeaderValue) (wanted : List WantedValue) → IsWanted wanted name.now
        → IsMember header wanted member.old → OnOk result (IsMember header wanted member.new) }
{
    'grants: for _ in member.last_fence(name)..fence {
        if !member.grant(name)? {
            return Ok(false);
        }
    }
    Ok(member.last_fence(name) >= fence)
}

// Writes that a name was not granted.
fn write_not_granted<E: Write>(name: &Name, err: &mut E) -> ProgramFault {
    let _ = err.write_all(name.as_slice());
    let _ = err.write_all(b": not granted: a table has at most 512 names\n");
    ProgramFault::CannotOpen
}

// Raises each name to its fence, or to `most` if that is less. If one is not granted, writes so.
#[tactic(auto, using(crate::proofs::FenceLaws::is_wanted))]
fn raise_all<E: Write>(
    member: &mut SoleMember,
    wanted: &[Wanted],
    most: u64,
    err: &mut E,
) -> Result<(), ProgramFault>
    ensures { (header : HeaderValue) → IsMember header wanted.now member.old
        → OnOk result (IsMember header wanted.now member.new) }
{
    for one in wanted {
        if !raise(member, &one.name, one.fence.get().min(most))? {
            return Err(write_not_granted(&one.name, err));
        }
    }
    Ok(())
}

/// Returns the disks of the only member of a cluster, after grants that raised each name to its fence. All names are
/// granted once before one is raised further, so that too many names are found at once. If one is not granted, it
/// writes so.
pub fn seeded_disks<E: Write>(
    alloc: Global,
    header: &Header,
    wanted: &[Wanted],
    err: &mut E,
) -> Result<MemoryDisk, ProgramFault>
    ensures { IfOk result (AreLeftBy header.now wanted.now) }
{
    let mut member = SoleMember::begin(alloc, header)?;
    member.lead()?;
    raise_all(&mut member, wanted, 1, err)?;
    raise_all(&mut member, wanted, MAX_COUNT, err)?;
    member.into_disks()
}
