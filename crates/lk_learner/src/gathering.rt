ghost use Rattle.std.specs.Prelude.{◌≡◌, IsTrue, OnOk, OnErr};
ghost use Rattle.lk_learner.specs.Gathering.{starts_text, goes_on_any, with_next_any, heard, is_usable};

use crate::gathered::Gathered;
use lk_messages::PartRef;
use lk_types::{Executed, NoMemory};
use std::alloc::Global;

// Whether the part replaces what is gathered: its snapshot is at a greater position, or nothing is gathered.
fn starts_text(gathered: &Option<Gathered>, part: &PartRef<'_>) -> bool
    ensures { result ≡ starts_text gathered.now part.now }
{
    match gathered {
        Some(gathered) => gathered.position() < part.position(),
        None => true,
    }
}

// Appends the part if it continues what is gathered, and drops it otherwise. A failed call changes nothing.
fn append_part(gathered: &mut Option<Gathered>, part: &PartRef<'_>) -> Result<(), NoMemory>
    ensures ok { OnOk result (gathered.new ≡ with_next_any gathered.old part.now) }
    ensures err { OnErr result (gathered.new ≡ gathered.old) }
    ensures memory { OnErr result (IsTrue (goes_on_any gathered.old part.now)) }
{
    let Some(gathered) = gathered else {
        return Ok(());
    };
    gathered.append(part)?;
    Ok(())
}

/// Handles a part of a snapshot, given how many positions are executed. A part at an executed position is dropped. One
/// at a greater position than that of the gathered text starts gathering afresh. Any other part is appended if it is
/// of the same snapshot and continues the text, and dropped otherwise. So at most one text is gathered. It needs
/// memory for appended bytes; a failed call changes nothing.
pub fn add_part(
    alloc: Global,
    executed: Executed,
    gathered: &mut Option<Gathered>,
    part: &PartRef<'_>,
) -> Result<(), NoMemory>
    ensures ok { OnOk result (gathered.new ≡ heard executed gathered.old part.now) }
    ensures err { OnErr result (gathered.new ≡ gathered.old) }
    ensures memory { OnErr result (IsTrue (is_usable executed gathered.old part.now)) }
{
    if part.position().get() <= executed.get() {
        return Ok(());
    }
    if starts_text(gathered, part) {
        *gathered = Some(Gathered::first_gathered(alloc, part)?);
        return Ok(());
    }
    append_part(gathered, part)?;
    Ok(())
}
