//! The packed text of a state.

ghost use Rattle.std.specs.Prelude.{◌≡◌, ◌+◌, ◌*◌, ◌≤◌, ◌++◌, length, OnOk, OnErr};
ghost use Rattle.lk_types.specs.Limits.{max_client};
ghost use Rattle.lk_types.specs.Rosters.{AreMembers};
ghost use Rattle.lk_members.specs.Sets.{IsWindow};
ghost use Rattle.lk_state.specs.Sessions.{AreSessions};
ghost use Rattle.lk_state.specs.Packed.{sets_text, roster_text, session_text, sessions_text, packed, IsWhole};

use crate::machine::Machine;
use crate::session::Session;
use crate::whole::Whole;
use bytes::BytesMut;
use lk_codec::{
    put_answer, put_client, put_executed, put_members, put_node, put_number, put_u8, put_u16,
};
use lk_members::{Roster, Window};
use lk_types::NoMemory;
use std::alloc::AllocError;

// Appends how many sets there are, and then each. Out of memory it may leave a prefix.
fn put_window(out: &mut BytesMut, window: &Window) -> Result<(), AllocError>
    ensures { OnOk result (out.new.items ≡ out.old.items ++ sets_text window.now) }
{
    let sets = window.as_slice();
    put_u8(out, sets.len() as u8)?;
    for each in sets {
        put_members(out, each.set().as_slice())?;
    }
    Ok(())
}

// Appends the count of executed positions, the window, the greatest node and the last change. Out of memory it may
// leave a prefix.
fn put_roster(out: &mut BytesMut, roster: &Roster) -> Result<(), AllocError>
    ensures { OnOk result (out.new.items ≡ out.old.items ++ roster_text roster.now) }
{
    put_executed(out, roster.executed())?;
    put_window(out, roster.window())?;
    put_node(out, roster.greatest())?;
    put_executed(out, roster.changed())?;
    Ok(())
}

// Appends a client, a number and an answer. Out of memory it may leave a prefix.
fn put_session(out: &mut BytesMut, session: &Session) -> Result<(), AllocError>
    ensures { OnOk result (out.new.items ≡ out.old.items ++ session_text session.now) }
{
    put_client(out, session.client)?;
    put_number(out, session.number)?;
    put_answer(out, session.answer)?;
    Ok(())
}

// Appends how many sessions there are, and then each. Out of memory it may leave a prefix.
fn put_sessions(out: &mut BytesMut, sessions: &[Session]) -> Result<(), AllocError>
    requires { length sessions.now ≤ max_client }
    ensures { OnOk result (out.new.items ≡ out.old.items ++ sessions_text sessions.now) }
{
    put_u16(out, sessions.len() as u16)?;
    for session in sessions {
        put_session(out, session)?;
    }
    Ok(())
}

impl<M: Machine> Whole<M> {
    /// Shows the prover that each part is in its range, and that the packed text has 1 to 38,782 bytes: at most 36,030,
    /// and 43 for each set of members. Does nothing at run time.
    pub fn facts(&self)
        ensures fits { IsWhole M.IsText self.now }
        ensures some { 1 ≤ length (packed self.now) }
        ensures short { length (packed self.now) ≤ 38782 }
        ensures by_sets { length (packed self.now) ≤ 36030 + 43 * length self.now.roster.sets }
    {
        let _ = &self.roster;
    }

    /// Appends the packed text: equal states have the same text. Out of memory it appends nothing.
    pub fn pack(&self, out: &mut BytesMut) -> Result<(), NoMemory>
        ensures ok { OnOk result (out.new.items ≡ out.old.items ++ packed self.now) }
        ensures err { OnErr result (out.new.items ≡ out.old.items) }
        ensures fits { IsWhole M.IsText self.now }
    {
        // A buffer of its own, since the parts may leave a prefix where memory runs out.
        let mut text = BytesMut::new(self.alloc);
        put_roster(&mut text, &self.roster)?;
        put_sessions(&mut text, self.sessions.as_slice())?;
        self.machine.pack(&mut text)?;
        out.extend_from_slice(&text)?;
        Ok(())
    }
}
