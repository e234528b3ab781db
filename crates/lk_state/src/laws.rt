//! Laws (theorems) about the definitions: each is an empty function, whose contract is the theorem.
ghost use Rattle.std.specs.Prelude.{◌≡◌, ◌≤◌, ◌++◌, if◌then◌else◌, true, Some, None, List, length, ℕ, Contains};
ghost use Rattle.std.specs.List.{list_all, AllByRecursion};
ghost use Rattle.lk_types.specs.Limits.{max_count};
ghost use Rattle.lk_types.specs.Commands.{IsCommand};
ghost use Rattle.lk_types.specs.Geneses.{IsGenesis};
ghost use Rattle.lk_types.specs.declared.answer.Answer.{Answer};
ghost use Rattle.lk_members.specs.Effects.{Command, RequestValue, Request, PositionedEntry, positioned, in_effect};
ghost use Rattle.lk_members.specs.Effects.{is_of_another};
ghost use Rattle.lk_members.specs.Effects.{IsLast};
ghost use Rattle.lk_members.specs.Rosters.{Genesis};
ghost use Rattle.lk_state.specs.Meanings.{Meaning};
ghost use Rattle.lk_state.specs.Sessions.{Session, is_new};
ghost use Rattle.lk_state.specs.States.{session_of_entry, reply, last_session, sessions_of, whole_after};
ghost use Rattle.lk_state.specs.Packed.{IsWhole};

use crate::machine::Machine;

/// A request takes effect after a list exactly if its number is above that of its client's last one that takes effect.
pub fn takes_effect_above_last()
    ensures { (m : Meaning) (genesis : Genesis) (L : List Command) (r : RequestValue)
        → in_effect L (Request r) ≡ (if is_new (last_session m genesis L r.client) r.number then Some r else None) }
{}

/// A client's last request that takes effect has the greatest number that it used.
pub fn last_is_greatest()
    ensures { (m : Meaning) (genesis : Genesis) (L : List Command) (client : ℕ) (s : Session)
        → last_session m genesis L client ≡ Some s → IsLast L client s.number }
{}

/// A client of which no request takes effect has none in the list.
pub fn none_is_unused()
    ensures { (m : Meaning) (genesis : Genesis) (L : List Command) (client : ℕ) → last_session m genesis L client ≡ None
        → list_all (is_of_another client) L ≡ true }
{}

/// The reply to a client's last request that takes effect is the answer kept with it.
pub fn last_is_replied()
    ensures { (m : Meaning) (genesis : Genesis) (L : List Command) (client : ℕ) (s : Session)
        → last_session m genesis L client ≡ Some s → reply m genesis L client s.number ≡ Some s.answer }
{}

/// Each reply is the answer that some entry of the list gets where it takes effect.
pub fn replies_come_from_entries()
    ensures { (m : Meaning) (genesis : Genesis) (L : List Command) (client number : ℕ) (a : Answer)
        → reply m genesis L client number ≡ Some a
        → (p : PositionedEntry) × Contains (positioned L) p
        × (session_of_entry m genesis p ≡ Some (record { client = client; number = number; answer = a })) }
{}

/// The answer that an entry gets at its place is the only reply to its client and number.
pub fn one_reply()
    ensures { (m : Meaning) (genesis : Genesis) (L : List Command) (p : PositionedEntry) (s : Session)
        → Contains (positioned L) p
        → session_of_entry m genesis p ≡ Some s → reply m genesis L s.client s.number ≡ Some s.answer }
{}

/// A reply stays as the list grows.
pub fn replies_stay()
    ensures { (m : Meaning) (genesis : Genesis) (L rest : List Command) (client number : ℕ) (a : Answer)
        → reply m genesis L client number ≡ Some a → reply m genesis (L ++ rest) client number ≡ Some a }
{}

/// Each session in the state after a list is its client's last request that takes effect.
pub fn sessions_are_last()
    ensures { (m : Meaning) (genesis : Genesis) (L : List Command) (s : Session) → Contains (sessions_of m genesis L) s
        → last_session m genesis L s.client ≡ Some s }
{}

/// The state after a list of valid commands is itself valid, and so can be packed and unpacked again.
pub fn states_fit<M: Machine>()
    ensures { (genesis : Genesis) (L : List Command) → IsGenesis genesis → AllByRecursion IsCommand L
        → length L ≤ max_count → IsWhole M.IsText (whole_after M.meaning genesis L) }
{}
