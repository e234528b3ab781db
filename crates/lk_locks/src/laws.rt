//! Laws (theorems) about the definitions: each is an empty function, whose contract is the theorem.
ghost use Rattle.std.specs.Prelude.{◌≡◌, ◌≤◌, ◌+◌, ◌↔◌, ◌⊎◌, ◌∷◌, ◌++◌, List, [], ℕ, Some, length, true, IsTrue};
ghost use Rattle.std.specs.List.{AllByRecursion};
ghost use Rattle.std.specs.FinMap as map;
ghost use Rattle.lk_types.specs.declared.answer.Answer.TheVariants.{Granted, Valid, Stale};
ghost use Rattle.lk_types.specs.declared.command.Op.TheVariants.{Table as TableOp};
ghost use Rattle.lk_types.specs.Commands.{IsCommand};
ghost use Rattle.lk_members.specs.Effects.{Command, RequestValue, Request, in_effect};
ghost use Rattle.lk_state.specs.States.{text_of};
ghost use Rattle.lk_locks.specs.declared.body.Body.{Body};
ghost use Rattle.lk_locks.specs.declared.body.Body.TheVariants.{Check, Break};
ghost use Rattle.lk_locks.specs.declared.lock_entry.Holders.{Holders};
ghost use Rattle.lk_locks.specs.declared.lock_entry.Holders.TheVariants.{Nobody};
ghost use Rattle.lk_locks.specs.Bodies.{SpellsBody, body_of, name_of};
ghost use Rattle.lk_locks.specs.Free.{IsFree};
ghost use Rattle.lk_locks.specs.Holders.{is_held};
ghost use Rattle.lk_state.specs.Meanings.{Task};
ghost use Rattle.lk_locks.specs.Plain.{Table, answer, next};
ghost use Rattle.lk_locks.specs.Packed.{IsTable, IsTableText, table_text, table_in};
ghost use Rattle.lk_locks.specs.Grants.{Call, is_for, fences, fences_in, grants, grants_in, numbers_from};
ghost use Rattle.lk_locks.specs.Meaning.{table_meaning, task_answer};
ghost use Rattle.lk_locks.specs.Lists.{table_of};

/// Over any list of commands, the fences at which a name is given, alone or to share, are 1, 2, 3 and so on. Joining
/// those who share it takes no new fence.
pub fn fences_count_up()
    ensures { (name : List ℕ) (L : List Command) → grants_in name L ≡ numbers_from 1 (length (grants_in name L)) }
{}

/// After any list of commands, a name that nobody holds is given at the fence one above its last, alone or to share: a
/// fence that was given up is never given again.
pub fn a_free_name_is_given_at_the_next_fence()
    ensures { (client : ℕ) (bytes : List ℕ) (body : Body) (fence : ℕ) (L : List Command) → body_of bytes ≡ Some body
        → IsFree (map.get (table_of L).names (name_of body)) → fences (answer client bytes (table_of L)) ≡ fence ∷ []
        → fence ≡ length (grants_in (name_of body) L) + 1 }
{}

/// A name is granted to one client alone only if nobody holds it.
pub fn a_name_is_granted_where_nobody_holds_it()
    ensures { (client : ℕ) (bytes : List ℕ) (body : Body) (fence : ℕ) (t : Table) → body_of bytes ≡ Some body
        → answer client bytes t ≡ Granted fence → IsFree (map.get t.names (name_of body)) }
{}

/// Over any calls of clients, the fences at which a name is given are 1, 2, 3 and so on.
pub fn fences_of_calls_count_up()
    ensures { (name : List ℕ) (calls : List Call) → grants name calls ≡ numbers_from 1 (length (grants name calls)) }
{}

/// Bytes are the spelling of at most one body. (A body has one spelling since `spelling` is a function.)
pub fn one_body()
    ensures { (a b : Body) (bytes : List ℕ) → SpellsBody a bytes → SpellsBody b bytes → a ≡ b }
{}

/// Reading the text of a table gives that table, so no two tables have the same text.
pub fn one_table()
    ensures { (t : Table) → IsTable t → table_in (table_text t) ≡ t }
{}

/// The text of a table has at most 30,212 bytes: 4, and for each of 512 names 59.
pub fn short_texts()
    ensures { (bytes : List ℕ) → IsTableText bytes → length bytes ≤ 30212 }
{}

/// After a list of commands, the machine has the packed text of the plain table after that list.
pub fn texts_are_of_tables()
    ensures { (L : List Command) → AllByRecursion IsCommand L → text_of table_meaning L ≡ table_text (table_of L) }
{}

/// After a list of commands, the machine answers any task as the plain table after that list does.
pub fn answers_are_plain()
    ensures { (L : List Command) → AllByRecursion IsCommand L → (client : ℕ) (task : Task)
        → table_meaning.answer client task (text_of table_meaning L) ≡ task_answer client task (table_of L) }
{}

/// `is_for` holds for exactly the name in the body.
pub fn bodies_are_for_their_names()
    ensures { (name : List ℕ) (body : Body) → IsTrue (is_for name (Some body)) ↔ (name_of body ≡ name) }
{}

/// An entry that takes effect and is given a name, alone or to share, adds its fence to those of the name.
pub fn each_fence_is_listed()
    ensures { (name : List ℕ) (L : List Command) (r : RequestValue) (bytes : List ℕ) (body : Body) (fence : ℕ)
        → in_effect L (Request r) ≡ Some r → r.op ≡ TableOp bytes → body_of bytes ≡ Some body → name_of body ≡ name
        → fences (answer r.client bytes (table_of L)) ≡ fence ∷ []
        → fences_in name (L ++ Request r ∷ []) ≡ fences_in name L ++ fence ∷ [] }
{}

/// A Check is valid exactly if the name is held at its fence, alone or together, and stale otherwise.
pub fn checks_tell_who_holds()
    ensures { (client : ℕ) (bytes name : List ℕ) (fence : ℕ) (t : Table) → body_of bytes ≡ Some (Check name fence)
        → ((answer client bytes t ≡ Valid)
        ↔ ((holders : Holders) × (is_held holders ≡ true)
        × (map.get t.names name ≡ Some (record { fence = fence; holders = holders }))))
        × ((answer client bytes t ≡ Valid) ⊎ (answer client bytes t ≡ Stale)) }
{}

/// A Break at the fence at which a name is held frees it from all its holders, and the fence stays.
pub fn breaks_free_all()
    ensures { (client : ℕ) (bytes name : List ℕ) (fence : ℕ) (t : Table) (holders : Holders) → t.raised ≡ true
        → body_of bytes ≡ Some (Break name fence) → is_held holders ≡ true
        → map.get t.names name ≡ Some (record { fence = fence; holders = holders })
        → map.get (next client bytes t).names name ≡ Some (record { fence = fence; holders = Nobody }) }
{}
