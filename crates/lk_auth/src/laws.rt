//! Laws of seals: each is the contract of a function that does nothing.

ghost use Rattle.std.specs.Prelude.{◌≡◌, ◌≢◌, ◌⊎◌, ◌++◌, ℕ, List, [], Some};
ghost use Rattle.lk_auth.specs.Frames.{front, sealed};
ghost use Rattle.lk_auth.specs.Seals.{key_list, opened_by, IsAmong};
ghost use Rattle.lk_auth.specs.Vouching.{IsScope, Collide, IsForOne, IsVouched, IsOfWhoItNames};
ghost use Rattle.lk_auth.specs.declared.frame.Scope.{Scope};
ghost use Rattle.lk_auth.specs.declared.seals.Seals.{Seals};

/// If the nodes have a key, whatever a node takes was sealed for it by someone who has one, or it is no node's
/// message.
pub fn is_vouched()
    ensures { (s : Seals) (frame : List ℕ) → key_list s.nodes ≢ [] → IsVouched s frame }
{}

/// If nodes and clients have keys, whatever a node takes was sealed for it by someone with a key of the nodes, or it
/// was sealed by someone with the key of the client that it names. So no client can act as another.
pub fn is_of_who_it_names()
    ensures { (s : Seals) (frame : List ℕ) → key_list s.nodes ≢ [] → key_list s.clients ≢ [] → IsOfWhoItNames s frame }
{}

/// A frame that one of the keys seals opens under these keys, to the same datagram.
pub fn is_opened()
    ensures { (key : List ℕ) (keys : List (List ℕ)) (s : Scope) (datagram : List ℕ) → IsAmong key keys
        → opened_by keys s (sealed key s datagram) ≡ Some datagram }
{}

/// A frame is for one scope and one datagram; otherwise two messages have the same tag under the key.
pub fn is_for_one()
    ensures { (key : List ℕ) (s t : Scope) (d e : List ℕ) → IsScope s → IsScope t → sealed key s d ≡ sealed key t e
        → IsForOne s t d e ⊎ Collide key (front s ++ d) (front t ++ e) }
{}
