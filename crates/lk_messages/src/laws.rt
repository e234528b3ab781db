//! Laws of the grammar of datagrams: each is the contract of a function that does nothing.

ghost use Rattle.std.specs.Prelude.{◌≡◌, ◌+◌, ◌*◌, ◌≤◌, ◌++◌, List, ℕ, [], length};
ghost use Rattle.lk_types.specs.Commands.{IsRequest, IsCommand};
ghost use Rattle.lk_types.specs.Votes.{IsVote};
ghost use Rattle.lk_types.specs.declared.answer.Answer.{Answer};
ghost use Rattle.lk_types.specs.declared.command.Command.{Command};
ghost use Rattle.lk_types.specs.declared.command.Request.{Request};
ghost use Rattle.lk_types.specs.declared.vote.Vote.{Vote};
ghost use Rattle.lk_codec.specs.Fields.{request, command, vote, pair, answer};
ghost use Rattle.lk_messages.specs.declared.message.Message.{Message};
ghost use Rattle.lk_messages.specs.Grammar.{Spells, spelling, vote_count, IsMessage};

/// A message has one spelling, and each valid message has it.
pub fn one_spelling()
    ensures only { (m : Message) (a b : List ℕ) → Spells m a → Spells m b → a ≡ b }
    ensures some { (m : Message) → IsMessage m → Spells m (spelling m) }
{}

/// Bytes spell at most one message.
pub fn one_message()
    ensures { (m n : Message) (bytes : List ℕ) → Spells m bytes → Spells n bytes → m ≡ n }
{}

/// No datagram is a prefix of another one.
pub fn prefix_free()
    ensures { (m n : Message) (rest : List ℕ) → IsMessage m → IsMessage n → spelling m ++ rest ≡ spelling n
        → (m ≡ n) × (rest ≡ []) }
{}

/// Upper bounds of spellings, in bytes. That of a datagram is the length of a Promise with 128 of the longest votes. A
/// datagram with fewer votes is shorter: with up to 64 it has at most 6,245 bytes, with up to 32 at most 3,141.
pub fn lengths()
    ensures of_request { (r : Request) → IsRequest r → length (request r) ≤ 76 }
    ensures of_command { (c : Command) → IsCommand c → length (command c) ≤ 77 }
    ensures of_vote { (v : Vote) → IsVote v → length (vote v) ≤ 97 }
    ensures of_pair { (p : ℕ × Command) → IsCommand p.1 → length (pair p) ≤ 85 }
    ensures of_answer { (a : Answer) → length (answer a) ≤ 11 }
    ensures of_votes { (m : Message) (most : ℕ) → IsMessage m → 13 ≤ most → vote_count m.content ≤ most
        → length (spelling m) ≤ 37 + 97 * most }
    ensures of_datagram { (m : Message) → IsMessage m → length (spelling m) ≤ 12453 }
{}
