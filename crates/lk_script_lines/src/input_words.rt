// Reads the inputs of a group.
ghost use Rattle.std.specs.Prelude.{ℕ, List, IfSome, IsNone, IfOk, IsErrOf};
ghost use Rattle.lk_node_interface.specs.declared.nudge_reason.NudgeReason.{NudgeReason as ReasonValue};
ghost use Rattle.lk_script_lines.specs.WorldLines.{BeginsWithPair, FirstInput, OneInput, SpellsInput, SpellsInputs};
ghost use Rattle.lk_sim.specs.declared.event.GroupInput.{GroupInput as InputValue};
ghost use Rattle.lk_sim.specs.declared.event.GroupInput.TheVariants.{Nudge};

use crate::fault::LineFault;
use crate::world_words::number_of;
use lk_node_interface::NudgeReason;
use lk_sim::GroupInput;
use lk_types::limits::MAX_COUNT;
use lk_word_parsers::word::split_word;
use std::alloc::Global;

// The inputs of two words.
const WITHHELD: &[u8] = b"nudge withheld";

const FED: &[u8] = b"nudge fed";

// Returns the reason of the nudge that these words spell, if they spell one.
fn nudge_of(words: &[u8]) -> Option<NudgeReason>
    ensures some { IfSome result (λ reason. SpellsInput (Nudge reason) words.now) }
    ensures none { IsNone result → (reason : ReasonValue) → SpellsInput (Nudge reason) words.now → ⊥ }
{
    match words {
        b"nudge" => Some(NudgeReason::Period),
        b"nudge withheld" => Some(NudgeReason::TicksWithheld),
        b"nudge fed" => Some(NudgeReason::Fed),
        _ => None,
    }
}

// Reads an input: `t` for a tick, `nudge`, `nudge withheld`, `nudge fed`, or the number of a datagram, counted from 1.
fn input_of(words: &[u8]) -> Option<GroupInput>
    ensures some { IfSome result (λ t. SpellsInput t words.now) }
    ensures none { IsNone result → (t : InputValue) → SpellsInput t words.now → ⊥ }
{
    if words == b"t".as_slice() {
        return Some(GroupInput::Tick);
    }
    if let Some(reason) = nudge_of(words) {
        return Some(GroupInput::Nudge(reason));
    }
    let k = number_of(words, 1, MAX_COUNT)?;
    Some(GroupInput::Deliver(k as usize))
}

// Splits words that begin with an input of two words into these and what follows the space after them.
fn split_pair(words: &[u8]) -> Option<(&[u8], &[u8])>
    ensures some { IfSome result (λ p. BeginsWithPair p.0.now p.1.now words.now) }
    ensures none { IsNone result → (first rest : List ℕ) → BeginsWithPair first rest words.now → ⊥ }
{
    if let Some(rest) = words.strip_prefix(b"nudge withheld ".as_slice()) {
        return Some((WITHHELD, rest));
    }
    let rest = words.strip_prefix(b"nudge fed ".as_slice())?;
    Some((FED, rest))
}

// Splits the words of several inputs into those of the first and what follows the space after them. `None` if they are
// one input at most.
fn split_input(words: &[u8]) -> Option<(&[u8], &[u8])>
    ensures some { IfSome result (λ p. FirstInput p.0.now p.1.now words.now) }
    ensures none { IsNone result → OneInput words.now }
{
    if nudge_of(words).is_some() {
        return None;
    }
    if let Some((first, rest)) = split_pair(words) {
        return Some((first, rest));
    }
    split_word(words)
}

/// Reads one or more inputs of a group, separated by one space each.
pub fn read_inputs(alloc: Global, words: &[u8]) -> Result<Vec<GroupInput>, LineFault>
    ensures ok { IfOk result (λ v. SpellsInputs words.now v.items) }
    ensures not_understood { IsErrOf result LineFault.NotUnderstood → (inputs : List InputValue)
        → SpellsInputs words.now inputs → ⊥ }
{
    let mut inputs = Vec::new(alloc);
    let mut rest = words;
    'words: while let Some((first, behind)) = split_input(rest) {
        let Some(input) = input_of(first) else {
            return Err(LineFault::NotUnderstood);
        };
        inputs.push(input)?;
        rest = behind;
    }
    let Some(input) = input_of(rest) else {
        return Err(LineFault::NotUnderstood);
    };
    inputs.push(input)?;
    Ok(inputs)
}
