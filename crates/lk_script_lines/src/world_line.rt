//! Reads the lines of world mode after its first: a verb, and the words that it takes.

ghost use Rattle.std.specs.Prelude.{◌≡◌, ◌≢◌, ◌≤◌, ℕ, List, [], Ok, Some, IfSome, IsNone};
ghost use Rattle.std.specs.Prelude.{IfOk, IsErrOf};
ghost use Rattle.hex.specs.Hex.{decode_of};
ghost use Rattle.lk_types.specs.Limits.{max_node};
ghost use Rattle.lk_members.specs.Effects.{RequestValue};
ghost use Rattle.lk_node_interface.specs.declared.nudge_reason.NudgeReason.{NudgeReason as ReasonValue};
ghost use Rattle.lk_sim.specs.declared.event.Event.TheVariants as event;
ghost use Rattle.lk_script_lines.specs.declared.instruction.Instruction.TheVariants as instruction;
ghost use Rattle.lk_script_lines.specs.declared.instruction.Instruction.{Instruction as InstructionValue};
ghost use Rattle.lk_script_lines.specs.WorldLines.{IsNodeWord, AsksToStart, AsksToRestart, AsksForTicks, AsksToCompact};
ghost use Rattle.lk_script_lines.specs.WorldLines.{AsksToDeliver, AsksForGroup, SpellsRequest, AsksOfClient};
ghost use Rattle.lk_script_lines.specs.WorldLines.{AsksToInject, AsksToNudge, SaysReason};
ghost use Rattle.lk_script_lines.specs.WorldLines.{AsksToStop, AsksToFail, AsksToArm};
ghost use Rattle.lk_script_lines.specs.WorldLines.{SpellsAfterVerb, SpellsInstruction};

use crate::event_verb::EventVerb;
use crate::fault::LineFault;
use crate::input_words::read_inputs;
use crate::instruction::Instruction;
use crate::world_words::{first_number, number_of};
use lk_node_interface::NudgeReason;
use lk_sim::Event;
use lk_types::limits::{MAX_CLIENT, MAX_COUNT, MAX_NODE};
use lk_types::{ClientNo, NodeNo, Request, RequestNumber};
use lk_word_parsers::operation::read_operation;
use lk_word_parsers::word::split_word;
use std::alloc::Global;

const LAST_NODE: u64 = MAX_NODE as u64;

const LAST_CLIENT: u64 = MAX_CLIENT as u64;

// The most ticks that one line asks for.
const MAX_TIMES: u64 = 10_000;

// Returns the node whose number the word spells.
fn node_of(word: &[u8]) -> Option<NodeNo>
    ensures some { IfSome result (λ n. IsNodeWord n word.now) }
    ensures none { IsNone result → (n : ℕ) → IsNodeWord n word.now → ⊥ }
{
    let number = number_of(word, 1, LAST_NODE)?;
    Some(NodeNo::of(number as u32).unwrap())
}

// Reads the word of `start N`.
fn read_start(words: &[u8]) -> Option<Instruction>
    ensures some { IfSome result (AsksToStart words.now) }
    ensures none { IsNone result → (o : InstructionValue) → AsksToStart words.now o → ⊥ }
{
    let Some(node) = node_of(words) else {
        return None;
    };
    Some(Instruction::Once(Event::Start(node)))
}

// Reads the word of `restart N`.
fn read_restart(words: &[u8]) -> Option<Instruction>
    ensures some { IfSome result (AsksToRestart words.now) }
    ensures none { IsNone result → (o : InstructionValue) → AsksToRestart words.now o → ⊥ }
{
    let Some(node) = node_of(words) else {
        return None;
    };
    Some(Instruction::Once(Event::Restart(node)))
}

// Returns the number of the node and how many times it ticks: once if the words are only `N`.
fn ticks(words: &[u8]) -> Option<(u64, u64)>
    ensures some { IfSome result
        (λ p. (1 ≤ p.0) × (p.0 ≤ max_node) × (p.1 ≤ 10000) × AsksForTicks words.now (instruction.Ticks p.0 p.1)) }
    ensures none { IsNone result → (o : InstructionValue) → AsksForTicks words.now o → ⊥ }
{
    if let Some((number, word)) = first_number(words, 1, LAST_NODE) {
        let times = number_of(word, 1, MAX_TIMES)?;
        return Some((number, times));
    }
    let number = number_of(words, 1, LAST_NODE)?;
    Some((number, 1))
}

// Reads the words of `tick N` or `tick N TIMES`.
fn read_tick(words: &[u8]) -> Option<Instruction>
    ensures some { IfSome result (AsksForTicks words.now) }
    ensures none { IsNone result → (o : InstructionValue) → AsksForTicks words.now o → ⊥ }
{
    let (number, times) = ticks(words)?;
    let node = NodeNo::of(number as u32).unwrap();
    Some(Instruction::Ticks(node, times as u16))
}

// Returns the reason of a nudge that this word says, if it says one.
fn reason_of(word: &[u8]) -> Option<NudgeReason>
    ensures some { IfSome result (λ reason. SaysReason reason word.now) }
    ensures none { IsNone result → (reason : ReasonValue) → SaysReason reason word.now → ⊥ }
{
    match word {
        b"withheld" => Some(NudgeReason::TicksWithheld),
        b"fed" => Some(NudgeReason::Fed),
        _ => None,
    }
}

// Returns the number of the node that is nudged, and the reason.
fn nudged(words: &[u8]) -> Option<(u64, NudgeReason)>
    ensures some { IfSome result
        (λ p. (1 ≤ p.0) × (p.0 ≤ max_node) × AsksToNudge words.now (instruction.Once (event.Nudge p.0 p.1))) }
    ensures none { IsNone result → (o : InstructionValue) → AsksToNudge words.now o → ⊥ }
{
    if let Some((number, word)) = first_number(words, 1, LAST_NODE) {
        let reason = reason_of(word)?;
        return Some((number, reason));
    }
    let number = number_of(words, 1, LAST_NODE)?;
    Some((number, NudgeReason::Period))
}

// Reads the words of `nudge N`, `nudge N withheld` or `nudge N fed`.
fn read_nudge(words: &[u8]) -> Option<Instruction>
    ensures some { IfSome result (AsksToNudge words.now) }
    ensures none { IsNone result → (o : InstructionValue) → AsksToNudge words.now o → ⊥ }
{
    let (number, reason) = nudged(words)?;
    let node = NodeNo::of(number as u32).unwrap();
    Some(Instruction::Once(Event::Nudge(node, reason)))
}

// Reads the word of `compact N`.
fn read_compact(words: &[u8]) -> Option<Instruction>
    ensures some { IfSome result (AsksToCompact words.now) }
    ensures none { IsNone result → (o : InstructionValue) → AsksToCompact words.now o → ⊥ }
{
    let Some(node) = node_of(words) else {
        return None;
    };
    Some(Instruction::Once(Event::Compact(node)))
}

// Reads the word of `deliver K`.
fn read_deliver(words: &[u8]) -> Option<Instruction>
    ensures some { IfSome result (AsksToDeliver words.now) }
    ensures none { IsNone result → (o : InstructionValue) → AsksToDeliver words.now o → ⊥ }
{
    let k = number_of(words, 1, MAX_COUNT)?;
    Some(Instruction::Once(Event::Deliver(k as usize)))
}

// Reads a request, `C NUMBER OP`.
fn request(words: &[u8]) -> Option<Request>
    ensures some { IfSome result (SpellsRequest words.now) }
    ensures none { IsNone result → (r : RequestValue) → SpellsRequest words.now r → ⊥ }
{
    let (client, words) = first_number(words, 1, LAST_CLIENT)?;
    let (number, words) = first_number(words, 1, MAX_COUNT)?;
    let Some(op) = read_operation(words) else {
        return None;
    };
    let client = ClientNo::of(client as u16).unwrap();
    let number = RequestNumber::of(number).unwrap();
    Some(Request { client, number, op })
}

// Reads the words of `client N C NUMBER OP`: client C asks node N.
fn read_ask(words: &[u8]) -> Option<Instruction>
    ensures some { IfSome result (AsksOfClient words.now) }
    ensures none { IsNone result → (o : InstructionValue) → AsksOfClient words.now o → ⊥ }
{
    let (number, words) = first_number(words, 1, LAST_NODE)?;
    let Some(request) = request(words) else {
        return None;
    };
    let node = NodeNo::of(number as u32).unwrap();
    Some(Instruction::Once(Event::Client(node, request)))
}

// Reads the words of `stop N X Y`.
fn read_stop(words: &[u8]) -> Option<Instruction>
    ensures some { IfSome result (AsksToStop words.now) }
    ensures none { IsNone result → (o : InstructionValue) → AsksToStop words.now o → ⊥ }
{
    let (number, words) = first_number(words, 1, LAST_NODE)?;
    let (x, word) = first_number(words, 0, MAX_COUNT)?;
    let y = number_of(word, 0, MAX_COUNT)?;
    let node = NodeNo::of(number as u32).unwrap();
    Some(Instruction::Once(Event::Stop(node, x as usize, y as usize)))
}

// Reads the words of `fail N COUNT`.
fn read_fail(words: &[u8]) -> Option<Instruction>
    ensures some { IfSome result (AsksToFail words.now) }
    ensures none { IsNone result → (o : InstructionValue) → AsksToFail words.now o → ⊥ }
{
    let (number, word) = first_number(words, 1, LAST_NODE)?;
    let count = number_of(word, 1, MAX_COUNT)?;
    let node = NodeNo::of(number as u32).unwrap();
    Some(Instruction::Once(Event::FailAt(node, count)))
}

// Reads the words of `arm N COUNT BYTES`.
fn read_arm(words: &[u8]) -> Option<Instruction>
    ensures some { IfSome result (AsksToArm words.now) }
    ensures none { IsNone result → (o : InstructionValue) → AsksToArm words.now o → ⊥ }
{
    let (number, words) = first_number(words, 1, LAST_NODE)?;
    let (count, word) = first_number(words, 1, MAX_COUNT)?;
    let bytes = number_of(word, 0, MAX_COUNT)?;
    let node = NodeNo::of(number as u32).unwrap();
    Some(Instruction::Once(Event::Arm(node, count, bytes as usize)))
}

// Returns the bytes of an even number of hex digits, two or more.
fn read_hex(alloc: Global, digits: &[u8]) -> Result<Vec<u8>, LineFault>
    ensures ok { IfOk result (λ b. (decode_of digits.now ≡ Ok b.items) × (b.items ≢ [])) }
    ensures not_understood { IsErrOf result LineFault.NotUnderstood → (bytes : List ℕ)
        → decode_of digits.now ≡ Ok bytes → bytes ≢ [] → ⊥ }
{
    let mut bytes = Vec::new(alloc);
    bytes.resize(digits.len() / 2, 0)?;
    match hex::decode_to_slice(digits, bytes.as_mut_slice()) {
        Ok(()) if !bytes.is_empty() => Ok(bytes),
        _ => Err(LineFault::NotUnderstood),
    }
}

// Reads the words of `inject N HEX`.
fn read_inject(alloc: Global, words: &[u8]) -> Result<Instruction, LineFault>
    ensures ok { IfOk result (AsksToInject words.now) }
    ensures not_understood { IsErrOf result LineFault.NotUnderstood → (o : InstructionValue)
        → AsksToInject words.now o → ⊥ }
{
    let Some((number, digits)) = first_number(words, 1, LAST_NODE) else {
        return Err(LineFault::NotUnderstood);
    };
    let bytes = read_hex(alloc, digits)?;
    let node = NodeNo::of(number as u32).unwrap();
    Ok(Instruction::Once(Event::Inject(node, bytes)))
}

// Reads the words of `group N TURN ..`.
fn read_group(alloc: Global, words: &[u8]) -> Result<Instruction, LineFault>
    ensures ok { IfOk result (AsksForGroup words.now) }
    ensures not_understood { IsErrOf result LineFault.NotUnderstood → (o : InstructionValue)
        → AsksForGroup words.now o → ⊥ }
{
    let Some((number, words)) = first_number(words, 1, LAST_NODE) else {
        return Err(LineFault::NotUnderstood);
    };
    let inputs = read_inputs(alloc, words)?;
    let node = NodeNo::of(number as u32).unwrap();
    Ok(Instruction::Once(Event::Group(node, inputs)))
}

// Returns the instruction, or `NotUnderstood` if there is none.
fn understood(instruction: Option<Instruction>) -> Result<Instruction, LineFault>
    ensures ok { IfOk result (λ o. instruction ≡ Some o) }
    ensures not_understood { IsErrOf result LineFault.NotUnderstood → IsNone instruction }
{
    instruction.ok_or(LineFault::NotUnderstood)
}

// Reads the words after this verb.
fn instruction_of(alloc: Global, verb: EventVerb, words: &[u8]) -> Result<Instruction, LineFault>
    ensures ok { IfOk result (SpellsAfterVerb verb words.now) }
    ensures not_understood { IsErrOf result LineFault.NotUnderstood → (o : InstructionValue)
        → SpellsAfterVerb verb words.now o → ⊥ }
{
    match verb {
        EventVerb::Start => understood(read_start(words)),
        EventVerb::Restart => understood(read_restart(words)),
        EventVerb::Tick => understood(read_tick(words)),
        EventVerb::Nudge => understood(read_nudge(words)),
        EventVerb::Compact => understood(read_compact(words)),
        EventVerb::Deliver => understood(read_deliver(words)),
        EventVerb::Group => read_group(alloc, words),
        EventVerb::Client => understood(read_ask(words)),
        EventVerb::Inject => read_inject(alloc, words),
        EventVerb::Stop => understood(read_stop(words)),
        EventVerb::Fail => understood(read_fail(words)),
        EventVerb::Arm => understood(read_arm(words)),
    }
}

/// Reads a line of world mode. One that has no verb, or not its words, is not understood.
pub fn read_instruction(alloc: Global, line: &[u8]) -> Result<Instruction, LineFault>
    ensures ok { IfOk result (SpellsInstruction line.now) }
    ensures not_understood { IsErrOf result LineFault.NotUnderstood → (o : InstructionValue)
        → SpellsInstruction line.now o → ⊥ }
{
    let Some((word, words)) = split_word(line) else {
        return Err(LineFault::NotUnderstood);
    };
    match EventVerb::of(word) {
        Some(verb) => instruction_of(alloc, verb, words),
        None => Err(LineFault::NotUnderstood),
    }
}
