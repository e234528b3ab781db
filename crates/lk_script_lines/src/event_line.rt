//! Prints an event as the line of world mode that asks for it.

ghost use Rattle.std.specs.Prelude.{◌≡◌, ◌++◌, ◌∷◌, [], IfOk, OnOk, string_bytes};
ghost use Rattle.std.specs.Fmt.{decimal};
ghost use Rattle.hex.specs.Hex.{encode_lower};
ghost use Rattle.lk_script_lines.specs.EventLines.{then_numbers, op_words, then_inputs, then_reason, line_of};
ghost use Rattle.lk_sim.specs.declared.event.Event.TheVariants.{Client, Nudge};

use lk_node_interface::NudgeReason;
use lk_sim::{Event, GroupInput};
use lk_types::{NoMemory, NodeNo, Op, Request};
use std::alloc::{AllocError, Global};

// Returns the number after a space.
fn numbered(alloc: Global, n: u64) -> Result<String, AllocError>
    ensures { IfOk result (λ text. string_bytes text ≡ 32 ∷ decimal n) }
{
    format!(in alloc; " {n}")
}

// Appends a text.
fn add(text: &mut Vec<u8>, more: &str) -> Result<(), NoMemory>
    ensures { OnOk result (text.new.items ≡ text.old.items ++ more.now) }
{
    text.extend_from_slice(more.as_bytes())?;
    Ok(())
}

// Appends numbers, each after a space.
fn add_numbers(alloc: Global, text: &mut Vec<u8>, numbers: &[u64]) -> Result<(), NoMemory>
    ensures { OnOk result (text.new.items ≡ text.old.items ++ then_numbers numbers.now) }
{
    for n in numbers {
        let word = numbered(alloc, *n)?;
        add(text, word.as_str())?;
    }
    Ok(())
}

// Appends a verb and numbers, each after a space.
fn add_words(alloc: Global, text: &mut Vec<u8>, verb: &str, numbers: &[u64]) -> Result<(), NoMemory>
    ensures { OnOk result (text.new.items ≡ text.old.items ++ verb.now ++ then_numbers numbers.now) }
{
    add(text, verb)?;
    add_numbers(alloc, text, numbers)
}

// Appends a space and the bytes in hex.
fn add_hex(alloc: Global, text: &mut Vec<u8>, bytes: &[u8]) -> Result<(), NoMemory>
    ensures { OnOk result (text.new.items ≡ text.old.items ++ 32 ∷ encode_lower bytes.now) }
{
    let digits = hex::encode(alloc, bytes)?;
    add(text, " ")?;
    add(text, digits.as_str())
}

// Appends an operation: `raw HEX`, `join NODE PORT`, `leave NODE` or `raise 2`.
fn add_op(alloc: Global, text: &mut Vec<u8>, op: &Op) -> Result<(), NoMemory>
    ensures { OnOk result (text.new.items ≡ text.old.items ++ op_words op.now) }
{
    match op {
        Op::Table(payload) => {
            add(text, "raw")?;
            add_hex(alloc, text, payload.as_slice())
        }
        Op::Join(node, port) => {
            let numbers = [u64::from(node.get()), u64::from(port.get())];
            add_words(alloc, text, "join", &numbers)
        }
        Op::Leave(node) => add_words(alloc, text, "leave", &[u64::from(node.get())]),
        Op::Raise => add_words(alloc, text, "raise", &[2]),
    }
}

// Appends `client N C NUMBER OP`: client `C` sends node `N` a request.
fn add_client(
    alloc: Global,
    text: &mut Vec<u8>,
    node: u64,
    request: &Request,
) -> Result<(), NoMemory>
    ensures { OnOk result (text.new.items ≡ text.old.items ++ line_of (Client node request.now)) }
{
    let (client, number) = (u64::from(request.client.get()), request.number.get());
    add_words(alloc, text, "client", &[node, client, number])?;
    add(text, " ")?;
    add_op(alloc, text, &request.op)
}

// Returns the word that says the reason of a nudge, after a space; nothing if no word does.
fn reason_word(reason: NudgeReason) -> &'static str
    ensures { result.now ≡ then_reason reason }
{
    match reason {
        NudgeReason::Period => "",
        NudgeReason::TicksWithheld => " withheld",
        NudgeReason::Fed => " fed",
    }
}

// Appends an input of a group after a space: `t` for a tick, `nudge`, `nudge withheld`, `nudge fed`, or the number of a
// datagram.
fn add_input(alloc: Global, text: &mut Vec<u8>, input: GroupInput) -> Result<(), NoMemory>
    ensures { OnOk result (text.new.items ≡ text.old.items ++ then_inputs (input ∷ [])) }
{
    match input {
        GroupInput::Tick => add(text, " t"),
        GroupInput::Nudge(reason) => {
            add(text, " nudge")?;
            add(text, reason_word(reason))
        }
        GroupInput::Deliver(k) => add_numbers(alloc, text, &[k as u64]),
    }
}

// Appends the inputs of a group, each after a space.
fn add_inputs(alloc: Global, text: &mut Vec<u8>, inputs: &[GroupInput]) -> Result<(), NoMemory>
    ensures { OnOk result (text.new.items ≡ text.old.items ++ then_inputs inputs.now) }
{
    for input in inputs {
        add_input(alloc, text, *input)?;
    }
    Ok(())
}

// Appends a verb and the number of a node.
fn add_verb(alloc: Global, text: &mut Vec<u8>, verb: &str, node: NodeNo) -> Result<(), NoMemory>
    ensures { OnOk result (text.new.items ≡ text.old.items ++ verb.now ++ then_numbers (node ∷ [])) }
{
    add_words(alloc, text, verb, &[u64::from(node.get())])
}

// Appends `nudge N`, `nudge N withheld` or `nudge N fed`.
fn add_nudge(
    alloc: Global,
    text: &mut Vec<u8>,
    node: NodeNo,
    reason: NudgeReason,
) -> Result<(), NoMemory>
    ensures { OnOk result (text.new.items ≡ text.old.items ++ line_of (Nudge node reason)) }
{
    add_verb(alloc, text, "nudge", node)?;
    add(text, reason_word(reason))
}

// Appends the line of an event, without its line feed.
fn add_event(alloc: Global, text: &mut Vec<u8>, event: &Event) -> Result<(), NoMemory>
    ensures { OnOk result (text.new.items ≡ text.old.items ++ line_of event.now) }
{
    match event {
        Event::Start(node) => add_verb(alloc, text, "start", *node),
        Event::Restart(node) => add_verb(alloc, text, "restart", *node),
        Event::Tick(node) => add_verb(alloc, text, "tick", *node),
        Event::Nudge(node, reason) => add_nudge(alloc, text, *node, *reason),
        Event::Compact(node) => add_verb(alloc, text, "compact", *node),
        Event::Client(node, request) => add_client(alloc, text, u64::from(node.get()), request),
        Event::Deliver(k) => add_words(alloc, text, "deliver", &[*k as u64]),
        Event::Group(node, inputs) => {
            add_verb(alloc, text, "group", *node)?;
            add_inputs(alloc, text, inputs)
        }
        Event::Inject(node, bytes) => {
            add_verb(alloc, text, "inject", *node)?;
            add_hex(alloc, text, bytes)
        }
        Event::Stop(node, x, y) => {
            let numbers = [u64::from(node.get()), *x as u64, *y as u64];
            add_words(alloc, text, "stop", &numbers)
        }
        Event::FailAt(node, count) => {
            add_words(alloc, text, "fail", &[u64::from(node.get()), *count])
        }
        Event::Arm(node, count, bytes) => {
            let numbers = [u64::from(node.get()), *count, *bytes as u64];
            add_words(alloc, text, "arm", &numbers)
        }
    }
}

/// Appends the line of an event, with its line feed.
pub fn print_line(alloc: Global, event: &Event, text: &mut Vec<u8>) -> Result<(), NoMemory>
    ensures { OnOk result (text.new.items ≡ text.old.items ++ line_of event.now ++ 10 ∷ []) }
{
    add_event(alloc, text, event)?;
    add(text, "\n")
}
