//! One unreplicated lock table: a cluster of node 1 alone, which executes each request at once.

ghost use Rattle.std.specs.Prelude.{◌≡◌, ◌+◌, ◌<◌, ◌≤◌, ◌++◌, ◌∷◌, [], List, ℕ, Some, None, true, false, OnOk, IfOk};
ghost use Rattle.std.specs.Prelude.{IfErr, IfSome, IsNone, IsErrOf};
ghost use Rattle.lk_types.specs.Limits.{max_count};
ghost use Rattle.lk_members.specs.Effects.{Command as CommandValue};
ghost use Rattle.lk_messages.specs.Grammar.{Spells};
ghost use Rattle.lk_wire.specs.Shown.{shown};
ghost use Rattle.lk_messages.specs.declared.message.Message.{Message as MessageValue};
ghost use Rattle.lk_script.specs.TableMode.{from_client, is_request_to, is_for_table};

use crate::buffers::Buffers;
use lk_locks::LockTable;
use lk_node_interface::kept_reply;
use lk_script_lines::fault::LineFault;
use lk_script_lines::hex_line::read_bytes;
use lk_state::Whole;
use lk_types::{Answer, Command, Genesis, Member, NoMemory, NodeNo, Op, Request};
use lk_wire::{Answered, Bad, Content, ContentRef, Message, MessageRef, NodeMessage, view};
use std::alloc::Global;

// Returns the client's request in the message, if it is one to this cluster.
fn request_to(cluster: u64, message: &MessageRef<'_>) -> Option<Request>
    ensures some { IfSome result (λ r. shown message.now ≡ from_client cluster r) }
    ensures none { IsNone result → is_request_to cluster (shown message.now) ≡ false }
{
    match &message.content {
        ContentRef::Request(request) if message.cluster == cluster => Some(request.request()),
        _ => None,
    }
}

// Returns the request to the cluster that a datagram holds, or `None` if it holds any other message.
fn read_request(cluster: u64, bytes: &[u8]) -> Result<Option<Request>, Bad>
    ensures request { IfOk result (λ found. IfSome found (λ r. Spells (from_client cluster r) bytes.now)) }
    ensures other { IfOk result
        (λ found. IsNone found → (m : MessageValue) × Spells m bytes.now × (is_request_to cluster m ≡ false)) }
    ensures bad { IfErr result (λ e. (m : MessageValue) → Spells m bytes.now → ⊥) }
{
    let message = view(bytes)?;
    Ok(request_to(cluster, &message))
}

// Whether an op is for the lock table, and not for the members.
fn is_for_table(op: &Op) -> bool
    ensures { result ≡ is_for_table op.now }
{
    match op {
        Op::Table(_) | Op::Raise => true,
        Op::Join(..) | Op::Leave(_) => false,
    }
}

/// The lock table of a cluster of node 1 alone, which executes each request at once.
#[derive(Drop)]
pub struct TableRun {
    cluster: u64,
    whole: Whole<LockTable>,
}

impl TableRun {
    ghost use Rattle.lk_messages.specs.declared.message.NodeMessage.TheVariants as reply;
    ghost use Rattle.lk_messages.specs.Grammar.{Spells};
    ghost use Rattle.lk_state.specs.Sessions.{session_of, is_new};
    ghost use Rattle.lk_script.specs.Replies.{with_request};
    ghost use Rattle.lk_script.specs.TableMode.{Replies, Prints};
    ghost use Rattle.lk_script_lines.specs.HexLines.{SpellsBytes};
    ghost use Rattle.lk_script.specs.TableRuns.{HasExecuted, executed_of};

    /// Returns the lock table of a cluster before any request.
    pub fn new(alloc: Global, cluster: u64) -> TableRun
        ensures cluster { result.cluster ≡ cluster }
        ensures empty { HasExecuted [] result }
        ensures executed { executed_of result ≡ 0 }
    {
        let genesis = Genesis::of(cluster, 1, &[Member::default()]).unwrap();
        let whole = Whole::begin(alloc, &genesis);
        TableRun { cluster, whole }
    }

    // Executes a new request, and returns its answer.
    fn run(&mut self, request: &Request) -> Result<Answer, NoMemory>
        requires room { executed_of self.old < max_count }
        requires table { is_for_table request.now.op ≡ true }
        requires new { is_new (session_of request.now.client self.old.whole.sessions) request.now.number ≡ true }
        ensures ok { IfOk result (λ a. (L : List CommandValue) → HasExecuted L self.old
            → Replies (with_request L request.now) request.now
            (reply.Answer (record { client = request.now.client; number = request.now.number; answer = a }))
            × HasExecuted (with_request L request.now) self.new) }
        ensures cluster { self.new.cluster ≡ self.old.cluster }
        ensures paces { executed_of self.new ≤ executed_of self.old + 1 }
    {
        request.facts();
        let ran = self.whole.run(&Command::Request(request.copy()))?;
        Ok(ran.answer.unwrap())
    }

    /// Returns the reply to a request for the lock table: that of the client's session if its number is not new, or
    /// else after executing it.
    pub fn reply(&mut self, request: &Request) -> Result<NodeMessage, NoMemory>
        requires room { executed_of self.old < max_count }
        requires table { is_for_table request.now.op ≡ true }
        ensures ok { IfOk result (λ m. (L : List CommandValue) → HasExecuted L self.old
            → Replies (with_request L request.now) request.now m × HasExecuted (with_request L request.now) self.new) }
        ensures cluster { self.new.cluster ≡ self.old.cluster }
        ensures paces { executed_of self.new ≤ executed_of self.old + 1 }
    {
        let (client, number) = (request.client, request.number);
        let seen = self.whole.seen(client, number);
        if let Some(reply) = kept_reply(client, number, seen) {
            return Ok(reply);
        }
        let answer = self.run(request)?;
        Ok(NodeMessage::Answer(Answered {
            client,
            number,
            answer,
        }))
    }

    // Replaces the text with the reply to the request, in hex, or with `not here` if it is to join or leave.
    fn print_request(&mut self, request: &Request, buffers: &mut Buffers) -> Result<(), NoMemory>
        requires { executed_of self.old < max_count }
        ensures ok { OnOk result
            ((bytes : List ℕ) (L : List CommandValue)
            → Spells (from_client self.old.cluster request.now) bytes → HasExecuted L self.old
            → (after : List CommandValue) × Prints self.old.cluster L bytes buffers.new.text.items after
            × HasExecuted after self.new) }
        ensures cluster { self.new.cluster ≡ self.old.cluster }
        ensures paces { executed_of self.new ≤ executed_of self.old + 1 }
    {
        if !is_for_table(&request.op) {
            return buffers.print("not here");
        }
        let reply = self.reply(request)?;
        let message = Message {
            cluster: self.cluster,
            content: Content::Node(NodeNo::default(), reply),
        };
        buffers.print_message(&message)
    }

    // Replaces the text with the result of the datagram in `buffers.bytes`: the reply in hex, `not here`, `not a
    // request`, or `bad` if it does not parse.
    fn print(&mut self, buffers: &mut Buffers) -> Result<(), NoMemory>
        requires { executed_of self.old < max_count }
        ensures ok { OnOk result ((L : List CommandValue) → HasExecuted L self.old
            → (after : List CommandValue)
            × Prints self.old.cluster L buffers.old.bytes.items buffers.new.text.items after
            × HasExecuted after self.new) }
        ensures cluster { self.new.cluster ≡ self.old.cluster }
        ensures paces { executed_of self.new ≤ executed_of self.old + 1 }
    {
        match read_request(self.cluster, &buffers.bytes) {
            Ok(Some(request)) => self.print_request(&request, buffers),
            Ok(None) => buffers.print("not a request"),
            Err(Bad) => buffers.print("bad"),
        }
    }

    /// Executes a line of table mode, a datagram in hex, and replaces the text with what it prints.
    pub fn print_line(&mut self, line: &[u8], buffers: &mut Buffers) -> Result<(), LineFault>
        requires { executed_of self.old < max_count }
        ensures ok { OnOk result ((L : List CommandValue) → HasExecuted L self.old
            → (bytes : List ℕ) × (printed : List ℕ) × (after : List CommandValue) × SpellsBytes line.now bytes
            × Prints self.old.cluster L bytes printed after
            × (buffers.new.text.items ≡ printed ++ 10 ∷ []) × HasExecuted after self.new) }
        ensures not_understood { IsErrOf result LineFault.NotUnderstood → (bytes : List ℕ)
            → SpellsBytes line.now bytes → ⊥ }
        ensures cluster { self.new.cluster ≡ self.old.cluster }
        ensures paces { executed_of self.new ≤ executed_of self.old + 1 }
    {
        read_bytes(line, &mut buffers.bytes)?;
        self.print(buffers)?;
        buffers.text.push(b'\n')?;
        Ok(())
    }
}
