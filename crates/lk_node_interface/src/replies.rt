// Which reply of an acceptor grants, the reply to a client's request that is not new, and the session that a command
// leaves.
ghost use Rattle.std.specs.Prelude.{◌≡◌, ◌≤◌};
ghost use Rattle.lk_node_interface.specs.Grants.{is_granted};
ghost use Rattle.lk_node_interface.specs.KeptReplies.{kept_reply, session_reply, session_by};

use lk_state::{Seen, Session};
use lk_types::{Answer, ClientNo, Command, RequestNumber};
use lk_wire::{Answered, NodeMessage, Passed};

/// Whether a reply of an acceptor grants what was asked: it is no Nack.
pub fn is_granted(reply: &NodeMessage) -> bool
    ensures { result ≡ is_granted reply.now }
{
    !matches!(reply, NodeMessage::Nack(_))
}

/// Returns the reply to a client's request of this number, given how it compares with the client's last one: an Answer
/// with the stored answer if it is the last one, Passed if it is smaller, and `None` if it is new.
pub fn kept_reply(client: ClientNo, number: RequestNumber, seen: Seen) -> Option<NodeMessage>
    ensures { result ≡ kept_reply client number seen }
{
    match seen {
        Seen::New => None,
        Seen::Same(answer) => Some(NodeMessage::Answer(Answered {
            client,
            number,
            answer,
        })),
        Seen::Passed(last) => {
            let passed = Passed::of(client, number, last)?;
            Some(NodeMessage::Passed(passed))
        }
    }
}

/// Returns the reply to the client's waiting request of this number, now that the session's request is executed: its
/// Answer if it is that request, or Passed if its number is smaller.
pub fn session_reply(session: Session, number: RequestNumber) -> NodeMessage
    requires { number ≤ session.number }
    ensures { result ≡ session_reply session number }
{
    let client = session.client;
    let seen = Seen::of(Some(session), number);
    kept_reply(client, number, seen).unwrap()
}

/// Returns the session that an executed command leaves; `None` for a no-op, and without an answer: the request did not
/// take effect.
pub fn session_of(command: &Command, answer: Option<Answer>) -> Option<Session>
    ensures { result ≡ session_by command.now answer }
{
    match command {
        Command::Request(request) => Some(Session::of(request, answer?)),
        Command::Noop => None,
    }
}
