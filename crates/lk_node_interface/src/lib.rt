//! The input and the output of a node's step: a tick, a nudge or a datagram (`Input`); entries, notes and envelopes
//! (`Outbox`); and the parts of a step that need no node: replies, recipients, serialised messages, and the counts of
//! ticks and rounds. What a replica adds is here too: its errors (`ReplicaFault`, and `Halted` and `SendFault`, two of
//! their causes), and the trait `Post`, which sends its envelopes.
#![tactic(auto)]

mod decision;
mod encoding;
mod envelope;
mod fault;
mod halted;
mod input;
mod note;
mod nudge_reason;
mod outbox;
mod post;
mod recipients;
mod replies;
mod seen_round;
mod tick_count;
mod to;

pub use decision::decided_message;
pub use encoding::encode;
pub use envelope::Envelope;
pub use fault::ReplicaFault;
pub use halted::Halted;
pub use input::Input;
pub use note::Note;
pub use nudge_reason::NudgeReason;
pub use outbox::Outbox;
pub use post::{Post, SendFault};
pub use recipients::{envelopes_to, index_of, others, window_nodes};
pub use replies::{is_granted, kept_reply, session_of, session_reply};
pub use seen_round::SeenRound;
pub use tick_count::TickCount;
pub use to::To;
