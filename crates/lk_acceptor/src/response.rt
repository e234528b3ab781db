use lk_messages::NodeMessage;
use lk_types::Entry;

/// The response to a Prepare or an Accept.
#[derive(Drop)]
pub struct Response {
    /// A Promise, an Accepted or a Nack, to the node that asked.
    pub reply: NodeMessage,
    /// The entry to write and sync before the reply is sent. `None` if nothing has changed: earlier entries then cover
    /// the reply.
    pub entry: Option<Entry>,
}
