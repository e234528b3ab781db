use lk_types::{Answer, ClientNo, Command, Members, NodeNo, Position, Request, RequestNumber};

/// A line of the trace. A step returns only `Counted` and `Ran`; the others are noted where datagrams arrive and leave.
#[derive(Debug, Drop)]
pub enum Note {
    /// A client sent this request.
    Asked(Request),
    /// The node counted a majority of these members for the command at the position.
    Counted(NodeNo, Position, Members, Command),
    /// The node executed the command at the position.
    Ran(NodeNo, Position, Command),
    /// The node answered the client's request of this number.
    Answered(NodeNo, ClientNo, RequestNumber, Answer),
    /// The node replied Passed to the client's request of the first number: its last number, the second, is greater.
    Told(NodeNo, ClientNo, RequestNumber, RequestNumber),
}
