// The bytes of a node's message.
ghost use Rattle.std.specs.Prelude.{◌≡◌, IfOk};
ghost use Rattle.lk_messages.specs.Grammar.{spelling, IsMessage};
ghost use Rattle.lk_node_interface.specs.Saying.{saying};

use bytes::BytesMut;
use lk_store_format::Header;
use lk_types::NoMemory;
use lk_wire::{Content, Message, NodeMessage, write};
use std::alloc::Global;

/// Serialises a message of the header's node in the header's cluster. The bytes fit into a datagram.
pub fn encode(alloc: Global, header: &Header, message: NodeMessage) -> Result<Vec<u8>, NoMemory>
    ensures bytes { IfOk result (λ bytes. bytes.items ≡ spelling (saying header.now message)) }
    ensures fits { IfOk result (λ bytes. IsMessage (saying header.now message)) }
{
    let message = Message {
        cluster: header.genesis().cluster,
        content: Content::Node(header.node(), message),
    };
    let mut out = BytesMut::new(alloc);
    write(&message, &mut out)?;
    Ok(out.into_vec()?)
}
