//! Which kind of datagram bytes begin as, and single bytes of one.

ghost use Rattle.std.specs.Prelude.{◌≡◌, get_or};
ghost use Rattle.lk_address_book.specs.Admins.{is_request};
ghost use Rattle.lk_address_book.specs.Filters.{is_beside_protocol};

/// Returns whether a datagram begins with the letters LP, as probes and reports do, or LW, as watches and notices do:
/// no replica gets it.
pub fn is_beside_protocol(datagram: &[u8]) -> bool
    ensures { result ≡ is_beside_protocol datagram.now }
{
    matches!(datagram, [b'L', b'P' | b'W', ..])
}

/// Returns whether a datagram begins as a client's request does: with the letters LK, and of its kind.
pub fn is_request(datagram: &[u8]) -> bool
    ensures { result ≡ is_request datagram.now }
{
    matches!(datagram, [b'L', b'K', _, 9, ..])
}

/// Returns the byte at an offset. A byte that is not there counts as 0.
pub fn byte_at(bytes: &[u8], offset: usize) -> u8
    ensures { result ≡ get_or bytes.now offset 0 }
{
    bytes.get(offset).copied().unwrap_or(0)
}
