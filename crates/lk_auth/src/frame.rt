//! The frame of a datagram: 36 bytes including the tag, and then the datagram, unchanged.

ghost use Rattle.std.specs.Prelude.{◌≡◌, ◌↔◌, ℕ, List, IsTrue, length, Some, None, OnOk, IfSome, IsNone};
ghost use Rattle.lk_auth.specs.Frames.{label, head, front, seal_tag, sealed, opened};

use crate::key::Key;
use crate::mac::TAG;
use std::alloc::AllocError;

// The length of what precedes the tag.
const HEAD: usize = 4;

/// The bytes that a frame adds to its datagram.
pub const OVERHEAD: usize = HEAD + TAG;

// The length of the tagged bytes in front of a datagram.
const FRONT: usize = 60;

/// The length of a genesis' digest.
pub const DIGEST: usize = 32;

/// The purpose of a frame.
#[derive(Clone, Copy, PartialEq, Eq)]
pub enum Purpose {
    /// A node's message to a node.
    ToNode,
    /// A client's request.
    Asking,
    /// A node's reply to a client.
    Replying,
}

/// What a tag covers besides the datagram. `bound` is the node that receives a node's message, and otherwise the
/// client. Requests and replies have zeros as the genesis' digest, since a client knows only the cluster's number.
#[derive(Clone, Copy)]
pub struct Scope {
    pub purpose: Purpose,
    pub cluster: u64,
    pub genesis: [u8; DIGEST],
    pub bound: u32,
}

impl Purpose {
    // Returns the 16 letters that the tagged bytes begin with.
    fn label(self) -> [u8; 16]
        ensures { result ≡ label self }
    {
        match self {
            Purpose::ToNode => *b"locks v1 to node",
            Purpose::Asking => *b"locks v1 request",
            Purpose::Replying => *b"locks v1 replies",
        }
    }

    // Returns the first bytes of a frame: the letters LS, version 1 and the purpose.
    fn head(self) -> [u8; HEAD]
        ensures { result ≡ head self }
    {
        let purpose = match self {
            Purpose::ToNode => 1,
            Purpose::Asking => 2,
            Purpose::Replying => 3,
        };
        [b'L', b'S', 1, purpose]
    }
}

// Returns the bytes that the tag covers in front of the datagram: the label of the purpose, the cluster, the genesis
// and `bound`. They are not sent.
#[tactic(auto, unfolding(crate::specs::Frames::front))]
fn front_of(scope: &Scope) -> [u8; FRONT]
    ensures { result ≡ front scope.now }
{
    let mut bytes = [0; FRONT];
    bytes[56..].copy_from_slice(&scope.bound.to_be_bytes());
    bytes[24..56].copy_from_slice(&scope.genesis);
    bytes[16..24].copy_from_slice(&scope.cluster.to_be_bytes());
    bytes[..16].copy_from_slice(&scope.purpose.label());
    bytes
}

// Returns the tag of a datagram in this scope.
#[tactic(auto, unfolding(crate::specs::Frames::seal_tag))]
fn tag_in(key: &Key, scope: &Scope, datagram: &[u8]) -> [u8; TAG]
    ensures { result ≡ seal_tag key.now scope.now datagram.now }
{
    key.tag(&front_of(scope), datagram)
}

// Whether these are the first bytes of a frame.
fn has_head(bytes: &[u8], purpose: Purpose) -> bool
    ensures { IsTrue result ↔ (bytes.now ≡ head purpose) }
{
    let head = purpose.head();
    bytes == head.as_slice()
}

// Whether two tags are equal. It always reads every byte of both, so that its time does not reveal where they differ;
// no clause states its time.
fn is_same(left: &[u8; TAG], right: &[u8]) -> bool
    requires { length right.now ≡ 32 }
    ensures { IsTrue result ↔ (left.now ≡ right.now) }
{
    let mut difference = 0;
    'bytes: for i in 0..TAG {
        difference |= left[i] ^ right[i];
    }
    difference == 0
}

/// Seals a datagram: overwrites the buffer with its frame. After an error the buffer may hold a part of it.
#[tactic(auto, unfolding(crate::specs::Frames::sealed))]
pub fn seal(
    key: &Key,
    scope: &Scope,
    datagram: &[u8],
    frame: &mut Vec<u8>,
) -> Result<(), AllocError>
    ensures ok { OnOk result (frame.new.items ≡ sealed key.now scope.now datagram.now) }
{
    let tag = tag_in(key, scope, datagram);
    frame.clear();
    frame.extend_from_slice(&scope.purpose.head())?;
    frame.extend_from_slice(&tag)?;
    frame.extend_from_slice(datagram)?;
    Ok(())
}

/// Opens a frame: returns its datagram, or `None` if it is too short, has another purpose, or its tag is wrong.
pub fn open<'a>(key: &Key, scope: &Scope, frame: &'a [u8]) -> Option<&'a [u8]>
    ensures some { IfSome result (λ d. frame.now ≡ sealed key.now scope.now d.now) }
    ensures none { IsNone result → (d : List ℕ) → frame.now ≡ sealed key.now scope.now d → ⊥ }
    ensures opens { IfSome result (λ d. opened key.now scope.now frame.now ≡ Some d.now) }
    ensures opens_not { IsNone result → opened key.now scope.now frame.now ≡ None }
{
    if frame.len() < OVERHEAD {
        return None;
    }
    let datagram = &frame[OVERHEAD..];
    if !has_head(&frame[..HEAD], scope.purpose) {
        return None;
    }
    if !is_same(&tag_in(key, scope, datagram), &frame[HEAD..OVERHEAD]) {
        return None;
    }
    Some(datagram)
}
