//! Message authentication: seals datagrams with HMAC tags, which show that someone with the key made them, and for
//! whom; and the keys and key files for that.
#![tactic(auto)]

mod asker;
mod frame;
mod key;
mod key_file;
mod keys;
pub mod laws;
mod mac;
mod masters;
mod seals;

pub use asker::AskerSeals;
pub use frame::{DIGEST, OVERHEAD, Purpose, Scope, open, seal};
pub use key::{KEY, Key};
pub use keys::Keys;
pub use mac::{TAG, tag};
pub use masters::Masters;
pub use seals::Seals;
