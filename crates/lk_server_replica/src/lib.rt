//! A replica as a server runs it: it takes its input in groups, and shows what others see of it.
#![tactic(auto)]

pub mod feeding;
mod probed_state;
pub mod replica_status;
mod server_replica;
pub mod silence;
mod state_digests;
mod table_machine;
mod table_version;

pub use probed_state::ProbedState;
pub use server_replica::ServerReplica;
pub use table_machine::TableMachine;
pub use table_version::TableVersion;
