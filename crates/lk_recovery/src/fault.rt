// Why a replica did not restart.
use lk_node_interface::ReplicaFault;

/// Why a replica did not restart, with the device, which the caller gets back.
#[derive(Drop)]
pub struct ReviveFault<D: Drop> {
    pub fault: ReplicaFault,
    pub device: D,
}
