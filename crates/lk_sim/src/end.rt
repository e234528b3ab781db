use lk_sim_nodes::Refused;

/// How a run of events ended: how many were done, and why the next one was rejected, if one was.
#[derive(Clone, Copy)]
pub struct RunEnd {
    pub done: usize,
    pub refused: Option<Refused>,
}
