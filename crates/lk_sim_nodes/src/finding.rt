// Finds a node among those of a world.
ghost use Rattle.std.specs.Prelude.{◌≡◌, None, IfOk, IfErr, IfSome};
ghost use Rattle.lk_sim_nodes.specs.Refusals.{NoneUp, NoRestart};
ghost use Rattle.lk_sim_nodes.specs.SimNodes.{IsSeatOf, IsUpAt, IsDownAt, HasNo};

use crate::refused::Refused;
use crate::sim_node::{RunState, SimNode};
use lk_types::NodeNo;

/// Returns the place of the node of this number in `sim_nodes`, or `None` if it was never started.
pub fn find<R: Drop>(sim_nodes: &[SimNode<R>], number: NodeNo) -> Option<usize>
    ensures some { IfSome result (λ i. IsSeatOf sim_nodes.now i number) }
    ensures none { result ≡ None → HasNo sim_nodes.now number }
{
    for i in 0..sim_nodes.len() {
        if sim_nodes[i].number == number {
            return Some(i);
        }
    }
    None
}

/// Returns the place of the node of this number, which must be up: else `NoSuchNode` or `NotUp`.
pub fn find_up<R: Drop>(sim_nodes: &[SimNode<R>], number: NodeNo) -> Result<usize, Refused>
    ensures ok { IfOk result (λ i. IsUpAt sim_nodes.now i number) }
    ensures err { IfErr result (λ e. NoneUp sim_nodes.now number e) }
{
    let Some(i) = find(sim_nodes, number) else {
        return Err(Refused::NoSuchNode);
    };
    match &sim_nodes[i].run_state {
        RunState::Up(_) => Ok(i),
        RunState::Down(_) => Err(Refused::NotUp),
    }
}

/// Returns the place of the node of this number, which must be down: else `NoSuchNode` or `AlreadyUp`.
pub fn find_down<R: Drop>(sim_nodes: &[SimNode<R>], number: NodeNo) -> Result<usize, Refused>
    ensures ok { IfOk result (λ i. IsDownAt sim_nodes.now i number) }
    ensures err { IfErr result (λ e. NoRestart sim_nodes.now number e) }
{
    let Some(i) = find(sim_nodes, number) else {
        return Err(Refused::NoSuchNode);
    };
    match &sim_nodes[i].run_state {
        RunState::Up(_) => Err(Refused::AlreadyUp),
        RunState::Down(_) => Ok(i),
    }
}
