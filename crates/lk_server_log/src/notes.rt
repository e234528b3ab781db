// A node's notes as log lines.

use lk_node_interface::Note;
use log::{Log, info};

/// Logs what a node counted and executed, one line each at level info: `counted POSITION`, `ran POSITION`. A line that
/// cannot be written is dropped.
pub fn log_notes<L: Log>(log: &L, notes: &[Note]) {
    for note in notes {
        match note {
            Note::Counted(_, position, _, _) => info!(log; "counted {}", position.get()),
            Note::Ran(_, position, _) => info!(log; "ran {}", position.get()),
            Note::Asked(_) | Note::Answered(_, _, _, _) | Note::Told(_, _, _, _) => {}
        }
    }
}
