// Boards and positions as bytes, and the one neighbour window.
#![tactic(auto)]

pub mod cells;
pub mod window;
