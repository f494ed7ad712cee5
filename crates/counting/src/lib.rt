// How many mines the solutions of a block can have, and what those with an allowed count show of its groups: one walk over the groups, which goes on from equal
// states once.
#![tactic(auto)]

pub mod block;
pub mod states;
pub mod walking;
