// A board that shows its mine total: the mine counts that each block may have, the sums of them, and which cells some layout of the total has as a mine or
// as free. Definitions in specs/, theorems in proofs/, and the code that joins the counts of blocks.
#![tactic(auto)]

pub mod joining;
