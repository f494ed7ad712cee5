// The mathematics of the judge: layouts, what fits, the solver of demand 3, equations, and demand 3 of the passes over any rules.
// Definitions in specs/, theorems in proofs/, and no code.
#![tactic(auto)]
