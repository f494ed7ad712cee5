// Words and laws about tests, lists and arrays that know nothing of the game: definitions in specs/, laws in proofs/, and no code.
#![tactic(auto)]
