// The small boards of SPECIFICATION 12: one table in specs/, one theorem in proofs/, and no code.
#![tactic(auto)]
