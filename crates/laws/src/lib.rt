// The shared mathematics: definitions in specs/, laws about them in proofs/, and no code.

#![tactic(auto)]
