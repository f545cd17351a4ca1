// The tree of a finished search: definitions in specs/, laws about them in proofs/, and no code.

#![tactic(auto)]
