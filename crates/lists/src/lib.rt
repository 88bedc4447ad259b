// Lists given by a function of the index: definitions in specs/, laws in proofs/. No functions.
#![tactic(auto)]
