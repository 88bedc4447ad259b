// Arithmetic of whole numbers: definitions in specs/, laws in proofs/. No functions.
#![tactic(auto)]
