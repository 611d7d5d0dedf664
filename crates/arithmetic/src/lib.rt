// The arithmetic of the elimination: definitions in specs/Arith and specs/Again, laws beside them and in proofs/. No code.
#![tactic(auto)]
