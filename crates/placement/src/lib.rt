// Where the lists stand in an index store: definitions in specs/Placing, laws beside it and in proofs/. No code.
#![tactic(auto)]
