// The theory of the fill: definitions in specs/Fill, laws beside it and in proofs/. No code.
#![tactic(auto)]
