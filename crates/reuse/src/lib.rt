// Refactor and another right side over what earlier calls left: specs/Reuse, proved in proofs/. No code.
#![tactic(auto)]
