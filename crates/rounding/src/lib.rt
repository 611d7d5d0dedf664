// How far a rounded sum, difference or product is from the exact one, over whole numbers: specs/Values, proved in proofs/. No code.
#![tactic(auto)]
