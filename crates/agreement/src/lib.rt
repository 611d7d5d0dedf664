// The three solves answer alike: demand 3 in specs/Demand, proved in proofs/Agree. No code.
#![tactic(auto)]
