// A lookup hands back T(k), or the lower row or column, after a structure call or a solve: specs/Handed, proved in proofs/Handed. No code.
#![tactic(auto)]
