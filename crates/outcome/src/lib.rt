// What each public call answers and leaves in every buffer: definitions in specs/, laws in proofs/. No code.
#![tactic(auto)]
