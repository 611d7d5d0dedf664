// Theory: what a solve leaves can be written, and what is read of it solves as it does.
#![tactic(auto)]
