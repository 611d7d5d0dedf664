// Theory: what is written is read, what is read is written, and another right side looks at the lists alone.
#![tactic(auto)]
