// The boundary graphs as one table's property, further vectors, and witnesses for the premises of the agreement. No code.
#![tactic(auto)]
