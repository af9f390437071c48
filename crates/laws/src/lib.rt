// What is true of lists, groups, tests and loops in general, for every crate above: no code, proofs alone.
#![tactic(auto)]
