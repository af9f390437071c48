// Upstream's definitions and clauses, held beside ours: no code, proofs alone.
#![tactic(auto)]
