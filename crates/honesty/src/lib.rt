// Demand 3 of document 01, as a theorem about the gain call and the downward test (specs/Honesty.antt, proofs/Honesty.antt).
#![tactic(auto)]
