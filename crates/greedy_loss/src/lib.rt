// Request S-8 of document 02: how far the greedy page can be below any other, as a theorem about rounds whose lists all come from the profile "above named rivals"
// (proofs/FarBelowLaws.antt).
#![tactic(auto)]
