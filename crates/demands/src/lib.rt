// The three demands on the engine, as three theorems about the calls that programs link, and what the requests of document 02 that have landed add
// (specs/Demands.antt, proofs/Demands.antt).
#![tactic(auto)]
