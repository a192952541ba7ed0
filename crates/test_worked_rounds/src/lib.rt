// The rounds that document 01 works by hand, as theorems about what the calls return and leave, with the answers of the eligibility step for some
// candidates, parts of single bidders, sheets written anew, top-of-page terms, named rivals and sharing, and what the quick page can lose (specs/Worked.antt,
// proofs/Rounds.antt).
#![tactic(auto)]
