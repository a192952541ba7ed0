// What the programs that print edges share: sheets built by the documents' words alone, and the parts of a printed line.
#![tactic(auto)]

pub mod build;
pub mod line;
