// Random sheets, floors, and numbers of calls that take no sheet, from a fixed seed, for programs that hold the library against another engine. They are made
// by document 01's table and document 02's words alone: nothing here comes from the crates under test.
#![tactic(auto)]

pub mod calls;
pub mod floor_lists;
pub mod lists;
pub mod number;
pub mod others;
pub mod parts;
pub mod rounds;
