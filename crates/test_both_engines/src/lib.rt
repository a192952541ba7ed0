// All of the library's calls that take a sheet but one, ten, held against the second engine's, each on the same bytes: the numbers that they return, their
// answers, and every byte of the buffers that were lent or stand beside what was lent. The program `test_trials` has the rounds. What the greedy page can lose has
// trials of its own, `test_loss_trials`, and a second engine of its own, in `test_rival_sheets`.
#![tactic(auto)]

mod alike;
pub mod answers;
pub mod bytes;
mod calls;
pub mod counts;
mod floored;
pub mod one_sheet;
pub mod owners;
pub mod pages;
