// The best page of document 01: what it is (specs/Best.antt), and that there is exactly one (proofs/).
#![tactic(auto)]

use sheet::Page;

// What trying pages has found so far: the page, and the total that another page must have to be better: one more than its own.
#[derive(Clone, Copy, Debug, PartialEq, Eq)]
pub struct Answer {
    pub page: Page,
    pub need: u64,
}
