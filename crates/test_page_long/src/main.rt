// The page program on an input longer than any sheet: the largest right sheet, and then the same bytes again.
#![tactic(auto)]

use std::io;

fn main(rt: HostRuntime) -> io::Result<()> {
    page_job::run(&rt)
}
