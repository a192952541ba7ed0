// The page program on a refused sheet: one line, and not a page.
#![tactic(auto)]

use std::io;

fn main(rt: HostRuntime) -> io::Result<()> {
    page_job::run(&rt)
}
