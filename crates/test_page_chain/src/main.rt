// The page program on round H of document 01, a chain of bidders who each want to stand above the next.
#![tactic(auto)]

use std::io;

fn main(rt: HostRuntime) -> io::Result<()> {
    page_job::run(&rt)
}
