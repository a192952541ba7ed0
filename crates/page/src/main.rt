// The page program: a sheet on standard input, its page and prices on standard output.
#![tactic(auto)]

use std::io;

fn main(rt: HostRuntime) -> io::Result<()> {
    page_job::run(&rt)
}
