// The page program on round G of document 01, where slot 1 stays empty and slot 2 is still tried.
#![tactic(auto)]

use std::io;

fn main(rt: HostRuntime) -> io::Result<()> {
    page_job::run(&rt)
}
