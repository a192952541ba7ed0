// The page program on the largest sheet (`test_page_largest`) with one byte more, a newline: no page, but refusal 7.
#![tactic(auto)]

use std::io;

fn main(rt: HostRuntime) -> io::Result<()> {
    page_job::run(&rt)
}
