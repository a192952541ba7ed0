// The page program on a sheet as large as a sheet can be, 4,429 bytes: 64 bidders, 16 slots, 1,024 constraints, and a tick. Nobody that is
// left may stand at slot 3, and nobody at slot 9 while bidder 44 has slot 1, which it has by the last constraint of the sheet.
#![tactic(auto)]

use std::io;

fn main(rt: HostRuntime) -> io::Result<()> {
    page_job::run(&rt)
}
