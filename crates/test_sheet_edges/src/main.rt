// The edges of document 01's rules 1 to 13 and document 02's 26 to 28: a line for each sheet, with the number that the check gives it, 0
// for an accepted one.
// The lines use the documents' words, "place" and "condition", and the file `stdout` has the numbers that the documents ask for.
#![tactic(auto)]

mod amounts;
mod constraints;
mod header;
mod order;
mod readings;
mod rising;
mod show;
mod ticks;

use std::io;

fn main(rt: HostRuntime) -> io::Result<()> {
    header::report(&rt)?;
    amounts::report(&rt)?;
    constraints::report(&rt)?;
    ticks::report(&rt)?;
    order::report(&rt)?;
    rising::report(&rt)?;
    readings::report(&rt)
}
