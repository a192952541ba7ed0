// The edges of document 01's calls and of document 02's owner part, floors, one sheet for one round, top-of-page terms, named rivals and sharing, on
// sheets of both versions, and the rounds worked by hand: a script comes in, and goes out again with the answer of each call. The script may also ask
// what the greedy page can lose.
//
// The file `stdin` is the script. A line whose first word is one of `sheets` writes on the sheet in hand, "floors" writes the list of floors in
// hand, a line that begins with words of `calls` or with "terms", "rivals" or "share" makes a call, and any other is there for the reader. Of the rest of
// a line only its numbers count, so that a line can be a sentence in the documents' words. The file `stdout` has the answers that the documents ask for.
#![tactic(auto)]

ghost use Rattle.std.specs.Io.{ReadsAtMost};

use std::io;
use std::io::Read;
use test_edge_sheets::{build, line};

mod answers;
mod calls;
mod listed_bytes;
mod listed_floors;
mod rivals;
mod script;
mod sheets;
mod terms;

// Room for the script.
const SCRIPT_ROOM: usize = 131072;

// How much of each buffer is lent: bytes of the sheet in hand and of the truth sheet, and floors.
#[derive(Clone, Copy)]
struct Lengths {
    sheet: usize,
    truth: usize,
    floors: usize,
}

// The answer where the line is a call with floors, and whether these are as they were.
fn call_with_floors(
    rt: &impl Print,
    words: &[u8],
    sheet: &[u8],
    floors: &[u32; listed_floors::ROOM],
    truth: &[u8],
    length: usize,
) -> io::Result<()> {
    let kept = *floors;
    let list = listed_floors::front(floors, length);
    calls::answer_with_floors(rt, words, sheet, list, truth)?;
    answers::kept(rt, b"; floors", *floors == kept)
}

// The answer where the line is a call.
fn call(
    rt: &impl Print,
    words: &[u8],
    sheet: &[u8],
    floors: &[u32; listed_floors::ROOM],
    truth: &[u8],
    length: usize,
) -> io::Result<()> {
    if words.starts_with(b"with floors") {
        return call_with_floors(rt, words, sheet, floors, truth, length);
    }
    if words.starts_with(b"one sheet") {
        return calls::one_sheet(rt, words, sheet);
    }
    if words.starts_with(b"loss") {
        return calls::loss(rt, sheet);
    }
    if words.starts_with(b"terms") {
        return terms::answer(rt, words);
    }
    if words.starts_with(b"rivals") {
        return rivals::named(rt, words);
    }
    if words.starts_with(b"share") {
        return rivals::share(rt, words);
    }
    calls::answer(rt, words, sheet, truth)
}

// The line goes out again, with the answer where it is a call. "truth" makes the sheet in hand the truth sheet, and "floors F F .." makes
// these the floors in hand.
fn step(
    rt: &impl Print,
    words: &[u8],
    sheet: &mut [u8; build::ROOM],
    truth: &mut [u8; build::ROOM],
    floors: &mut [u32; listed_floors::ROOM],
    lengths: Lengths,
) -> io::Result<Lengths> {
    line::text(rt, words)?;
    if words.starts_with(b"truth") {
        *truth = *sheet;
        line::text(rt, b"\n")?;
        return Ok(Lengths {
            truth: lengths.sheet,
            ..lengths
        });
    }
    if words.starts_with(b"floors") {
        let count = listed_floors::write(words, floors);
        line::text(rt, b"\n")?;
        return Ok(Lengths {
            floors: count,
            ..lengths
        });
    }
    let length = sheets::write(words, sheet, lengths.sheet);
    call(
        rt,
        words,
        line::front(sheet, length),
        floors,
        line::front(truth, lengths.truth),
        lengths.floors,
    )?;
    line::text(rt, b"\n")?;
    Ok(Lengths {
        sheet: length,
        ..lengths
    })
}

// Each line in turn.
fn run(rt: &impl Print, text: &[u8]) -> io::Result<()> {
    let mut sheet = [0u8; build::ROOM];
    let mut truth = [0u8; build::ROOM];
    let mut floors = [0u32; listed_floors::ROOM];
    let mut lengths = Lengths {
        sheet: 0,
        truth: 0,
        floors: 0,
    };
    for line in text.split_inclusive(|letter| *letter == b'\n') {
        let words = line.strip_suffix(b"\n").unwrap_or(line);
        lengths = step(rt, words, &mut sheet, &mut truth, &mut floors, lengths)?;
    }
    Ok(())
}

// The input to its end, or until the room is full: how many bytes of it stand at the front of the room.
fn read_script<R: Read>(input: &mut R, room: &mut [u8]) -> io::Result<usize>
    ensures { ReadsAtMost result room.new }
{
    let mut at = 0;
    while at < room.len() {
        let more = input.read(&mut room[at..])?;
        if more == 0 {
            return Ok(at);
        }
        at += more;
    }
    Ok(at)
}

fn main(rt: HostRuntime) -> io::Result<()> {
    let mut space = [0u8; SCRIPT_ROOM];
    let length = read_script(&mut rt.reader(), &mut space)?;
    run(&rt, &space[..length])
}
