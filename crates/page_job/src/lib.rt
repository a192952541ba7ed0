// The page program's whole job, once for every program that runs it: a sheet's bytes in, the text that it prints out.
//
// Where standard input cannot be read, or the text cannot be written, a sentence on standard error says so.
#![tactic(auto)]

ghost use Rattle.std.specs.Io.{ReadsAtMost};
ghost use Rattle.std.specs.Prelude.{◌≤◌, length, IfOk};
ghost use Rattle.page_lines.specs.Put.{Written};
ghost use Rattle.page_job.specs.PageText.{page_text};
ghost use Rattle.page_job.specs.Input.{TextOfInput};

use sheet::{MAX_BIDDERS, MAX_CONSTRAINTS, MAX_SLOTS};
use std::io;
use std::io::{ErrorKind, Read};

// One byte more than the longest sheet, one of version 2: 13 + 4 × (16 + 64 + 1,024). A longer input is refused by its first bytes as it
// is by all of them, so what follows them is left unread.
const SHEET_ROOM: usize = 13 + 4 * (MAX_SLOTS + MAX_BIDDERS + MAX_CONSTRAINTS) + 1;
// "5 bytes a place".
const RESULT_ROOM: usize = 5 * MAX_SLOTS;
// The longest line for each slot.
const TEXT_ROOM: usize = page_lines::LONGEST_LINE * MAX_SLOTS;

// The text of the sheet's page, or of its refusal, at the front of the buffer, and how many bytes it is.
pub fn page_text(sheet: &[u8], text: &mut [u8; TEXT_ROOM]) -> usize
    ensures { Written text.old (page_text sheet.now) result text.new }
{
    let mut result = [0u8; RESULT_ROOM];
    match play::play(sheet, &mut result) {
        Ok(()) => page_lines::slot_lines(&result, sheet[6] as usize, text),
        Err(refusal) => page_lines::refused_line(refusal.number(), text),
    }
}

// The text of a whole input, of which the room holds the first `count` bytes, and how many bytes that text is. The input may go on
// where the room is full: the room is large enough that its text is the whole input's.
// Kept: `TextOfInput` speaks of the room and of the count, so both are handed over, and not the bytes alone.
fn input_text(room: &[u8; SHEET_ROOM], count: usize, text: &mut [u8; TEXT_ROOM]) -> usize
    requires { count ≤ length room.now }
    ensures { TextOfInput room.now count text.old result text.new }
{
    page_text(&room[..count], text)
}

// One read, tried again where a signal interrupts it.
fn read_some<R: Read>(input: &mut R, rest: &mut [u8]) -> io::Result<usize>
    ensures { ReadsAtMost result rest.new }
{
    for _ in 0..u64::MAX {
        match input.read(rest) {
            Err(error) if error.kind() == ErrorKind::Interrupted => {}
            other => return other,
        }
    }
    input.read(rest)
}

// The input to its end, or until the room is full; how many bytes then stand at the front of the room.
fn read_sheet<R: Read>(input: &mut R, room: &mut [u8]) -> io::Result<usize>
    ensures { IfOk result (λ count. count ≤ length room.new) }
{
    let mut at = 0;
    while at < room.len() {
        match read_some(input, &mut room[at..])? {
            0 => break,
            more => at += more,
        }
    }
    Ok(at)
}

// The sheet on standard input, and its text on standard output.
pub fn run(rt: &(impl io::Input + Print + Eprint)) -> io::Result<()> {
    let mut room = [0u8; SHEET_ROOM];
    let Ok(count) = read_sheet(&mut rt.reader(), &mut room) else {
        return rt.eprint("page: cannot read the sheet\n");
    };
    let mut text = [0u8; TEXT_ROOM];
    let length = input_text(&room, count, &mut text);
    if rt.write_all(&text[..length]).is_err() {
        return rt.eprint("page: cannot write the page\n");
    }
    Ok(())
}
