// The text of a played result in a lent buffer, byte for byte as the page program prints it.
//
// No function here reads or writes a file: the program lends the buffer, and prints as many bytes as it is told.
#![tactic(auto)]

ghost use Rattle.std.specs.Prelude.{◌+◌, ◌*◌, ◌≤◌, length};
ghost use Rattle.page_lines.specs.Decimal.{decimal};
ghost use Rattle.page_lines.specs.Lines.{field, line, refused_line, result_lines};
ghost use Rattle.page_lines.specs.Put.{Put, Written};

// The bytes of the longest line: a slot of 2 digits, a bidder of 3, a price of 10, two spaces and a newline.
pub const LONGEST_LINE: usize = 18;

// The number's decimal digits at an offset, and the offset after them.
// Kept: the kit's `itoa` writes them too, but then the program would rest on that crate's statements beside the library's (README, "What is assumed").
fn put_decimal(text: &mut [u8], at: usize, value: u32) -> usize
    requires { at + length (decimal value) ≤ length text.old }
    ensures { Put text.old at (decimal value) result text.new }
{
    if value < 10 {
        text[at] = 48 + value as u8;
        return at + 1;
    }
    let last = put_decimal(text, at, value / 10);
    text[last] = 48 + (value % 10) as u8;
    last + 1
}

// The number in decimal and the byte that ends it, at an offset, and the offset after them.
fn put_field(text: &mut [u8], at: usize, value: u32, end: u8) -> usize
    requires { at + length (field value end) ≤ length text.old }
    ensures { Put text.old at (field value end) result text.new }
{
    let after = put_decimal(text, at, value);
    text[after] = end;
    after + 1
}

// A slot's line at an offset, and the offset after it.
fn put_line(text: &mut [u8], at: usize, slot: u32, bidder: u32, price: u32) -> usize
    requires { at + length (line slot bidder price) ≤ length text.old }
    ensures { Put text.old at (line slot bidder price) result text.new }
{
    let after_slot = put_field(text, at, slot, b' ');
    let after_bidder = put_field(text, after_slot, bidder, b' ');
    put_field(text, after_bidder, price, b'\n')
}

// The lines of a played result's first slots at the front of the buffer, and how many bytes they are.
pub fn slot_lines(res: &[u8], slots: usize, text: &mut [u8]) -> usize
    requires { (slots ≤ 16) × (5 * slots ≤ length res.now) × (18 * slots ≤ length text.old) }
    ensures { Written text.old (result_lines res.now slots) result text.new }
{
    let mut at = 0;
    for k in 0..slots {
        let bidder = u32::from(res[5 * k]);
        let price = basis::word32(res, 5 * k + 1);
        at = put_line(text, at, (k + 1) as u32, bidder, price);
    }
    at
}

// The line of a refused sheet at the front of the buffer, and how many bytes it is.
pub fn refused_line(number: u32, text: &mut [u8]) -> usize
    requires { 19 ≤ length text.old }
    ensures { Written text.old (refused_line number) result text.new }
{
    text[..8].copy_from_slice(b"refused ");
    put_field(text, 8, number, b'\n')
}
