// The lines of the sheet: what stands in which columns, counted from 1.
ghost use Rattle.std.specs.Prelude.{◌≡◌, cond, [], ◌∷◌, ◌+◌, ◌-◌, ◌%◌, ◌≤◌, eqb, length, take, get_or};
ghost use Rattle.wire.specs.Text.{digit_of, space};
ghost use Rattle.sheet.specs.Columns.{width, entry, columns, numeral, letters, state_names, interval_names, blank_line, in_columns, filled_in, line_for, header_of};

use wire::{REPORT_LENGTH, be16, byte_at, digit};

// The bytes of a line: 64 columns and a newline.
pub const LINE: usize = 65;

fn blank_line() -> [u8; LINE]
    ensures { result ≡ blank_line }
{
    let mut line = [b' '; LINE];
    line[LINE - 1] = b'\n';
    line
}

// Puts a text into the columns that it fills.
fn put_text(line: [u8; LINE], first: usize, last: usize, text: &[u8]) -> [u8; LINE]
    requires { (1 ≤ first) × (last ≤ width) × (first + length text.now ≡ last + 1) }
    ensures { result ≡ in_columns first last text.now line }
{
    let mut line = line;
    line[first - 1..last].copy_from_slice(text);
    line
}

// The sign for the last digit of what is left of a number.
fn sign_of(rest: u32, base: u32, fill: u8) -> u8
    requires { (1 ≤ base) × (base ≤ 16) }
    ensures { result ≡ cond (eqb rest 0) fill (digit_of (rest % base)) }
{
    if rest == 0 {
        return fill;
    }
    digit((rest % base) as u8)
}

// Puts a number to a base into columns, its last digit into the last, and the fill before its first.
fn put_number(
    line: [u8; LINE],
    first: usize,
    last: usize,
    n: u32,
    base: u32,
    fill: u8,
) -> [u8; LINE]
    requires { (1 ≤ first) × (first ≤ last) × (last ≤ width) × (1 ≤ base) × (base ≤ 16) }
    ensures { result ≡ in_columns first last (numeral base fill (last + 1 - first) n) line }
{
    let mut line = line;
    line[last - 1] = digit((n % base) as u8);
    let mut rest = n / base;
    for at in (first - 1..last - 1).rev() {
        line[at] = sign_of(rest, base, fill);
        rest /= base;
    }
    line
}

// The letters of the states, by 01's numbers.
const STATES: [[u8; 2]; 5] = [*b"DE", *b"CS", *b"HS", *b"DA", *b"FA"];

// The letters of the intervals, by 01's numbers, blank for none.
const INTERVALS: [[u8; 2]; 9] = [
    *b"  ", *b"A ", *b"Ab", *b"Bf", *b"B ", *b"C ", *b"D ", *b"E ", *b"F ",
];

// The letters of a number, blank where it has none: a report's byte may be any number, so it is no enum.
fn letters_in(names: &[[u8; 2]], n: u8) -> [u8; 2]
    ensures { result ≡ get_or names.now n (space ∷ space ∷ []) }
{
    names.get(n as usize).copied().unwrap_or(*b"  ")
}

fn state_letters(state: u8) -> [u8; 2]
    ensures { result ≡ letters state_names 2 state }
{
    letters_in(&STATES, state)
}

fn interval_letters(interval: u8) -> [u8; 2]
    ensures { result ≡ letters interval_names 2 interval }
{
    letters_in(&INTERVALS, interval)
}

// The line of an accepted command up to its permitted speed.
fn line_begun(number: u32, report: [u8; REPORT_LENGTH]) -> [u8; LINE]
    ensures { result ≡ filled_in (entry number report) (take 4 columns) blank_line }
{
    let line = put_number(blank_line(), 1, 10, number, 10, b' ');
    let line = put_text(line, 12, 13, &state_letters(byte_at(&report, 0)));
    let line = put_number(line, 15, 15, byte_at(&report, 1) as u32, 10, b' ');
    put_number(line, 17, 19, be16(&report, 4) as u32, 10, b' ')
}

// The line of an accepted command.
pub fn line_for(number: u32, report: [u8; REPORT_LENGTH]) -> [u8; LINE]
    ensures { result ≡ line_for (entry number report) }
{
    let line = line_begun(number, report);
    let line = put_number(line, 21, 23, be16(&report, 6) as u32, 10, b' ');
    let line = put_number(line, 25, 27, byte_at(&report, 8) as u32, 10, b' ');
    let line = put_text(line, 29, 30, &interval_letters(byte_at(&report, 9)));
    put_number(line, 32, 35, be16(&report, 2) as u32, 16, b'0')
}

// The first line of a page.
pub fn header_of(page: u16) -> [u8; LINE]
    ensures { result ≡ header_of page }
{
    let line = put_text(blank_line(), 1, 10, b"TRIP SHEET");
    put_number(line, 61, 64, page as u32, 10, b' ')
}
