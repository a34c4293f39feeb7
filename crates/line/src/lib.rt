// The line that the stream program prints for an answer.
#![tactic(auto)]

ghost use Rattle.std.specs.Prelude.{◌≡◌, cond, ◌∷◌, [], ◌++◌, ◌+◌, ◌≤◌, length, take, drop};
ghost use Rattle.wire.specs.Bytes.{placed};
ghost use Rattle.wire.specs.Text.{space};
ghost use Rattle.rules.specs.Numbers.{is_answered};
ghost use Rattle.line.specs.Lines.{decimal_of, hex_of, report_width, line_width, line_in};

use rules::Answer;
use wire::{REPORT_LENGTH, digit};

// The bytes that a report takes in a line: a space, and two digits for each of its own.
const REPORT_WIDTH: usize = 1 + 2 * REPORT_LENGTH;

// The most bytes that a line has: three digits, a report, a line feed.
pub const WIDTH: usize = 3 + REPORT_WIDTH + 1;

// Writes a decimal number at the front, and tells how many digits it has.
fn put_number(bytes: &mut [u8], n: u8) -> usize
    requires { 3 ≤ length bytes.old }
    ensures short { result ≤ 3 }
    ensures written { take result bytes.new ≡ decimal_of n }
    ensures rest_stays { drop result bytes.new ≡ drop result bytes.old }
{
    if n < 10 {
        bytes[0] = digit(n);
        return 1;
    }
    if n < 100 {
        bytes[0] = digit(n / 10);
        bytes[1] = digit(n % 10);
        return 2;
    }
    bytes[0] = digit(n / 100);
    bytes[1] = digit(n / 10 % 10);
    bytes[2] = digit(n % 10);
    3
}

// Writes a space and a report from a place on.
fn put_report(bytes: &mut [u8], at: usize, report: [u8; REPORT_LENGTH])
    requires { at + report_width ≤ length bytes.old }
    ensures written { take (at + report_width) bytes.new ≡ take at bytes.old ++ (space ∷ hex_of report) }
    ensures rest_stays { drop (at + report_width) bytes.new ≡ drop (at + report_width) bytes.old }
{
    bytes[at] = b' ';
    let mut next = at + 1;
    for byte in report {
        bytes[next] = digit(byte / 16);
        bytes[next + 1] = digit(byte % 16);
        next += 2;
    }
}

// Writes the report, where the answer has one, and tells where the text ends.
fn put_answered(bytes: &mut [u8], at: usize, answer: Answer, report: [u8; REPORT_LENGTH]) -> usize
    requires { (at ≤ 3) × (3 + report_width ≤ length bytes.old) }
    ensures short { result ≤ 3 + report_width }
    ensures written { take result bytes.new ≡ take at bytes.old ++ cond (is_answered answer) (space ∷ hex_of report) [] }
    ensures rest_stays { (at ≤ result) × (drop result bytes.new ≡ drop result bytes.old) }
{
    if unit::is_answered(answer) {
        put_report(bytes, at, report);
        return at + REPORT_WIDTH;
    }
    at
}

// Writes the line of an answer at the front, where there is room for any line, and tells how many bytes it has. The report is
// read only where the answer has one.
pub fn put_line(bytes: &mut [u8], answer: Answer, report: [u8; REPORT_LENGTH]) -> usize
    ensures count { result ≡ length (line_in (length bytes.old) answer report) }
    ensures short { result ≤ line_width }
    ensures written { bytes.new ≡ placed (line_in (length bytes.old) answer report) bytes.old }
{
    if bytes.len() < WIDTH {
        return 0;
    }
    let number = put_number(bytes, unit::answer_number(answer));
    let end = put_answered(bytes, number, answer, report);
    bytes[end] = b'\n';
    end + 1
}
