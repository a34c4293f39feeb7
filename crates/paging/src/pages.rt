// A sheet that grows: where it stands, and what an accepted command adds to it.
ghost use Rattle.std.specs.Prelude.{◌≡◌, ◌++◌, ◌+◌, ◌≤◌, length, take, drop};
ghost use Rattle.wire.specs.Bytes.{placed};
ghost use Rattle.sheet.specs.Columns.{width, entry};
ghost use Rattle.sheet.specs.Pages.{differs, printed_as};
ghost use Rattle.sheet.specs.Paging.{fresh_sheet, added_in, added_width};

use crate::lines::{LINE, header_of, line_for};
use sheet::{Line, Sheet};
use wire::{REPORT_LENGTH, be16, byte_at};

// The lines of a page, its first among them.
const PAGE_LINES: u8 = 50;

// The sheet ends with this page.
const LAST_PAGE: u16 = 9999;

// The most bytes that a command adds: the first line of a page, and its own.
pub const ADDED: usize = 2 * LINE;

// The sheet after a command, and how many bytes were written for it.
#[derive(Clone, Copy)]
pub struct Put {
    pub sheet: Sheet,
    pub written: usize,
}

// A sheet before any line.
pub fn fresh() -> Sheet
    ensures { result ≡ fresh_sheet }
{
    Sheet {
        printed: None,
        page: 0,
        line: PAGE_LINES,
    }
}

// Order, permitted speed or state differs from the last line, or there is none.
fn is_different(printed: Option<Line>, report: [u8; REPORT_LENGTH]) -> bool
    ensures { result ≡ differs printed report }
{
    Some(printed_as(report)) != printed
}

fn printed_as(report: [u8; REPORT_LENGTH]) -> Line
    ensures { result ≡ printed_as report }
{
    Line {
        order: byte_at(&report, 1),
        permitted: be16(&report, 4),
        state: byte_at(&report, 0),
    }
}

// Puts a line into the room from a place on.
fn put_line(line: [u8; LINE], room: &mut [u8], at: usize)
    requires { at + (width + 1) ≤ length room.old }
    ensures { room.new ≡ take at room.old ++ line ++ drop (at + (width + 1)) room.old }
{
    room[at..at + LINE].copy_from_slice(&line);
}

// Prints the line of an accepted command where one is due, on this page or on the next with its first line, at the front of the
// room. Where the room is too small for two lines, nothing is printed and the sheet stays.
pub fn print(sheet: Sheet, number: u32, report: [u8; REPORT_LENGTH], room: &mut [u8]) -> Put
    ensures sheet_after { result.sheet ≡ (added_in (length room.old) sheet (entry number report)).sheet }
    ensures count { result.written ≡ length (added_in (length room.old) sheet (entry number report)).text }
    ensures short { result.written ≤ added_width }
    ensures written { room.new ≡ placed (added_in (length room.old) sheet (entry number report)).text room.old }
{
    if room.len() < ADDED {
        return Put { sheet, written: 0 };
    }
    if !is_different(sheet.printed, report) {
        return Put { sheet, written: 0 };
    }
    let printed = Some(printed_as(report));
    if sheet.line < PAGE_LINES {
        put_line(line_for(number, report), room, 0);
        return Put {
            sheet: Sheet {
                printed,
                line: sheet.line + 1,
                ..sheet
            },
            written: LINE,
        };
    }
    if sheet.page < LAST_PAGE {
        let page = sheet.page + 1;
        put_line(header_of(page), room, 0);
        put_line(line_for(number, report), room, LINE);
        return Put {
            sheet: Sheet {
                printed,
                page,
                line: 2,
            },
            written: ADDED,
        };
    }
    Put { sheet, written: 0 }
}
