// Prints the sheets of recorded streams, each handed on in one piece, and a line after each. A record is the stream's length in two bytes,
// and 1,024 bytes of which the stream is the first.
#![tactic(auto)]

use std::io;
use std::io::Write;

const STREAM: usize = 1024;

const RECORD: usize = 2 + STREAM;

// Room for what as many commands add as a stream can hold, a rest after them, and one to find no more.
const PAGES: usize = (STREAM / wire::SHORTEST + 2) * paging::ADDED;

// The stream of a record.
fn stream_of(record: &[u8; RECORD]) -> &[u8] {
    let n = wire::be16(record, 0) as usize;
    portions::part(record, 2, 2 + n)
}

fn print(out: &mut impl Write, record: &[u8; RECORD]) -> io::Result<()> {
    let mut pages = [0u8; PAGES];
    let handed = printing::hand_on(printing::fresh(), stream_of(record), true, &mut pages);
    out.write_all(portions::part(&pages, 0, handed.written))?;
    writeln!(out, "end of the sheet")
}

// A proved loop ends, and nothing says that the input does: so the turns are counted.
fn main(rt: HostRuntime) -> io::Result<()> {
    let mut input = rt.stdin();
    let mut out = rt.stdout();
    for _ in 0..u32::MAX {
        let Some(record) = console::read_record(&mut input, [0; RECORD])? else {
            break;
        };
        print(&mut out, &record)?;
    }
    Ok(())
}
