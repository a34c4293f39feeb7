// The command codes with their whole lengths.
ghost use Rattle.std.specs.Prelude.{◌≡◌};
ghost use Rattle.wire.specs.Codes.{length_in, length_of};

// A row of the table: a code and the whole length of its command, in bytes.
#[derive(Clone, Copy)]
pub struct Row {
    pub code: u8,
    pub length: usize,
}

// How many codes there are.
pub const CODES: usize = 15;

// The bytes of the shortest command, a code and a number.
pub const SHORTEST: usize = 5;

// The bytes of the longest command, a start.
pub const LONGEST: usize = 24;

pub const COMMANDS: [Row; CODES] = [
    Row {
        code: 0x01,
        length: LONGEST,
    },
    Row {
        code: 0x02,
        length: 6,
    },
    Row {
        code: 0x10,
        length: 14,
    },
    Row {
        code: 0x20,
        length: 12,
    },
    Row {
        code: 0x21,
        length: 6,
    },
    Row {
        code: 0x22,
        length: 8,
    },
    Row {
        code: 0x23,
        length: 6,
    },
    Row {
        code: 0x30,
        length: 6,
    },
    Row {
        code: 0x31,
        length: 5,
    },
    Row {
        code: 0x32,
        length: 5,
    },
    Row {
        code: 0x40,
        length: 5,
    },
    Row {
        code: 0x50,
        length: 8,
    },
    Row {
        code: 0x51,
        length: 12,
    },
    Row {
        code: 0x52,
        length: 7,
    },
    Row {
        code: 0x53,
        length: 6,
    },
];

// The length in the first of the rows that has the code.
fn length_in(rows: &[Row], code: u8) -> Option<usize>
    ensures { result ≡ length_in rows.now code }
{
    rows.iter()
        .find(|row| row.code == code)
        .map(|row| row.length)
}

// The whole length that the table gives a code, and none where the byte is no code.
pub fn length_of(code: u8) -> Option<usize>
    ensures { result ≡ length_of code }
{
    length_in(&COMMANDS, code)
}
