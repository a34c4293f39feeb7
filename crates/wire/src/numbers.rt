// Numbers of one, two and four bytes, high byte first. A byte past the end counts as 0.
ghost use Rattle.std.specs.Prelude.{◌≡◌, drop};
ghost use Rattle.wire.specs.Numbers.{byte_at, number, signed, high_byte, low_byte, high_pair, low_pair};

pub fn byte_at(s: &[u8], at: usize) -> u8
    ensures { result ≡ byte_at s.now at }
{
    s.get(at).copied().unwrap_or(0)
}

// The bytes from a place on, and none past the end.
fn from(s: &[u8], at: usize) -> &[u8]
    ensures { result.now ≡ drop at s.now }
{
    s.get(at..).unwrap_or(&[])
}

pub fn be16(s: &[u8], at: usize) -> u16
    ensures { result ≡ number 2 (drop at s.now) }
{
    let t = from(s, at);
    u16::from_be_bytes([byte_at(t, 0), byte_at(t, 1)])
}

pub fn be32(s: &[u8], at: usize) -> u32
    ensures { result ≡ number 4 (drop at s.now) }
{
    let t = from(s, at);
    u32::from_be_bytes([byte_at(t, 0), byte_at(t, 1), byte_at(t, 2), byte_at(t, 3)])
}

// A byte read in two's complement.
pub fn signed8(byte: u8) -> i8
    ensures { result ≡ signed 256 byte }
{
    byte.cast_signed()
}

// A two-byte number read in two's complement.
pub fn signed16(x: u16) -> i16
    ensures { result ≡ signed 65536 x }
{
    x.cast_signed()
}

pub fn high(x: u16) -> u8
    ensures { result ≡ high_byte x }
{
    x.to_be_bytes()[0]
}

pub fn low(x: u16) -> u8
    ensures { result ≡ low_byte x }
{
    x.to_be_bytes()[1]
}

// The first two bytes of four.
pub fn high_pair(x: u32) -> u16
    ensures { result ≡ high_pair x }
{
    (x / 65536) as u16
}

// The last two.
pub fn low_pair(x: u32) -> u16
    ensures { result ≡ low_pair x }
{
    (x % 65536) as u16
}
