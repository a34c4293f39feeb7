// Text in ASCII.
ghost use Rattle.std.specs.Prelude.{◌≡◌};
ghost use Rattle.wire.specs.Text.{digit_of};

// The last digit of a number to base 16: 0 to 9, then capital A to F.
pub fn digit(x: u8) -> u8
    ensures { result ≡ digit_of x }
{
    b"0123456789ABCDEF"[(x % 16) as usize]
}
