// Writing figures.
use std::io;
use std::io::Write;

fn digit(n: u64) -> u8 {
    wire::digit((n % 10) as u8)
}

// A point and five digits, of a number of 100,000ths: in one write.
fn decimals(n: u64) -> [u8; 6] {
    [
        b'.',
        digit(n / 10000),
        digit(n / 1000),
        digit(n / 100),
        digit(n / 10),
        digit(n),
    ]
}

// A figure that is not negative, with five decimals; none is as large as 2 ^ 64 65,536ths.
fn put_size(out: &mut impl Write, x: f32) -> io::Result<()> {
    let parts = x * 65536.0;
    if parts > -1.0 {
        if parts < 18446744073709551616.0 {
            let n = std::num::truncating_f32_to_u64(parts);
            write!(out, "{}", n / 65536)?;
            return out.write_all(&decimals(n % 65536 * 100000 / 65536));
        }
    }
    Ok(())
}

// A figure in kPa.
pub fn put_kpa(out: &mut impl Write, x: f32) -> io::Result<()> {
    if x < 0.0 {
        write!(out, "-")?;
        put_size(out, -x)
    } else {
        put_size(out, x)
    }
}
