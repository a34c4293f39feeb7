// Reading until a buffer is full, reading a record, and writing all of a buffer, as the programs do.
#![tactic(auto)]

ghost use Rattle.std.specs.Prelude.{◌≡◌, ◌<◌, length, take, None, IfOk, IfSome, OnOk, OnErr};
ghost use Rattle.std.specs.Io.{ReadsAtMost};
ghost use Rattle.std.specs.Io.KnownBytes.{Appends, Consumes, IsAtEnd};
ghost use Rattle.console.specs.Bytes.{AppendsFront, ConsumesFewer};

use std::io;
use std::io::{ErrorKind, Read, Write};

/// Reads until the buffer is full or the input has ended, and tells how many bytes came. They stand at the front of the buffer. After an
/// error some bytes may have come, and the buffer has them.
pub fn read_full<R: Read>(input: &mut R, buffer: &mut [u8]) -> io::Result<usize>
    ensures bound { ReadsAtMost result buffer.new }
    ensures bytes { IfOk result (λ n. Consumes (R.remaining input.old) (R.remaining input.new) (take n buffer.new)) }
    ensures end { IfOk result (λ n. n < length buffer.new → IsAtEnd (R.remaining input.new)) }
{
    // The library's `read_exact` doesn't tell how many bytes came before the input ended.
    let mut n = 0;
    while n < buffer.len() {
        let got = input.read(&mut buffer[n..])?;
        if got == 0 {
            return Ok(n);
        }
        n += got;
    }
    Ok(n)
}

/// Reads a record over an array of its size, or none where the input ends before it is whole.
pub fn read_record<const N: usize, R: Read>(
    input: &mut R,
    record: [u8; N],
) -> io::Result<Option<[u8; N]>>
    ensures whole { IfOk result (λ r. IfSome r (λ bytes. Consumes (R.remaining input.old) (R.remaining input.new) bytes)) }
    ensures cut_off { IfOk result (λ r. r ≡ None → ConsumesFewer (R.remaining input.old) (R.remaining input.new) N) }
    ensures end { IfOk result (λ r. r ≡ None → IsAtEnd (R.remaining input.new)) }
{
    let mut record = record;
    if read_full(input, &mut record)? < N {
        return Ok(None);
    }
    Ok(Some(record))
}

/// Writes all the bytes. Where a write fails or takes none, a beginning of them is out, and no more.
pub fn write_all<W: Write>(output: &mut W, bytes: &[u8]) -> io::Result<()>
    ensures ok { OnOk result (Appends (W.contents output.old) (W.contents output.new) bytes.now) }
    ensures err { OnErr result (AppendsFront (W.contents output.old) (W.contents output.new) bytes.now) }
{
    // The library's `write_all` doesn't say what is out after an error, as `err` does.
    let mut done = 0;
    while done < bytes.len() {
        let n = output.write(&bytes[done..])?;
        if n == 0 {
            return Err(io::Error::from(ErrorKind::WriteZero));
        }
        done += n;
    }
    Ok(())
}

#[cfg(test)]
mod tests {
    use super::*;
    use std::test::Fail;

    // Gives or takes a byte a call, and fails at the fourth.
    #[derive(Drop)]
    struct Drip(u8);

    impl Drip {
        fn next(&mut self) -> io::Result<u8> {
            if self.0 >= 3 {
                return Err(io::Error::from(ErrorKind::BrokenPipe));
            }
            self.0 += 1;
            Ok(self.0)
        }
    }

    impl Read for Drip {
        fn read(&mut self, buf: &mut [u8]) -> io::Result<usize> {
            match buf {
                [] => Ok(0),
                [first, ..] => {
                    *first = self.next()?;
                    Ok(1)
                }
            }
        }
    }

    impl Write for Drip {
        fn write(&mut self, buf: &[u8]) -> io::Result<usize> {
            if buf.is_empty() {
                return Ok(0);
            }
            self.next()?;
            Ok(1)
        }

        fn flush(&mut self) -> io::Result<()> {
            Ok(())
        }
    }

    #[test]
    fn reads_in_pieces(rt: HostRuntime) -> Result<(), Fail> {
        let mut three = [0u8; 3];
        assert_eq!(rt; read_full(&mut Drip(0), &mut three)?, 3);
        assert_eq!(rt; three, [1, 2, 3]);
        let mut four = [0u8; 4];
        assert!(rt;
            read_full(&mut Drip(0), &mut four).is_err(),
            "the fourth read fails"
        );
        let mut two: &[u8] = b"ab";
        assert_eq!(rt; read_full(&mut two, &mut four)?, 2, "the input ends");
        Ok(())
    }

    #[test]
    fn writes_in_pieces(rt: HostRuntime) {
        assert!(rt; write_all(&mut Drip(0), b"abc").is_ok());
        assert!(rt;
            write_all(&mut Drip(0), b"abcd").is_err(),
            "the fourth write fails"
        );
    }
}
