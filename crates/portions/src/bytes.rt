// Parts of bytes.
ghost use Rattle.std.specs.Prelude.{◌≡◌, length};
ghost use Rattle.std.proofs.Math.Seq.{slice};
ghost use Rattle.wire.specs.Bytes.{placed};

// The bytes from one place up to another, as far as there are such.
pub fn part(s: &[u8], from: usize, to: usize) -> &[u8]
    ensures { result.now ≡ slice from to s.now }
{
    let end = to.min(s.len());
    &s[from.min(end)..end]
}

// Brings such a part to the front, and tells how many bytes it has.
pub fn to_front(s: &mut [u8], from: usize, to: usize) -> usize
    ensures count { result ≡ length (slice from to s.old) }
    ensures brought { s.new ≡ placed (slice from to s.old) s.old }
{
    let end = to.min(s.len());
    let start = from.min(end);
    s.copy_within(start..end, 0);
    end - start
}
