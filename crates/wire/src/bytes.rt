// Equal bytes and copied bytes.
ghost use Rattle.std.specs.Prelude.{◌≡◌};
ghost use Rattle.wire.specs.Bytes.{same_bytes, copied};

pub fn same(a: &[u8], b: &[u8]) -> bool
    ensures { result ≡ same_bytes a.now b.now }
{
    a == b
}

// Copies all of source where the target is as long, and otherwise nothing.
pub fn copy_whole(source: &[u8], target: &mut [u8])
    ensures { target.new ≡ copied source.now target.old }
{
    if source.len() == target.len() {
        target.copy_from_slice(source);
    }
}
