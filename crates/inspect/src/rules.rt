// Bytes of a page that are to be zero.
ghost use Rattle.std.specs.Prelude.{◌≡◌};
ghost use Rattle.layout.specs.Checked.{zeros};

// The largest byte is zero. No byte ends the loop early, so that the compiler takes many at a time.
pub(crate) fn all_zero(bytes: &[u8]) -> bool
    ensures { result ≡ zeros bytes.now }
{
    let mut largest = 0u8;
    for b in bytes {
        largest = largest.max(*b);
    }
    largest == 0
}
