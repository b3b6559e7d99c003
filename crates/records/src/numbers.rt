// Numbers in bytes, highest byte first.
ghost use Rattle.std.specs.Prelude.{◌≡◌, ◌+◌, ◌≤◌, length};
ghost use Rattle.records.specs.Bytes.{word, field};
ghost use Rattle.records.specs.Tests.{between};

// The number that these bytes write.
fn word_of(bytes: &[u8]) -> u64
    requires { length bytes.now ≤ 8 }
    ensures { result ≡ word bytes.now }
{
    let mut n = 0u64;
    for b in bytes {
        n = n * 256 + u64::from(*b);
    }
    n
}

// The number in `width` bytes from `at` on.
pub(crate) fn field_at(bytes: &[u8], at: usize, width: usize) -> u64
    requires { (at + width ≤ length bytes.now) × (width ≤ 8) }
    ensures { result ≡ field at width bytes.now }
{
    word_of(&bytes[at..at + width])
}

pub(crate) fn within(n: u64, low: u64, high: u64) -> bool
    ensures { result ≡ between low high n }
{
    (low..=high).contains(&n)
}
