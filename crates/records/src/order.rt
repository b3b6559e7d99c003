// The order by a list of fields: the first that differs decides. The library's order of lists is this one.
ghost use Rattle.std.specs.Prelude.{◌≡◌};
ghost use Rattle.records.specs.Fields.{by_fields};

use std::cmp::Ordering;

// Compares numbers one by one from the first; where one list ends first, it is below.
pub fn compare_fields(a: &[u64], b: &[u64]) -> Ordering
    ensures { result ≡ by_fields a.now b.now }
{
    a.cmp(b)
}

// The same for bytes.
pub fn compare_bytes(left: &[u8], right: &[u8]) -> Ordering
    ensures { result ≡ by_fields left.now right.now }
{
    left.cmp(right)
}
