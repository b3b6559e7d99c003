// Record kinds at the edge of the widths, for tests and for scripts: what tickets never reach, such as 64 entries on a
// leaf page, the widest and the narrowest record; and one for any number and widths. They keep the laws of every kind. It
// uses the record kinds.
#![tactic(auto)]

ghost use Rattle.std.specs.Prelude.{◌≡◌, ◌≤◌, length};
ghost use Rattle.limit_kinds.specs.Limit.{starts, valid};

pub mod least;
pub mod limit;
pub mod narrow;
pub mod widest;

pub use least::Least;
pub use limit::Limit;
pub use narrow::Narrow;
pub use widest::Widest;

// No key and no value begins with this byte.
const FORBIDDEN: u8 = 255;

// Whether bytes of some length may be a key or a value.
fn begins_well(bytes: &[u8]) -> bool
    requires { 1 ≤ length bytes.now }
    ensures { result ≡ starts bytes.now }
{
    bytes[0] != FORBIDDEN
}

// Whether these bytes are so many and begin well.
fn is_valid(width: usize, bytes: &[u8]) -> bool
    requires { 1 ≤ width }
    ensures { result ≡ valid width bytes.now }
{
    bytes.len() == width && begins_well(bytes)
}
