// Why a tree is not made, and sums that say so.
ghost use Rattle.std.specs.Prelude.{◌≡◌, ◌+◌, ◌*◌, ◌/◌, IfOk};

use std::alloc::AllocError;
use std::num::TryFromIntError;
use thiserror::Error;

#[derive(Debug, Clone, Copy, PartialEq, Eq, Error)]
pub enum BuildFault {
    #[error("there is no memory")]
    Memory(#[from(alloc)] AllocError),
    #[error("the kind has no key of number {0}")]
    NoKey(u32),
    #[error("a page would have more than 512 bytes")]
    PageFull,
    #[error("a number is too large for its field")]
    TooLarge,
    #[error("the tree takes more pages")]
    TooFewPages,
    #[error("the wish has no such node, level or leaf")]
    Missing,
}

// Written out: the fault has no parts, and a derived conversion makes one that holds the error.
impl From<TryFromIntError> for BuildFault {
    fn from(_e: TryFromIntError) -> BuildFault {
        BuildFault::TooLarge
    }
}

// These four are alike in form only: each is a line of its own operation, and each clause says another sum.

pub(crate) fn plus(a: u32, b: u32) -> Result<u32, BuildFault>
    ensures { IfOk result (λ n. n ≡ a + b) }
{
    a.checked_add(b).ok_or(BuildFault::TooLarge)
}

pub(crate) fn times(a: u32, b: u32) -> Result<u32, BuildFault>
    ensures { IfOk result (λ n. n ≡ a * b) }
{
    a.checked_mul(b).ok_or(BuildFault::TooLarge)
}

pub(crate) fn minus(a: u32, b: u32) -> Result<u32, BuildFault>
    ensures { IfOk result (λ n. n + b ≡ a) }
{
    a.checked_sub(b).ok_or(BuildFault::TooLarge)
}

pub(crate) fn divided(a: u32, b: u32) -> Result<u32, BuildFault>
    ensures { IfOk result (λ n. n ≡ a / b) }
{
    a.checked_div(b).ok_or(BuildFault::TooLarge)
}

// A length as a number of a plan, which fits two bytes of a page.
pub(crate) fn counted(n: usize) -> Result<u32, BuildFault>
    ensures { IfOk result (λ m. m ≡ n) }
{
    Ok(u32::from(u16::try_from(n)?))
}
