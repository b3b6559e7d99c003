// The record kinds by name: the numbers and widths that docs/RECORDS.md gives, and a key and a value for each number.
// The crate `records` is not asked, nor the script's own names: this crate is a second opinion on both.
ghost use Rattle.std.specs.Prelude.{◌≡◌, IfOk, vec_len};
ghost use Rattle.builder.specs.Kinds.{number_of, key_width_of, value_width_of};

use crate::faults::BuildFault;
use crate::records::{
    least_key, least_value, line_key, line_value, narrow_key, narrow_value, ticket_key,
    ticket_value, widest_key, widest_value,
};
use std::alloc::Global;

#[derive(Debug, Clone, Copy, PartialEq, Eq)]
pub enum KindName {
    Ticket = 1,
    PoolLine = 2,
    Narrow = 200,
    Widest = 201,
    Least = 202,
}

impl KindName {
    // The number that stands on page 0.
    pub fn number(self) -> u8
        ensures { result ≡ number_of self }
    {
        self as u8
    }

    // The bytes of a key.
    pub fn key_width(self) -> usize
        ensures { result ≡ key_width_of self }
    {
        match self {
            KindName::Ticket => 8,
            KindName::PoolLine => 9,
            KindName::Narrow => 3,
            KindName::Widest => 24,
            KindName::Least => 1,
        }
    }

    // The bytes of a value.
    pub fn value_width(self) -> usize
        ensures { result ≡ value_width_of self }
    {
        match self {
            KindName::Ticket => 10,
            KindName::PoolLine => 8,
            KindName::Narrow => 4,
            KindName::Widest => 64,
            KindName::Least => 1,
        }
    }

    // The key of a number, valid, and above the keys of lower numbers.
    pub fn key(self, heap: Global, n: u32) -> Result<Vec<u8>, BuildFault>
        ensures { IfOk result (λ v. vec_len v ≡ key_width_of self) }
    {
        let key = match self {
            KindName::Ticket => Vec::from_slice(heap, &ticket_key(n)?)?,
            KindName::PoolLine => Vec::from_slice(heap, &line_key(n)?)?,
            KindName::Narrow => Vec::from_slice(heap, &narrow_key(n)?)?,
            KindName::Widest => Vec::from_slice(heap, &widest_key(n))?,
            KindName::Least => Vec::from_slice(heap, &least_key(n)?)?,
        };
        Ok(key)
    }

    // A valid value for a number.
    pub fn value(self, heap: Global, n: u32) -> Result<Vec<u8>, BuildFault>
        ensures { IfOk result (λ v. vec_len v ≡ value_width_of self) }
    {
        let value = match self {
            KindName::Ticket => Vec::from_slice(heap, &ticket_value(n))?,
            KindName::PoolLine => Vec::from_slice(heap, &line_value(n))?,
            KindName::Narrow => Vec::from_slice(heap, &narrow_value(n))?,
            KindName::Widest => Vec::from_slice(heap, &widest_value(n))?,
            KindName::Least => Vec::from_slice(heap, &least_value(n))?,
        };
        Ok(value)
    }
}
