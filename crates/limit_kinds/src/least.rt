// Kind 202: the narrowest record there is.
ghost use Rattle.limit_kinds.specs.Limit.{limit_kind};
ghost use Rattle.limit_kinds.specs.Limits.{least_lawful};

use crate::is_valid;
use records::RecordKind;
use records::order::compare_bytes;
use std::cmp::Ordering;

#[derive(Clone, Copy)]
pub struct Least;

impl RecordKind for Least {
    const KIND_NUMBER: u8 = 202;

    const KEY_BYTES: usize = 1;

    const VALUE_BYTES: usize = 1;

    ghost model = { λ _. limit_kind 202 1 1 };

    ghost lawful = { λ k. least_lawful };

    fn number(&self) -> u8 {
        Self::KIND_NUMBER
    }

    fn key_width(&self) -> usize {
        Self::KEY_BYTES
    }

    fn value_width(&self) -> usize {
        Self::VALUE_BYTES
    }

    fn valid_key(&self, key: &[u8]) -> bool {
        is_valid(Self::KEY_BYTES, key)
    }

    fn valid_value(&self, value: &[u8]) -> bool {
        is_valid(Self::VALUE_BYTES, value)
    }

    fn compare(&self, a: &[u8], b: &[u8]) -> Ordering {
        compare_bytes(a, b)
    }
}
