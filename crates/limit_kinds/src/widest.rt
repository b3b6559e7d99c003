// Kind 201: the widest record there is.
ghost use Rattle.limit_kinds.specs.Limit.{limit_kind};
ghost use Rattle.limit_kinds.specs.Limits.{widest_lawful};

use crate::is_valid;
use records::RecordKind;
use records::order::compare_bytes;
use std::cmp::Ordering;

#[derive(Clone, Copy)]
pub struct Widest;

impl RecordKind for Widest {
    const KIND_NUMBER: u8 = 201;

    const KEY_BYTES: usize = 24;

    const VALUE_BYTES: usize = 64;

    ghost model = { λ _. limit_kind 201 24 64 };

    ghost lawful = { λ k. widest_lawful };

    fn number(&self) -> u8 {
        Self::KIND_NUMBER
    }

    fn key_width(&self) -> usize {
        Self::KEY_BYTES
    }

    fn value_width(&self) -> usize {
        Self::VALUE_BYTES
    }

    fn valid_key(&self, key: &[u8]) -> bool {
        is_valid(Self::KEY_BYTES, key)
    }

    fn valid_value(&self, value: &[u8]) -> bool {
        is_valid(Self::VALUE_BYTES, value)
    }

    fn compare(&self, a: &[u8], b: &[u8]) -> Ordering {
        compare_bytes(a, b)
    }
}
