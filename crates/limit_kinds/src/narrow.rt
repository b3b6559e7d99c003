// Kind 200: a key of 3 bytes and a value of 4: 64 entries fit on a leaf page.
ghost use Rattle.limit_kinds.specs.Limit.{limit_kind};
ghost use Rattle.limit_kinds.specs.Limits.{narrow_lawful};

use crate::is_valid;
use records::RecordKind;
use records::order::compare_bytes;
use std::cmp::Ordering;

#[derive(Clone, Copy)]
pub struct Narrow;

impl RecordKind for Narrow {
    const KIND_NUMBER: u8 = 200;

    const KEY_BYTES: usize = 3;

    const VALUE_BYTES: usize = 4;

    ghost model = { λ _. limit_kind 200 3 4 };

    ghost lawful = { λ k. narrow_lawful };

    fn number(&self) -> u8 {
        Self::KIND_NUMBER
    }

    fn key_width(&self) -> usize {
        Self::KEY_BYTES
    }

    fn value_width(&self) -> usize {
        Self::VALUE_BYTES
    }

    fn valid_key(&self, key: &[u8]) -> bool {
        is_valid(Self::KEY_BYTES, key)
    }

    fn valid_value(&self, value: &[u8]) -> bool {
        is_valid(Self::VALUE_BYTES, value)
    }

    fn compare(&self, a: &[u8], b: &[u8]) -> Ordering {
        compare_bytes(a, b)
    }
}
