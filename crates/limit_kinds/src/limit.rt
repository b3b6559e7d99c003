// A kind for each number and each pair of widths within the limits of every kind. The kinds at the edge of the widths are
// types of their own: nothing would hold the numbers in a mere name for one of these.
ghost use Rattle.std.specs.Prelude.{◌≤◌};
ghost use Rattle.limit_kinds.specs.Limit.{limit_kind};
ghost use Rattle.limit_kinds.specs.Limits.{limit_lawful};

use crate::is_valid;
use records::RecordKind;
use records::order::compare_bytes;
use std::cmp::Ordering;

// The kind of this number, with keys and values of so many bytes.
#[derive(Clone, Copy)]
pub struct Limit<const NUMBER: u8, const KEY: usize, const VALUE: usize> {
    ghost number_least: { 1 ≤ NUMBER },
    ghost number_most: { NUMBER ≤ 255 },
    ghost key_least: { 1 ≤ KEY },
    ghost key_most: { KEY ≤ 24 },
    ghost value_least: { 1 ≤ VALUE },
    ghost value_most: { VALUE ≤ 64 },
}

impl<const NUMBER: u8, const KEY: usize, const VALUE: usize> RecordKind
    for Limit<NUMBER, KEY, VALUE> {
    const KIND_NUMBER: u8 = NUMBER;

    const KEY_BYTES: usize = KEY;

    const VALUE_BYTES: usize = VALUE;

    ghost model = { λ _. limit_kind NUMBER KEY VALUE };

    ghost lawful = { λ k. limit_lawful NUMBER KEY VALUE k.number_least k.number_most k.key_least k.key_most
        k.value_least k.value_most };

    fn number(&self) -> u8 {
        NUMBER
    }

    fn key_width(&self) -> usize {
        KEY
    }

    fn value_width(&self) -> usize {
        VALUE
    }

    fn valid_key(&self, key: &[u8]) -> bool {
        is_valid(KEY, key)
    }

    fn valid_value(&self, value: &[u8]) -> bool {
        is_valid(VALUE, value)
    }

    fn compare(&self, a: &[u8], b: &[u8]) -> Ordering {
        compare_bytes(a, b)
    }
}
