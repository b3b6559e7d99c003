// Kind 2, the pool line: what was staked in one pool of one race on the same runners.
ghost use Rattle.std.specs.Prelude.{◌≡◌, length};
ghost use Rattle.records.specs.PoolLine.{line_fields, line_in_limits, line_kind};
ghost use Rattle.records.specs.PoolLines.{line_lawful};

use crate::RecordKind;
use crate::numbers::field_at;
use crate::pools::valid_bet;
use crate::track::{valid_course, valid_day, valid_race};
use std::cmp::Ordering;

// A total is at most this.
const MOST_TOTAL: u64 = 1_000_000_000_000_000;

#[derive(Clone, Copy, Debug, PartialEq, Eq)]
pub struct PoolLine;

// What pool lines are sorted by; a later race comes first.
fn line_fields(key: &[u8]) -> [u64; 7]
    requires { length key.now ≡ 9 }
    ensures { result ≡ line_fields key.now }
{
    [
        field_at(key, 0, 2),
        field_at(key, 2, 2),
        u64::from(255 - key[4]),
        u64::from(key[5]),
        u64::from(key[6]),
        u64::from(key[7]),
        u64::from(key[8]),
    ]
}

fn line_in_limits(key: &[u8]) -> bool
    requires { length key.now ≡ 9 }
    ensures { result ≡ line_in_limits key.now }
{
    let place = valid_course(field_at(key, 0, 2)) & valid_day(field_at(key, 2, 2));
    place & valid_race(key[4]) & valid_bet(key[5], [key[6], key[7], key[8]])
}

impl RecordKind for PoolLine {
    const KIND_NUMBER: u8 = 2;

    const KEY_BYTES: usize = 9;

    const VALUE_BYTES: usize = 8;

    ghost model = { λ _. line_kind };

    ghost lawful = { λ k. line_lawful };

    fn number(&self) -> u8 {
        Self::KIND_NUMBER
    }

    fn key_width(&self) -> usize {
        Self::KEY_BYTES
    }

    fn value_width(&self) -> usize {
        Self::VALUE_BYTES
    }

    fn valid_key(&self, key: &[u8]) -> bool {
        key.len() == Self::KEY_BYTES && line_in_limits(key)
    }

    fn valid_value(&self, value: &[u8]) -> bool {
        value.len() == Self::VALUE_BYTES && field_at(value, 0, 8) <= MOST_TOTAL
    }

    fn compare(&self, a: &[u8], b: &[u8]) -> Ordering {
        line_fields(a).cmp(&line_fields(b))
    }
}
