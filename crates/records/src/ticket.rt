// Kind 1, the ticket: one record for each ticket sold at a track.
ghost use Rattle.std.specs.Prelude.{◌≡◌, length};
ghost use Rattle.records.specs.Ticket.{ticket_fields, key_in_limits, value_in_limits, ticket_kind};
ghost use Rattle.records.specs.Tickets.{ticket_lawful};

use crate::RecordKind;
use crate::numbers::{field_at, within};
use crate::pools::valid_bet;
use crate::track::{valid_course, valid_day, valid_race};
use std::cmp::Ordering;

const LAST_SERIAL: u64 = 99_999_999;

const MOST_STAKE: u64 = 10_000_000;

#[derive(Clone, Copy, Debug, PartialEq, Eq)]
pub struct Ticket;

// What tickets are sorted by: day, course, serial.
fn ticket_fields(key: &[u8]) -> [u64; 3]
    requires { length key.now ≡ 8 }
    ensures { result ≡ ticket_fields key.now }
{
    [
        field_at(key, 6, 2),
        field_at(key, 4, 2),
        field_at(key, 0, 4),
    ]
}

fn key_in_limits(key: &[u8]) -> bool
    requires { length key.now ≡ 8 }
    ensures { result ≡ key_in_limits key.now }
{
    let serial = field_at(key, 0, 4);
    within(serial, 1, LAST_SERIAL)
        & valid_course(field_at(key, 4, 2))
        & valid_day(field_at(key, 6, 2))
}

fn value_in_limits(value: &[u8]) -> bool
    requires { length value.now ≡ 10 }
    ensures { result ≡ value_in_limits value.now }
{
    let bet = valid_bet(value[1], [value[2], value[3], value[4]]);
    let stake = field_at(value, 5, 4);
    let state = value[9];
    valid_race(value[0]) & bet & within(stake, 1, MOST_STAKE) & within(state.into(), 1, 3)
}

impl RecordKind for Ticket {
    const KIND_NUMBER: u8 = 1;

    const KEY_BYTES: usize = 8;

    const VALUE_BYTES: usize = 10;

    ghost model = { λ _. ticket_kind };

    ghost lawful = { λ k. ticket_lawful };

    fn number(&self) -> u8 {
        Self::KIND_NUMBER
    }

    fn key_width(&self) -> usize {
        Self::KEY_BYTES
    }

    fn value_width(&self) -> usize {
        Self::VALUE_BYTES
    }

    fn valid_key(&self, key: &[u8]) -> bool {
        key.len() == Self::KEY_BYTES && key_in_limits(key)
    }

    fn valid_value(&self, value: &[u8]) -> bool {
        value.len() == Self::VALUE_BYTES && value_in_limits(value)
    }

    fn compare(&self, a: &[u8], b: &[u8]) -> Ordering {
        ticket_fields(a).cmp(&ticket_fields(b))
    }
}
