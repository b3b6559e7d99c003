// Record kinds: fixed-width keys and values with their tests and the order of the keys, and the kinds of a
// race track: the ticket and the pool line.
// A kind means what its `model` says, and keeps the laws of `Lawful`; code that is generic over kinds rests on these
// alone. The numbers in records stand highest byte first, as on pages. It uses nothing but the language.
#![tactic(auto)]

ghost use Rattle.std.specs.Prelude.{◌≡◌, ◌+◌, length};
ghost use Rattle.records.specs.Kind.{Kind, Lawful, record_width};

use std::cmp::Ordering;

pub mod numbers;
pub mod order;
pub mod pool_line;
pub mod pools;
pub mod ticket;
mod track;

pub use pool_line::PoolLine;
pub use ticket::Ticket;

// A kind of record. What it answers depends on the kind and the bytes alone, so asked twice it answers alike.
pub trait RecordKind {
    const KIND_NUMBER: u8;

    const KEY_BYTES: usize;

    const VALUE_BYTES: usize;

    ghost model: { Self → Kind };

    // The kind's number, 1 to 255, which stands on page 0. Each kind answers this and the widths itself: they may differ
    // between two values of its type, so no constant is asked to be the model's.
    fn number(&self) -> u8
        ensures { result ≡ (model self.now).number };

    // The bytes of a key, 1 to 24.
    fn key_width(&self) -> usize
        ensures { result ≡ (model self.now).key_width };

    // The bytes of a value, 1 to 64.
    fn value_width(&self) -> usize
        ensures { result ≡ (model self.now).value_width };

    fn valid_key(&self, key: &[u8]) -> bool
        ensures { result ≡ (model self.now).valid_key key.now };

    fn valid_value(&self, value: &[u8]) -> bool
        ensures { result ≡ (model self.now).valid_value value.now };

    // How a stands to b. It answers on any bytes of the key width; only valid keys are ordered by it.
    fn compare(&self, a: &[u8], b: &[u8]) -> Ordering
        requires left { length a.now ≡ (model self.now).key_width }
        requires right { length b.now ≡ (model self.now).key_width }
        ensures { result ≡ (model self.now).order a.now b.now };

    // The bytes of a record: its key, then its value.
    fn record_width(&self) -> usize
        ensures { result ≡ record_width (model self.now) }
    {
        self.key_width() + self.value_width()
    }

    ghost lawful: { (k : Self) → Lawful (model k) };
}
