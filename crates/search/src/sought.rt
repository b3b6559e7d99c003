// What a search looks for, and where.
ghost use Rattle.std.specs.Prelude.{◌≡◌, ◌*◌, ◌≤◌, length};
ghost use Rattle.records.specs.Kind.{record_width};
ghost use Rattle.shape.specs.Made.{chosen};

use records::RecordKind;
use shape::Shape;
use std::cmp::Ordering;

// A key of a kind, which is sought in an index of a shape with so many used slots. It is no `Ground` of the inspection:
// of an open index it is only tested that records of the kind fit, not known that its width is theirs.
#[derive(Drop)]
pub(crate) struct Sought<'a, K: RecordKind> {
    pub kind: &'a K,
    pub key: &'a [u8],
    pub shape: Shape,
    pub used: usize,
    ghost long: { length key.now ≡ (K.model kind.now).key_width },
    ghost fits: { (chosen shape).per_page * record_width (K.model kind.now) ≤ 503 },
    ghost few: { used ≤ 1024 },
}

impl<K: RecordKind> Sought<'_, K> {
    // How a key stands to the one that is sought.
    pub(crate) fn order(&self, key: &[u8]) -> Ordering
        requires { length key.now ≡ (K.model self.now.kind.now).key_width }
        ensures { result ≡ (K.model self.now.kind.now).order key.now self.now.key.now }
    {
        self.kind.compare(key, self.key)
    }
}
