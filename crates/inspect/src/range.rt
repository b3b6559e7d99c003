// The tree that an inspection walks over, and the range of the keys below a node.
ghost use Rattle.std.specs.Prelude.{◌≡◌, ◌≤◌, ⊤, length, Some, None};
ghost use Rattle.std.specs.declared.ops.Bound.TheVariants.{Included, Excluded, Unbounded};
ghost use Rattle.records.specs.Kind.{record_width};
ghost use Rattle.layout.specs.LeafPages.{ordered_below, above_low, below_high, good_key};
ghost use Rattle.inspect.specs.Bounds.{low_of, high_of, low_key, high_key, Long};

use records::RecordKind;
use shape::Shape;
use std::alloc::AllocError;
use std::ops::Bound;

// What all nodes of a tree share: the kind of their records, the shape, and how many slots are used.
pub(crate) struct Ground<'a, K: RecordKind> {
    pub kind: &'a K,
    pub shape: Shape,
    pub used: usize,
    ghost width: { shape.record_width ≡ record_width (K.model kind.now) },
    ghost few: { used ≤ 1024 },
}

// The keys that may stand below a node: from `low` on, and below `high` if that is a key.
pub(crate) struct KeyRange<'a, K: RecordKind> {
    pub ground: Ground<'a, K>,
    pub low: Bound<&'a [u8]>,
    pub high: Option<&'a [u8]>,
    ghost low_long: { Long (K.model ground.kind.now).key_width (low_key low) },
    ghost high_long: { Long (K.model ground.kind.now).key_width (high_key high) },
}

// Written out: a derive would ask the kind to be Copy, and `derive_where`, which would not, is refused over a ghost
// field.
impl<K: RecordKind> Clone for Ground<'_, K> {
    ghost is_clone = { λ x y. y ≡ x };

    ghost is_infallible = { λ _. ⊤ };

    fn clone(&self) -> Result<Self, AllocError> {
        Ok(*self)
    }
}

impl<K: RecordKind> Copy for Ground<'_, K> {}

impl<K: RecordKind> Clone for KeyRange<'_, K> {
    ghost is_clone = { λ x y. y ≡ x };

    ghost is_infallible = { λ _. ⊤ };

    fn clone(&self) -> Result<Self, AllocError> {
        Ok(*self)
    }
}

impl<K: RecordKind> Copy for KeyRange<'_, K> {}

fn is_below<K: RecordKind>(kind: &K, a: &[u8], b: &[u8]) -> bool
    requires left { length a.now ≡ (K.model kind.now).key_width }
    requires right { length b.now ≡ (K.model kind.now).key_width }
    ensures { result ≡ ordered_below (K.model kind.now) a.now b.now }
{
    kind.compare(a, b).is_lt()
}

// Each method asks for a key of the kind's width. Keys come as bytes from pages, and a type for such bytes would be made
// anew for each of them.
impl<'a, K: RecordKind> KeyRange<'a, K> {
    // All keys.
    pub(crate) fn all(ground: Ground<'a, K>) -> KeyRange<'a, K>
        ensures ground { result.ground ≡ ground.entry }
        ensures low { result.low ≡ Unbounded }
        ensures high { result.high ≡ None }
    {
        KeyRange {
            ground,
            low: Bound::Unbounded,
            high: None,
        }
    }

    // Those of the keys that are above `key`.
    pub(crate) fn past(self, key: &'a [u8]) -> KeyRange<'a, K>
        requires { length key.now ≡ (K.model self.ground.kind.now).key_width }
        ensures ground { result.ground ≡ self.entry.ground }
        ensures low { result.low ≡ Excluded key.entry }
        ensures high { result.high ≡ self.entry.high }
    {
        KeyRange {
            ground: self.ground,
            low: Bound::Excluded(key),
            high: self.high,
        }
    }

    // Those from `key` on.
    pub(crate) fn starting(self, key: &'a [u8]) -> KeyRange<'a, K>
        requires { length key.now ≡ (K.model self.ground.kind.now).key_width }
        ensures ground { result.ground ≡ self.entry.ground }
        ensures low { result.low ≡ Included key.entry }
        ensures high { result.high ≡ self.entry.high }
    {
        KeyRange {
            ground: self.ground,
            low: Bound::Included(key),
            high: self.high,
        }
    }

    // Those below `key`.
    pub(crate) fn until(self, key: &'a [u8]) -> KeyRange<'a, K>
        requires { length key.now ≡ (K.model self.ground.kind.now).key_width }
        ensures ground { result.ground ≡ self.entry.ground }
        ensures low { result.low ≡ self.entry.low }
        ensures high { result.high ≡ Some key.entry }
    {
        KeyRange {
            ground: self.ground,
            low: self.low,
            high: Some(key),
        }
    }

    fn is_above_low(self, key: &[u8]) -> bool
        requires { length key.now ≡ (K.model self.ground.kind.now).key_width }
        ensures { result ≡ above_low (K.model self.entry.ground.kind.now) (low_of self.entry.low)
            key.now }
    {
        match self.low {
            Bound::Unbounded => true,
            Bound::Included(a) => !is_below(self.ground.kind, key, a),
            Bound::Excluded(a) => is_below(self.ground.kind, a, key),
        }
    }

    fn is_below_high(self, key: &[u8]) -> bool
        requires { length key.now ≡ (K.model self.ground.kind.now).key_width }
        ensures { result ≡ below_high (K.model self.entry.ground.kind.now) (high_of self.entry.high)
            key.now }
    {
        match self.high {
            None => true,
            Some(b) => is_below(self.ground.kind, key, b),
        }
    }

    // Whether a key is valid and in the range.
    pub(crate) fn contains(self, key: &[u8]) -> bool
        requires { length key.now ≡ (K.model self.ground.kind.now).key_width }
        ensures { result ≡ good_key (K.model self.entry.ground.kind.now) (low_of self.entry.low)
            (high_of self.entry.high)
            key.now }
    {
        self.ground.kind.valid_key(key) & (self.is_above_low(key) & self.is_below_high(key))
    }
}
