// The inspection of one leaf page: rules 8 to 11.
ghost use Rattle.std.specs.Prelude.{◌≡◌, ◌+◌, ◌*◌, ◌≤◌, length, take, drop};
ghost use Rattle.std.specs.Slice.Iter.{chunks_exact_rest, chunks_exact_size};
ghost use Rattle.records.specs.Kind.{record_width};
ghost use Rattle.layout.specs.Checked.{zeros};
ghost use Rattle.layout.specs.LeafPages.{raw_entries_on, good_marks, good_keys, good_first, good_value};
ghost use Rattle.layout.specs.LeafPages.{good_values, inspect_leaf_page};
ghost use Rattle.inspect.specs.Bounds.{low_of, high_of, told};

use crate::range::KeyRange;
use crate::rules::all_zero;
use layout::{ENTRIES_AT, PageFault, Row, Rule, mark_word};
use records::RecordKind;
use std::slice::ChunksExact;
use stores::Page;

// A leaf page that is to have so many entries, with keys in a range.
#[derive(Drop)]
pub(crate) struct LeafPage<'a, K: RecordKind> {
    pub range: KeyRange<'a, K>,
    pub page: &'a Page,
    pub count: usize,
    ghost whole: { length page.now ≡ 512 },
    ghost room: { 9 + count * record_width (K.model range.ground.kind.now) ≤ 512 },
}

// No bit is set at or above place t, and none at all in a leaf node.
fn are_good_marks(leaf: bool, t: u32, marks: u64) -> bool
    requires { t ≤ 64 }
    ensures { result ≡ good_marks leaf t marks }
{
    if leaf {
        marks == 0
    } else {
        64 - marks.leading_zeros() <= t
    }
}

fn is_good_value<K: RecordKind>(kind: &K, marked: bool, value: &[u8]) -> bool
    ensures { result ≡ good_value (K.model kind.now) marked value.now }
{
    if marked {
        all_zero(value)
    } else {
        kind.valid_value(value)
    }
}

impl<'a, K: RecordKind> LeafPage<'a, K> {
    // The bytes of the entries, one by one.
    fn entries(&self) -> ChunksExact<'a, u8>
        ensures rest { chunks_exact_rest result
            ≡ take (self.now.count * record_width (K.model self.now.range.ground.kind.now))
            (drop 9 self.now.page.now) }
        ensures size { chunks_exact_size result ≡ record_width (K.model self.now.range.ground.kind.now) }
    {
        let width = self.range.ground.kind.record_width();
        let page = self.page;
        let bytes: &[u8] = page;
        bytes[ENTRIES_AT..ENTRIES_AT + self.count * width].chunks_exact(width)
    }

    // Whether the keys are valid, ascend and lie in the range.
    fn has_good_keys(&self) -> bool
        ensures { result ≡ good_keys (K.model self.now.range.ground.kind.now)
            (low_of self.now.range.low) (high_of self.now.range.high)
            (raw_entries_on (K.model self.now.range.ground.kind.now) self.now.count self.now.page.now) }
    {
        let w = self.range.ground.kind.key_width();
        let mut rest = self.range;
        for entry in self.entries() {
            let (key, _) = entry.split_at(w);
            if !rest.contains(key) {
                return false;
            }
            rest = rest.past(key);
        }
        true
    }

    // Whether live values are valid and those of tombstones zero.
    fn has_good_values(&self) -> bool
        ensures { result ≡ good_values (K.model self.now.range.ground.kind.now)
            (raw_entries_on (K.model self.now.range.ground.kind.now) self.now.count self.now.page.now) }
    {
        let kind = self.range.ground.kind;
        let mut marks = mark_word(self.page);
        let w = kind.key_width();
        for entry in self.entries() {
            let (_, value) = entry.split_at(w);
            if !is_good_value(kind, marks % 2 == 1, value) {
                return false;
            }
            marks /= 2;
        }
        true
    }

    // Whether the first key is the one that the head page names.
    fn begins_with(&self, first: &[u8]) -> bool
        ensures { result ≡ good_first first.now
            (raw_entries_on (K.model self.now.range.ground.kind.now) self.now.count self.now.page.now) }
    {
        let row = Row::of_entries(self.range.ground.kind, self.page, self.count);
        self.count == 0 || row.key(0) == first
    }

    // Whether the bytes behind the entries are zero.
    fn ends_in_zeros(&self) -> bool
        ensures { result ≡ zeros (drop (9 + self.now.count * record_width
            (K.model self.now.range.ground.kind.now)) self.now.page.now) }
    {
        let page = self.page;
        let bytes: &[u8] = page;
        all_zero(&bytes[ENTRIES_AT + self.count * self.range.ground.kind.record_width()..])
    }
}

// Inspects page p, which is to have t entries; `first` is the key that the head page names, `leaf` whether the node is
// a leaf node.
#[tactic(auto, unfolding(layout::specs::LeafPages::inspect_leaf_page))]
pub(crate) fn inspect_leaf_page<'a, K: RecordKind>(
    range: KeyRange<'a, K>,
    leaf: bool,
    t: usize,
    first: &[u8],
    p: u32,
    page: &'a Page,
) -> Result<(), PageFault>
    requires { t ≤ range.ground.shape.per_page }
    ensures { result ≡ told (inspect_leaf_page (K.model range.entry.ground.kind.now) leaf t
        (low_of range.entry.low)
        (high_of range.entry.high)
        first.now p page.now) }
{
    Rule::LeafCount.keep(page[0] as usize == t, p)?;
    let marks = are_good_marks(leaf, t as u32, mark_word(page));
    Rule::Marks.keep(marks, p)?;
    let leaf_page = LeafPage {
        range,
        page,
        count: t,
    };
    let keys = leaf_page.has_good_keys() & leaf_page.begins_with(first);
    Rule::Keys.keep(keys, p)?;
    let values = leaf_page.has_good_values() & leaf_page.ends_in_zeros();
    Rule::Values.keep(values, p)
}
