// The inspection of a d-tree, which is the entries of one node: rule 7 on its head page, then one leaf page before the
// next.
ghost use Rattle.std.specs.Prelude.{◌≡◌, ℕ, ◌+◌, ◌-◌, ◌*◌, ◌<◌, ◌≤◌, ◌&&◌, length, take, drop, ◌==◌, slice_index};
ghost use Rattle.shape.specs.Shape.{ceiling};
ghost use Rattle.layout.specs.Checked.{zeros};
ghost use Rattle.stores.specs.Store.{page_at};
ghost use Rattle.layout.specs.LeafPages.{inspect_leaf_pages, inspect_d_tree};
ghost use Rattle.inspect.specs.Bounds.{low_of, high_of, told};
ghost use Rattle.stores.specs.Looked.{Looked};

use crate::leaf_page::inspect_leaf_page;
use crate::range::KeyRange;
use crate::rules::all_zero;
use layout::{PageFault, Row, Rule};
use records::RecordKind;
use stores::{Page, PageStore};

// Inspects n leaf pages with s entries from page p on; `firsts` are the bytes of the head page from the first of their
// keys on. It calls itself for the next page, which is compared with this page's last key where that stands: a loop
// would have to copy the key out.
fn inspect_leaf_pages<S: PageStore, K: RecordKind>(
    store: &mut S,
    range: KeyRange<'_, K>,
    leaf: bool,
    n: usize,
    s: usize,
    firsts: &[u8],
    p: u32,
) -> Result<(), PageFault>
    requires entries { n * range.ground.shape.per_page < s + range.ground.shape.per_page }
    requires keys { n * (K.model range.ground.kind.now).key_width ≤ length firsts.now }
    requires pages { p + n ≤ length (S.state store.old).pages }
    ensures answer { result ≡ told
        (inspect_leaf_pages (K.model range.entry.ground.kind.now) range.entry.ground.shape.per_page
        (page_at (S.state store.old).pages)
        leaf (high_of range.entry.high) n s (low_of range.entry.low) firsts.now p) }
    ensures looked { Looked (S.state store.old) n (S.state store.new) }
{
    if n == 0 {
        return Ok(());
    }
    let mut page = [0; 512];
    store.read(p, &mut page)?;
    let per_page = range.ground.shape.per_page() as usize;
    let t = per_page.min(s);
    let w = range.ground.kind.key_width();
    inspect_leaf_page(range, leaf, t, &firsts[..w], p, &page)?;
    let row = Row::of_entries(range.ground.kind, &page, t);
    let last = row.key(t - 1);
    let rest = s.saturating_sub(per_page);
    inspect_leaf_pages(
        store,
        range.past(last),
        leaf,
        n - 1,
        rest,
        &firsts[w..],
        p + 1,
    )
}

// Whether the head page counts so many leaf pages and is zero behind their first keys.
fn is_good_head<K: RecordKind>(kind: &K, head: &Page, filled: usize) -> bool
    requires { filled ≤ 16 }
    ensures { result ≡ ((slice_index head.now 0 == filled)
        && zeros (drop (1 + filled * (K.model kind.now).key_width) head.now)) }
{
    let bytes: &[u8] = head;
    (head[0] as usize == filled) & all_zero(&bytes[1 + filled * kind.key_width()..])
}

// Inspects the d-tree of s entries whose head page is p.
#[tactic(auto, unfolding(layout::specs::LeafPages::inspect_d_tree))]
pub(crate) fn inspect_d_tree<S: PageStore, K: RecordKind>(
    store: &mut S,
    range: KeyRange<'_, K>,
    leaf: bool,
    s: usize,
    p: u32,
) -> Result<(), PageFault>
    requires entries { s ≤ range.ground.shape.capacity }
    requires pages { p + 1 + ceiling s range.ground.shape.per_page ≤ length (S.state store.old).pages }
    ensures answer { result ≡ told
        (inspect_d_tree (K.model range.entry.ground.kind.now) range.entry.ground.shape.per_page
        (page_at (S.state store.old).pages)
        leaf (high_of range.entry.high) s (low_of range.entry.low) p) }
    ensures looked { Looked (S.state store.old) (1 + ceiling s range.entry.ground.shape.per_page)
        (S.state store.new) }
{
    let filled = range.ground.shape.pages_of(s);
    let mut head = [0; 512];
    store.read(p, &mut head)?;
    Rule::HeadPage.keep(is_good_head(range.ground.kind, &head, filled), p)?;
    inspect_leaf_pages(store, range, leaf, filled, s, &head[1..], p + 1)
}
