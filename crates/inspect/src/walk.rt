// The walk over the nodes from the root: each node before its children, left to right.
ghost use Rattle.std.specs.Prelude.{◌≡◌, ℕ, ◌+◌, ◌-◌, ◌*◌, ◌<◌, ◌≤◌, List, length};
ghost use Rattle.stores.specs.Store.{page_at};
ghost use Rattle.shape.specs.Shape.{slot_pages_of, least_children_of};
ghost use Rattle.shape.specs.Made.{chosen};
ghost use Rattle.layout.specs.Nodes.{children_from};
ghost use Rattle.layout.specs.Walk.{walk as walked, walk_children};
ghost use Rattle.inspect.specs.Bounds.{low_of, high_of};
ghost use Rattle.inspect.specs.Listed.{Lists, SlotsBelow};
ghost use Rattle.inspect.specs.Walked.{nodes_of, nodes_of_all, Ended};

use crate::d_tree::inspect_d_tree;
use crate::listed::Listed;
use crate::node_page::{inspect_inner_node, inspect_leaf_node};
use crate::range::KeyRange;
use layout::{PageFault, node_parts};
use records::RecordKind;
use stores::PageStore;

// n + 1 children on a node page: the bytes of their slots and of the s-keys between them. One function alone takes
// them, so what holds of them stands in its clauses.
#[derive(Clone, Copy)]
pub(crate) struct Siblings<'a> {
    pub n: usize,
    pub slots: &'a [u8],
    pub keys: &'a [u8],
}

// Walks the node in a slot, which is h levels above the leaf nodes, and all nodes below it.
#[cycle(walk_walk_children)]
pub(crate) fn walk<S: PageStore, K: RecordKind>(
    store: &mut S,
    range: KeyRange<'_, K>,
    h: usize,
    fewest: usize,
    listed: &mut Listed,
    slot: usize,
) -> Result<(), PageFault>
    requires some { 1 ≤ fewest }
    requires used { slot < range.ground.used }
    requires there { range.ground.used * slot_pages_of (chosen range.ground.shape)
        < length (S.state store.old).pages }
    ensures pages { (S.state store.new).pages ≡ (S.state store.old).pages }
    ensures answer { (before : List ℕ) → Lists listed.old before
        → Ended (slot_pages_of (chosen range.entry.ground.shape)) (nodes_of h)
        (walked (K.model range.entry.ground.kind.now) (chosen range.entry.ground.shape)
        (page_at (S.state store.old).pages) range.entry.ground.used h
        fewest
        before (low_of range.entry.low) (high_of range.entry.high) slot)
        result listed.new (S.state store.old) (S.state store.new) }
{
    let shape = range.ground.shape;
    let p = (1 + slot * shape.slot_pages() as usize) as u32;
    let mut page = [0; 512];
    store.read(p, &mut page)?;
    if h == 0 {
        let entries = inspect_leaf_node(&page, shape, p)?;
        return inspect_d_tree(store, range, true, entries, p + 1);
    }
    inspect_inner_node(range, &page, fewest, listed, p)?;
    let parts = node_parts(&page);
    inspect_d_tree(store, range, false, parts.entries, p + 1)?;
    let siblings = Siblings {
        n: parts.children - 1,
        slots: parts.rest,
        keys: &parts.rest[2 * parts.children..],
    };
    walk_children(store, range, h - 1, listed, siblings)
}

// Walks n + 1 children, each h levels above the leaf nodes, in the ranges that the s-keys between them give. It calls
// itself for the children after the first, since the last one has no s-key behind it and a loop would take it apart.
#[cycle(walk_walk_children)]
fn walk_children<S: PageStore, K: RecordKind>(
    store: &mut S,
    range: KeyRange<'_, K>,
    h: usize,
    listed: &mut Listed,
    siblings: Siblings<'_>,
) -> Result<(), PageFault>
    requires few { siblings.n < 8 }
    requires there { range.ground.used * slot_pages_of (chosen range.ground.shape)
        < length (S.state store.old).pages }
    requires slots { 2 * siblings.n + 2 ≤ length siblings.slots.now }
    requires keys { siblings.n * (K.model range.ground.kind.now).key_width ≤ length siblings.keys.now }
    requires below { SlotsBelow range.ground.used
        (children_from (K.model range.ground.kind.now).key_width siblings.n
        siblings.slots.now
        siblings.keys.now) }
    ensures pages { (S.state store.new).pages ≡ (S.state store.old).pages }
    ensures answer { (before : List ℕ) → Lists listed.old before
        → Ended (slot_pages_of (chosen range.entry.ground.shape)) (nodes_of_all h)
        (walk_children
        (walked (K.model range.entry.ground.kind.now) (chosen range.entry.ground.shape)
        (page_at (S.state store.old).pages) range.entry.ground.used h
        (least_children_of (chosen range.entry.ground.shape)))
        before (low_of range.entry.low) (high_of range.entry.high)
        (children_from (K.model range.entry.ground.kind.now).key_width siblings.entry.n
        siblings.entry.slots.now
        siblings.entry.keys.now))
        result listed.new (S.state store.old) (S.state store.new) }
{
    let Siblings { n, slots, keys } = siblings;
    let fewest = range.ground.shape.least_children() as usize;
    let slot = u16::from_be_bytes([slots[0], slots[1]]) as usize;
    if n == 0 {
        return walk(store, range, h, fewest, listed, slot);
    }
    let w = range.ground.kind.key_width();
    let key = &keys[..w];
    walk(store, range.until(key), h, fewest, listed, slot)?;
    let others = Siblings {
        n: n - 1,
        slots: &slots[2..],
        keys: &keys[w..],
    };
    walk_children(store, range.starting(key), h, listed, others)
}
