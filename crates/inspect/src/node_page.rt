// The inspection of one node page: rules 2 to 6.
ghost use Rattle.std.specs.Prelude.{◌≡◌, ℕ, ◌+◌, ◌-◌, ◌*◌, ◌<◌, ◌≤◌, true, List, length, IfOk, Result};
ghost use Rattle.records.specs.Kind.{Kind};
ghost use Rattle.shape.specs.Made.{chosen};
ghost use Rattle.layout.specs.Nodes.{children_from, children_on};
ghost use Rattle.layout.specs.Nodes.{good_slots, good_s_keys, listed_after};
ghost use Rattle.layout.specs.Nodes.{inspect_leaf_node, inspect_inner_node};
ghost use Rattle.inspect.specs.Bounds.{low_of, high_of, told};
ghost use Rattle.inspect.specs.Listed.{Lists, SlotsBelow, GoodInner};

use crate::listed::Listed;
use crate::range::KeyRange;
use crate::rules::all_zero;
use layout::{PageFault, Rule, node_parts};
use records::RecordKind;
use shape::Shape;
use stores::Page;

// Whether n + 1 slots are used ones and none was listed before; if so, they are listed now.
pub(crate) fn list_slots(slots: &[u8], n: usize, used: usize, listed: &mut Listed) -> bool
    requires long { 2 * n + 2 ≤ length slots.now }
    requires few { used ≤ 1024 }
    ensures below { result ≡ true → (w : ℕ) (s_keys : List ℕ) → SlotsBelow used
        (children_from w n slots.now s_keys) }
    ensures lists { (w : ℕ) (s_keys before : List ℕ) → Lists listed.old before
        → (result ≡ good_slots used before (children_from w n slots.now s_keys))
        × (result ≡ true → Lists listed.new
        (listed_after before (children_from w n slots.now s_keys))) }
{
    let (pairs, _) = slots.as_chunks::<2>();
    for pair in &pairs[..n + 1] {
        let slot = u16::from_be_bytes(*pair) as usize;
        if slot >= used || !listed.list(slot) {
            return false;
        }
    }
    true
}

// Whether n s-keys are valid, ascend and lie in the range. The loop is that of a leaf page's keys: one for both would
// need a definition of its own, since one clause speaks of entries and the other of children.
fn are_good_s_keys<'a, K: RecordKind>(range: KeyRange<'a, K>, n: usize, keys: &'a [u8]) -> bool
    requires { n * (K.model range.ground.kind.now).key_width ≤ length keys.now }
    ensures { (slots : List ℕ) → result ≡ good_s_keys (K.model range.entry.ground.kind.now)
        (low_of range.entry.low)
        (high_of range.entry.high)
        (children_from (K.model range.entry.ground.kind.now).key_width n slots keys.now) }
{
    let w = range.ground.kind.key_width();
    let mut rest = range;
    for key in keys[..n * w].chunks_exact(w) {
        if !rest.contains(key) {
            return false;
        }
        rest = rest.past(key);
    }
    true
}

// Inspects the node page p of a leaf node, and tells the number of its entries.
#[tactic(auto, unfolding(layout::specs::Nodes::inspect_leaf_node))]
pub(crate) fn inspect_leaf_node(page: &Page, shape: Shape, p: u32) -> Result<usize, PageFault>
    ensures few { IfOk result (λ s. s ≤ (chosen shape).capacity) }
    ensures answer { (kind : Kind) (pages : ℕ → List ℕ) → pages p ≡ page.now
        → result ≡ inspect_leaf_node kind (chosen shape) pages p }
{
    let parts = node_parts(page);
    Rule::ChildCount.keep(parts.children == 0, p)?;
    Rule::EntryCount.keep(parts.entries <= shape.capacity() as usize, p)?;
    Rule::NodeRest.keep(all_zero(parts.rest), p)?;
    Ok(parts.entries)
}

// Inspects the node page p of an inner node, which has at least `fewest` children, and lists their slots.
#[tactic(auto, unfolding(layout::specs::Nodes::inspect_inner_node))]
pub(crate) fn inspect_inner_node<K: RecordKind>(
    range: KeyRange<'_, K>,
    page: &Page,
    fewest: usize,
    listed: &mut Listed,
    p: u32,
) -> Result<(), PageFault>
    requires { 1 ≤ fewest }
    ensures good { result ≡ Result.Ok tt → GoodInner (K.model range.entry.ground.kind.now).key_width
        (chosen range.entry.ground.shape) range.entry.ground.used fewest page.now }
    ensures answer { (pages : ℕ → List ℕ) (before : List ℕ) → pages p ≡ page.now → Lists
        listed.old before
        → (result ≡ told (inspect_inner_node (K.model range.entry.ground.kind.now)
        (chosen range.entry.ground.shape) pages range.entry.ground.used fewest before
        (low_of range.entry.low) (high_of range.entry.high) p))
        × (result ≡ Result.Ok tt → Lists listed.new (listed_after before
        (children_on (K.model range.entry.ground.kind.now).key_width page.now))) }
{
    let ground = range.ground;
    let parts = node_parts(page);
    let c = parts.children;
    let fits = (fewest <= c) & (c <= ground.shape.fanout() as usize);
    Rule::ChildCount.keep(fits, p)?;
    Rule::EntryCount.keep(parts.entries <= ground.shape.capacity() as usize, p)?;
    Rule::ChildSlots.keep(list_slots(parts.rest, c - 1, ground.used, listed), p)?;
    let keys = &parts.rest[2 * c..];
    Rule::SKeys.keep(are_good_s_keys(range, c - 1, keys), p)?;
    let rest = &keys[(c - 1) * ground.kind.key_width()..];
    Rule::NodeRest.keep(all_zero(rest), p)
}
