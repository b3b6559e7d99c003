// The way of a key from the root down: the first entry met for it decides.
ghost use Rattle.std.specs.Prelude.{◌≡◌, ◌-◌, ◌*◌, ◌<◌, ◌≤◌, true, length, drop, is_ok, IfOk, Result};
ghost use Rattle.records.specs.Kind.{record_width};
ghost use Rattle.stores.specs.Store.{page_at};
ghost use Rattle.stores.specs.Looked.{Looked};
ghost use Rattle.shape.specs.Shape.{legal};
ghost use Rattle.shape.specs.Made.{chosen};
ghost use Rattle.tree.specs.Tree.{find, find_in};
ghost use Rattle.tree.specs.Keys.{key_below};
ghost use Rattle.layout.specs.Nodes.{children_from, child_count_on, entry_count_on};
ghost use Rattle.layout.specs.Descent.{Branching};
ghost use Rattle.layout.specs.Header.{header_of};
ghost use Rattle.layout.specs.Holds.{ByteTree, Stored, header_for, ValidKey, Holds};
ghost use Rattle.search.specs.Found.{BelongsTo, value_found};
ghost use Rattle.search.specs.Nodes.{may_have, NodeOf, GoesOn, StepAt, SteppedDown};

use crate::d_tree::{Saying, ValueBytes};
use crate::rows::partition_point;
use crate::sought::Sought;
use layout::{Header, NodeParts, PageFault, Row, Rule, node_parts};
use records::RecordKind;
use shape::{LEAF_ROOM, Shape};
use stores::{Page, PageStore};

// What one node says of a key: its value, that it is absent, or that the child in a slot has to say.
#[derive(Clone, Copy)]
pub(crate) enum Step {
    Found(ValueBytes),
    Absent,
    Child(usize),
}

// Whether a node that is h levels above the leaf nodes may have so many children, if f are the most.
fn may_have(h: usize, children: usize, f: usize) -> bool
    ensures { result ≡ may_have h children f }
{
    if h == 0 {
        children == 0
    } else {
        (2..=f).contains(&children)
    }
}

// The counts on a node page, tested by rules 2 and 3.
fn tested_node<'a>(
    page: &'a Page,
    shape: Shape,
    h: usize,
    p: u32,
) -> Result<NodeParts<'a>, PageFault>
    ensures parts { IfOk result (λ node. NodeOf page.now node) }
    ensures counts { IfOk result (λ node. (may_have h node.children (chosen shape).fanout ≡ true)
        × (node.entries ≤ (chosen shape).capacity)) }
    ensures fault { may_have h (child_count_on page.now) (chosen shape).fanout ≡ true
        → entry_count_on page.now ≤ (chosen shape).capacity → is_ok result ≡ true }
{
    let node = node_parts(page);
    let fits = may_have(h, node.children, shape.fanout() as usize);
    Rule::ChildCount.keep(fits, p)?;
    Rule::EntryCount.keep(node.entries <= shape.capacity() as usize, p)?;
    Ok(node)
}

impl<K: RecordKind> Sought<'_, K> {
    // The slot of the child that the key belongs to.
    fn child_for(&self, node: NodeParts<'_>) -> usize
        requires children { (1 ≤ node.children) × (node.children ≤ 8) }
        requires rest { length node.rest.now ≡ 509 }
        ensures { BelongsTo (K.model self.now.kind.now) self.now.key.now (children_from
            (K.model self.now.kind.now).key_width (node.entry.children - 1) node.entry.rest.now
            (drop (2 * node.entry.children) node.entry.rest.now)) result }
    {
        let NodeParts { children, rest, .. } = node;
        let s_keys = Row::of_keys(self.kind, &rest[2 * children..], children - 1);
        let i = partition_point(s_keys, |key| self.order(key).is_le());
        u16::from_be_bytes([rest[2 * i], rest[2 * i + 1]]) as usize
    }

    // The child of an inner node that has to say, if its slot is a used one: rule 4.
    fn step_down(&self, node: NodeParts<'_>, p: u32) -> Result<Step, PageFault>
        requires children { (1 ≤ node.children) × (node.children ≤ 8) }
        requires rest { length node.rest.now ≡ 509 }
        ensures { SteppedDown self.now.used (BelongsTo (K.model self.now.kind.now) self.now.key.now (children_from
            (K.model self.now.kind.now).key_width (node.entry.children - 1) node.entry.rest.now
            (drop (2 * node.entry.children) node.entry.rest.now))) result }
    {
        let child = self.child_for(node);
        Rule::ChildSlots.keep(child < self.used, p)?;
        Ok(Step::Child(child))
    }

    // What the node in a slot, which is h levels above the leaf nodes, says of the key.
    fn in_node<S: PageStore>(&self, store: &mut S, h: usize, slot: usize) -> Result<Step, PageFault>
        requires { slot < self.now.used }
        ensures looked { Looked (S.state store.old) 3 (S.state store.new) }
        ensures child { IfOk result (GoesOn self.now.used h) }
        ensures answer { (t : ByteTree h)
            → legal (record_width (K.model self.now.kind.now)) (chosen self.now.shape) ≡ true
            → Branching (K.model self.now.kind.now) (chosen self.now.shape)
            (page_at (S.state store.old).pages) self.now.used h t → t.slot ≡ slot
            → ValidKey (K.model self.now.kind.now) self.now.key.now
            → StepAt (K.model self.now.kind.now) (chosen self.now.shape)
            (page_at (S.state store.old).pages) self.now.used self.now.key.now h t result }
    {
        let p = (1 + slot * self.shape.slot_pages() as usize) as u32;
        let mut page = [0; 512];
        store.read(p, &mut page)?;
        let node = tested_node(&page, self.shape, h, p)?;
        let place = self.in_d_tree(store, node.entries, p + 1)?;
        match place.saying {
            Saying::Live(value) => Ok(Step::Found(value)),
            Saying::Tombstone => Ok(Step::Absent),
            Saying::Nothing if h == 0 => Ok(Step::Absent),
            Saying::Nothing => self.step_down(node, p),
        }
    }

    // What the tree of so many levels says of the key, from the node in slot `root` down.
    fn in_tree<S: PageStore>(
        &self,
        store: &mut S,
        levels: usize,
        root: usize,
    ) -> Result<Option<ValueBytes>, PageFault>
        requires some { 1 ≤ levels }
        requires used { root < self.now.used }
        ensures looked { Looked (S.state store.old) (3 * levels) (S.state store.new) }
        ensures answer { (t : ByteTree (levels - 1))
            → legal (record_width (K.model self.now.kind.now)) (chosen self.now.shape) ≡ true
            → Branching (K.model self.now.kind.now) (chosen self.now.shape)
            (page_at (S.state store.old).pages) self.now.used (levels - 1) t → t.slot ≡ root
            → ValidKey (K.model self.now.kind.now) self.now.key.now
            → value_found (K.model self.now.kind.now).value_width result
            ≡ Result.Ok (find (key_below (K.model self.now.kind.now)) (levels - 1) self.now.key.now t) }
    {
        let mut slot = root;
        for h in (0..levels).rev() {
            match self.in_node(store, h, slot)? {
                Step::Found(value) => return Ok(Some(value)),
                Step::Absent => return Ok(None),
                Step::Child(child) => slot = child,
            }
        }
        // a leaf node has no child to go on to
        unreachable!()
    }
}

// The value that the tree has for a key, if it has one. The header has the numbers of page 0.
pub fn find_value<S: PageStore, K: RecordKind>(
    store: &mut S,
    kind: &K,
    header: Header,
    key: &[u8],
) -> Result<Option<ValueBytes>, PageFault>
    ensures looked { Looked (S.state store.old) (3 * (header_of header).levels)
        (S.state store.new) }
    ensures answer { (s : Stored) → Holds (K.model kind.now) (S.state store.old).pages s
        → header_of header ≡ header_for s → ValidKey (K.model kind.now) key.now
        → value_found (K.model kind.now).value_width result
        ≡ Result.Ok (find_in (key_below (K.model kind.now)) s.index key.now) }
{
    let shape = header.shape();
    // no index that was formatted or opened for this kind has such a header
    let fits = shape.per_page() as usize * kind.record_width() <= LEAF_ROOM;
    Rule::HeaderNumbers.keep(fits, 0)?;
    if key.len() != kind.key_width() {
        return Ok(None);
    }
    let sought = Sought {
        kind,
        key,
        shape,
        used: header.used() as usize,
    };
    let (levels, root) = (header.levels() as usize, header.root() as usize);
    sought.in_tree(store, levels, root)
}
