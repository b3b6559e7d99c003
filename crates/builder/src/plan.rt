// The plan of a tree: every node with its children, s-keys and entries, all as numbers.
ghost use Rattle.std.specs.Prelude.{◌≡◌, ◌+◌, ◌-◌, ◌*◌, ◌/◌, IfOk, vec_len};
ghost use Rattle.builder.specs.Plans.{entry_of, said_by, slot_pages_of};

use crate::faults::{BuildFault, counted, divided, minus, plus, times};
use crate::kinds::KindName;
use std::alloc::Global;
use std::ops::Range;

// How large a tree is to be.
#[derive(Clone, Copy)]
pub struct Wish {
    pub kind: KindName,
    // f, σ and E
    pub fanout: u8,
    pub capacity: u16,
    pub per_page: u8,
    // h: the levels from the root to the leaf nodes, both counted; a wish of none is one too
    pub levels: u8,
    // the children of a node, by its depth; the lowest level has none. The nine places are the wish's own, so that a plan
    // lends nothing and a caller may hand it on
    pub children: [u8; 9],
    pub inner_entries: u32,
    pub leaf_entries: u32,
    // the number of the first key, and how far the keys in a leaf node stand apart
    pub first: u32,
    pub stride: u32,
    // every so many nodes one has no entries
    pub bare: Option<u32>,
    // a leaf node whose range is empty, so that the s-key at its right is the low end of its parent's range
    pub hollow: Option<u32>,
    pub changes: u32,
}

// An entry: the number of its key, and that of its value, none for a tombstone.
#[derive(Clone, Copy)]
pub struct Item {
    pub key: u32,
    pub value: Option<u32>,
}

#[derive(Drop)]
pub struct Node {
    pub depth: u8,
    // the children by their places in the plan, since a page names a child by its slot, which its place gives
    pub children: Vec<u32>,
    pub s_keys: Vec<u32>,
    pub items: Vec<Item>,
}

// The nodes level by level from the root, each level from left to right.
#[derive(Drop)]
pub struct Plan {
    pub wish: Wish,
    pub nodes: Vec<Node>,
}

impl Wish {
    // The levels above the lowest.
    fn inner_levels(&self) -> usize {
        usize::from(self.levels).saturating_sub(1)
    }

    // The children of a node of this depth.
    fn fan(&self, depth: usize) -> Result<u32, BuildFault> {
        if depth >= self.inner_levels() {
            return Ok(0);
        }
        let fan = self.children.get(depth).ok_or(BuildFault::Missing)?;
        Ok(u32::from(*fan))
    }

    // The leaf nodes below a node of this depth.
    fn leaves_below(&self, depth: usize) -> Result<u32, BuildFault> {
        let fans = self.children.iter().take(self.inner_levels());
        fans.skip(depth)
            .try_fold(1, |leaves, fan| times(leaves, u32::from(*fan)))
    }

    fn is_bare(&self, place: u32) -> bool {
        self.bare
            .is_some_and(|every| every > 0 && place % every == every - 1)
    }
}

// A level: how many nodes it has, the place of its first one in the plan, and the children and the leaf nodes below
// each of them.
#[derive(Clone, Copy)]
struct Level {
    depth: u8,
    width: u32,
    first: u32,
    fan: u32,
    leaves: u32,
}

fn level_list(heap: Global, wish: &Wish) -> Result<Vec<Level>, BuildFault> {
    let mut levels = Vec::new(heap);
    let mut width = 1;
    let mut first = 0;
    for depth in 0..wish.levels {
        let leaves = wish.leaves_below(usize::from(depth))?;
        let behind = plus(first, width)?;
        let fan = wish.fan(usize::from(depth))?;
        levels.push(Level {
            depth,
            width,
            first,
            fan,
            leaves,
        })?;
        first = behind;
        width = times(width, fan)?;
    }
    Ok(levels)
}

fn start_list(heap: Global, wish: &Wish) -> Result<Vec<u32>, BuildFault> {
    let mut starts = Vec::new(heap);
    let mut start = wish.first;
    let span = times(wish.leaf_entries, wish.stride)?;
    for leaf in 0..wish.leaves_below(0)? {
        starts.push(start)?;
        if wish.hollow != Some(leaf) {
            start = plus(start, span)?;
        }
    }
    starts.push(start)?;
    Ok(starts)
}

// What the levels of a wish are, and where the range of each leaf node starts, with the end of the last.
#[derive(Drop)]
struct Ground<'a> {
    heap: Global,
    wish: &'a Wish,
    levels: Vec<Level>,
    starts: Vec<u32>,
}

impl<'a> Ground<'a> {
    fn new(heap: Global, wish: &'a Wish) -> Result<Ground<'a>, BuildFault> {
        Ok(Ground {
            heap,
            wish,
            levels: level_list(heap, wish)?,
            starts: start_list(heap, wish)?,
        })
    }
}

impl Ground<'_> {
    // Where the range of node k of a level starts; that of the node behind the last is the end.
    fn start(&self, level: Level, k: u32) -> Result<u32, BuildFault> {
        let leaf = times(k, level.leaves)?;
        self.starts
            .get(leaf as usize)
            .copied()
            .ok_or(BuildFault::Missing)
    }

    fn leaf_items(&self, range: Range<u32>) -> Result<Vec<Item>, BuildFault> {
        let mut items = Vec::new(self.heap);
        for i in 0..self.wish.leaf_entries {
            let key = plus(range.start, times(i, self.wish.stride)?)?;
            if key < range.end {
                items.push(Item {
                    key,
                    value: Some(key),
                })?;
            }
        }
        Ok(items)
    }

    // Entries spread over the range of an inner node, every third a tombstone; values differ from those of older
    // entries.
    fn inner_items(&self, depth: u8, range: Range<u32>) -> Result<Vec<Item>, BuildFault> {
        let mut items = Vec::new(self.heap);
        let room = minus(range.end, range.start)?;
        let many = self.wish.inner_entries.min(room);
        for i in 0..many {
            let key = plus(range.start, divided(times(i, room)?, many)?)?;
            let newer = plus(times(key, 10)?, 1 + u32::from(depth))?;
            let value = if i % 3 == 0 { None } else { Some(newer) };
            items.push(Item { key, value })?;
        }
        Ok(items)
    }

    // Node k of a level.
    fn node(&self, level: Level, k: u32) -> Result<Node, BuildFault> {
        let place = plus(level.first, k)?;
        let range = self.start(level, k)?..self.start(level, plus(k, 1)?)?;
        let mut node = Node {
            depth: level.depth,
            children: Vec::new(self.heap),
            s_keys: Vec::new(self.heap),
            items: Vec::new(self.heap),
        };
        let below = self.levels.get(usize::from(level.depth) + 1);
        if let Some(below) = below {
            let first = times(k, level.fan)?;
            self.list_children(&mut node, *below, first..plus(first, level.fan)?)?;
        }
        if !self.wish.is_bare(place) {
            node.items = match below {
                Some(_) => self.inner_items(level.depth, range)?,
                None => self.leaf_items(range)?,
            };
        }
        Ok(node)
    }

    // The children of a node, by their numbers on the level below.
    fn list_children(
        &self,
        node: &mut Node,
        below: Level,
        children: Range<u32>,
    ) -> Result<(), BuildFault> {
        for child in children.clone()? {
            node.children.push(plus(below.first, child)?)?;
        }
        for child in children.skip(1) {
            node.s_keys.push(self.start(below, child)?)?;
        }
        Ok(())
    }
}

// The first entry of a key.
fn entry_of(items: &[Item], key: u32) -> Option<Item>
    ensures { result ≡ entry_of key items.now }
{
    items.iter().copied().find(|item| item.key == key)
}

impl Plan {
    // The plan of a wish.
    pub fn new(heap: Global, wish: Wish) -> Result<Plan, BuildFault>
        ensures { IfOk result (λ p. p.wish ≡ wish) }
    {
        let ground = Ground::new(heap, &wish)?;
        let mut nodes = Vec::new(heap);
        for level in ground.levels.iter() {
            for k in 0..level.width {
                nodes.push(ground.node(*level, k)?)?;
            }
        }
        Ok(Plan { wish, nodes })
    }

    // What a find must answer for the key of this number: the number of its value, or none. The highest node that has
    // an entry for the key decides; s-keys and ranges are not asked. It is a loop, since the proof by `find_map`
    // did not close: the library has no lemma on it for lists.
    pub fn says(&self, key: u32) -> Option<u32>
        ensures { result ≡ said_by key self.now.nodes.items }
    {
        for node in self.nodes.iter() {
            if let Some(item) = entry_of(node.items.as_slice(), key) {
                return item.value;
            }
        }
        None
    }

    // The slot of a node: the last node has slot 0, the root the last slot.
    pub fn slot(&self, place: u32) -> Result<u32, BuildFault>
        ensures { IfOk result (λ s. s + place + 1 ≡ vec_len self.now.nodes) }
    {
        minus(minus(counted(self.nodes.len())?, 1)?, place)
    }

    // W: the pages of a slot. Rounded up by hand: the library's quotient asks that E is not 0, and `divided` tells it.
    pub fn slot_pages(&self) -> Result<u32, BuildFault>
        ensures { IfOk result (λ w. w ≡ slot_pages_of self.now.wish) }
    {
        let (most, each) = (u32::from(self.wish.capacity), u32::from(self.wish.per_page));
        plus(2, divided(plus(most, each.saturating_sub(1))?, each)?)
    }

    // The node page of a node; its head page and its leaf pages follow.
    pub fn node_page(&self, place: u32) -> Result<u32, BuildFault>
        ensures { IfOk result (λ p.
            p ≡ 1 + (vec_len self.now.nodes - (place + 1)) * slot_pages_of self.now.wish) }
    {
        let slot = self.slot(place)?;
        let pages = self.slot_pages()?;
        plus(1, times(slot, pages)?)
    }
}
