// The pages of a plan, byte by byte as docs/LAYOUT.md has them.
ghost use Rattle.std.specs.Prelude.{◌≡◌, ◌*◌, ◌<◌, IfOk, vec_len};

use crate::faults::{BuildFault, minus};
use crate::plan::{Item, Node, Plan};
use std::alloc::Global;
use std::iter;

// What leaf pages past the filled ones begin with: as an entry count, a mark word and a key it would break every rule.
const GARBAGE: [u8; 24] = [0xff; 24];

// The mark word: the bit worth 2^i marks entry i as a tombstone.
fn marks(items: &[Item]) -> u64 {
    items.iter().rev().fold(0u64, |word, item| {
        word.wrapping_mul(2)
            .wrapping_add(u64::from(item.value.is_none()))
    })
}

// The pages of a plan, as far as they are written.
#[derive(Drop)]
struct Image<'a> {
    plan: &'a Plan,
    heap: Global,
    area: Vec<u8>,
}

impl Image<'_> {
    // Fills a page that was begun at `start` with zeros.
    fn end_page(&mut self, start: usize) -> Result<(), BuildFault> {
        let end = start.checked_add(512).ok_or(BuildFault::TooLarge)?;
        if self.area.len() > end {
            return Err(BuildFault::PageFull);
        }
        self.area.resize(end, 0)?;
        Ok(())
    }

    // A number of two bytes, highest first.
    fn put_two(&mut self, n: u16) -> Result<(), BuildFault> {
        self.area.extend_from_slice(&n.to_be_bytes())?;
        Ok(())
    }

    fn put_key(&mut self, n: u32) -> Result<(), BuildFault> {
        let key = self.plan.wish.kind.key(self.heap, n)?;
        self.area.extend_from_slice(key.as_slice())?;
        Ok(())
    }

    // An entry; a tombstone's value is zeros.
    fn put_item(&mut self, item: &Item) -> Result<(), BuildFault> {
        self.put_key(item.key)?;
        let kind = self.plan.wish.kind;
        let value = match item.value {
            Some(n) => kind.value(self.heap, n)?,
            None => vec![in self.heap; 0; kind.value_width()]?,
        };
        self.area.extend_from_slice(value.as_slice())?;
        Ok(())
    }

    fn leaf_page(&mut self, items: &[Item]) -> Result<(), BuildFault> {
        let start = self.area.len();
        self.area.push(u8::try_from(items.len())?)?;
        self.area.extend_from_slice(&marks(items).to_be_bytes())?;
        for item in items {
            self.put_item(item)?;
        }
        self.end_page(start)
    }

    // A leaf page past the filled ones.
    fn garbage_page(&mut self) -> Result<(), BuildFault> {
        let start = self.area.len();
        self.area.extend_from_slice(&GARBAGE)?;
        self.end_page(start)
    }

    // The head page: how many leaf pages are filled, and the first key of each.
    fn head_page(&mut self, node: &Node) -> Result<(), BuildFault> {
        let start = self.area.len();
        let leaves = node.items.as_slice().chunks(self.plan.per_page()?);
        self.area.push(u8::try_from(leaves.len())?)?;
        for items in leaves {
            if let Some(first) = items.first() {
                self.put_key(first.key)?;
            }
        }
        self.end_page(start)
    }

    // The node page: children, entries, the children's slots, the s-keys.
    fn node_page(&mut self, node: &Node) -> Result<(), BuildFault> {
        let start = self.area.len();
        self.area.push(u8::try_from(node.children.len())?)?;
        self.put_two(u16::try_from(node.items.len())?)?;
        for child in node.children.iter() {
            self.put_two(u16::try_from(self.plan.slot(*child)?)?)?;
        }
        for key in node.s_keys.iter() {
            self.put_key(*key)?;
        }
        self.end_page(start)
    }

    // The pages of one slot; leaf pages past the filled ones hold garbage.
    fn slot_pages(&mut self, node: &Node) -> Result<(), BuildFault> {
        self.node_page(node)?;
        self.head_page(node)?;
        let leaf_pages = minus(self.plan.slot_pages()?, 2)?;
        let leaves = node.items.as_slice().chunks(self.plan.per_page()?);
        let filled = leaves.map(Some);
        for leaf in filled.chain(iter::repeat(None)).take(leaf_pages as usize) {
            match leaf {
                Some(items) => self.leaf_page(items)?,
                None => self.garbage_page()?,
            }
        }
        Ok(())
    }

    // Page 0.
    fn header_page(&mut self) -> Result<(), BuildFault> {
        let start = self.area.len();
        let wish = &self.plan.wish;
        self.area.push(wish.kind.number())?;
        self.area.push(wish.fanout)?;
        self.put_two(wish.capacity)?;
        self.area.push(wish.per_page)?;
        self.area.push(wish.levels)?;
        self.put_two(u16::try_from(self.plan.nodes.len())?)?;
        self.put_two(u16::try_from(self.plan.slot(0)?)?)?;
        self.area.extend_from_slice(&wish.changes.to_be_bytes())?;
        self.end_page(start)
    }
}

impl Plan {
    // E: the entries of a full leaf page, at least one.
    fn per_page(&self) -> Result<usize, BuildFault>
        ensures { IfOk result (λ n. 0 < n) }
    {
        match usize::from(self.wish.per_page) {
            0 => Err(BuildFault::TooLarge),
            n => Ok(n),
        }
    }

    // The bytes of a plain store of so many pages that holds the plan; pages of slots that are not used are zero.
    pub fn image(&self, heap: Global, pages: u32) -> Result<Vec<u8>, BuildFault>
        ensures { IfOk result (λ v. vec_len v ≡ 512 * pages) }
    {
        let mut image = Image {
            plan: self,
            heap,
            area: Vec::new(heap),
        };
        image.header_page()?;
        for node in self.nodes.iter().rev() {
            image.slot_pages(node)?;
        }
        let mut area = image.area;
        let wanted = 512 * pages as usize;
        if area.len() > wanted {
            return Err(BuildFault::TooFewPages);
        }
        area.resize(wanted, 0)?;
        Ok(area)
    }
}
