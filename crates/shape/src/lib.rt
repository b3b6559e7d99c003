// The shape of an index: how many children and entries a node has, how many entries a leaf page, and every size that
// follows from these. A `Shape` is made only within the limits, so whoever holds one divides and adds without a test.
// Its definitions use those of `records` for tests of numbers; its code uses nothing but the language.
#![tactic(auto)]

ghost use Rattle.std.specs.Prelude.{◌≡◌, ◌+◌, ◌*◌, ◌≤◌};
ghost use Rattle.shape.specs.Shape.{
  ceiling,
  batch_of,
  leaf_pages_of,
  slot_pages_of,
  least_children_of,
  changes_per_leaf_of,
  slots_of,
  work_bytes_of,
};
ghost use Rattle.shape.specs.Made.{asked, chosen, Made};

pub mod size;

pub use size::Shape;

// Three numbers that are handed in for a shape, of any size and not tested yet.
#[derive(Clone, Copy, Debug, PartialEq, Eq)]
pub struct ShapeNumbers {
    pub fanout: u64,
    pub capacity: u64,
    pub per_page: u64,
}

// The room for entries on a leaf page, in bytes.
pub const LEAF_ROOM: usize = 503;

// No store has more slots.
const MOST_SLOTS: u32 = 1024;

// The leaf pages that so many entries take.
fn pages_for(entries: u16, per_page: u16) -> u16
    requires { 1 ≤ per_page }
    ensures { result ≡ ceiling entries per_page }
{
    entries.div_ceil(per_page)
}

impl Shape {
    // The shape of these numbers, for records of so many bytes; none where a limit is broken.
    pub fn new(numbers: ShapeNumbers, record_width: usize) -> Option<Shape>
        ensures { Made (asked numbers) record_width result }
    {
        let ShapeNumbers {
            fanout,
            capacity,
            per_page,
        } = numbers;
        if !((3 <= fanout) & (fanout <= 8) & (fanout < capacity) & (capacity <= 256)) {
            return None;
        }
        if !((1 <= per_page) & (per_page <= 64) & (record_width <= LEAF_ROOM)) {
            return None;
        }
        let pages = pages_for(capacity as u16, per_page as u16);
        if (per_page as usize * record_width > LEAF_ROOM) | (pages > 16) {
            return None;
        }
        Some(Shape {
            fanout: fanout as u8,
            capacity: capacity as u16,
            per_page: per_page as u8,
            record_width: record_width as u16,
        })
    }

    // f: the most children of a node.
    pub fn fanout(&self) -> u8
        ensures { result ≡ (chosen self.now).fanout }
    {
        self.fanout
    }

    // σ: the most entries of a node.
    pub fn capacity(&self) -> u16
        ensures { result ≡ (chosen self.now).capacity }
    {
        self.capacity
    }

    // E: the entries of a full leaf page.
    pub fn per_page(&self) -> u8
        ensures { result ≡ (chosen self.now).per_page }
    {
        self.per_page
    }

    // q: how many entries one batch moves.
    pub fn batch(&self) -> u16
        ensures { result ≡ batch_of (chosen self.now) }
    {
        let most = self.capacity;
        most / (u16::from(self.fanout) + 1)
    }

    // L: the leaf pages of a slot.
    pub fn leaf_pages(&self) -> u16
        ensures { result ≡ leaf_pages_of (chosen self.now) }
    {
        pages_for(self.capacity, self.per_page.into())
    }

    // The leaf pages that so many entries of a node fill.
    pub fn pages_of(&self, entries: usize) -> usize
        ensures { result ≡ ceiling entries (chosen self.now).per_page }
    {
        entries.div_ceil(self.per_page.into())
    }

    // W: the pages of a slot.
    pub fn slot_pages(&self) -> u16
        ensures { result ≡ slot_pages_of (chosen self.now) }
    {
        2 + self.leaf_pages()
    }

    // u: the fewest children of an inner node that is not the root.
    pub fn least_children(&self) -> u16
        ensures { result ≡ least_children_of (chosen self.now) }
    {
        u16::from(self.fanout).div_ceil(2)
    }

    // g: every g accepted changes make room for at most one more leaf node.
    pub fn changes_per_leaf(&self) -> u16
        ensures { result ≡ changes_per_leaf_of (chosen self.now) }
    {
        1 + self.capacity - (self.capacity + self.batch()).div_ceil(2)
    }

    // N: the slots of a store of so many pages.
    pub fn slots(&self, pages: u32) -> u32
        ensures { result ≡ slots_of (chosen self.now) pages }
    {
        MOST_SLOTS.min(pages.saturating_sub(1) / u32::from(self.slot_pages()))
    }

    // The bytes of a record, key and value.
    pub fn record_width(&self) -> u16
        ensures { result ≡ self.now.record_width }
    {
        self.record_width
    }

    // The bytes of the work area that a change borrows.
    pub fn work_bytes(&self) -> u32
        ensures { result ≡ work_bytes_of (chosen self.now) self.now.record_width }
    {
        (2 * u32::from(self.capacity) + u32::from(self.batch()))
            * (u32::from(self.record_width) + 1)
    }
}
