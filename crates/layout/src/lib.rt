// The layout: which bytes stand on which page. It encodes page 0 and the pages of an empty slot and writes them through
// any store, takes pages apart, and names the ways in which a page can fail: the store refuses it, or it breaks a rule.
// Its definitions say what it means that pages hold an index and how a store is inspected; `laws` has what is proved of
// both. It uses the stores, the shape, the tree and the kinds and numbers of `records`.
#![tactic(auto)]

ghost use Rattle.std.specs.Prelude.{◌≡◌, ◌≤◌, length, MatchResult};
ghost use Rattle.stores.specs.Store.{NotThere};
ghost use Rattle.shape.specs.Made.{chosen};
ghost use Rattle.layout.specs.Pages.{header_page};
ghost use Rattle.layout.specs.Header.{header_front};
ghost use Rattle.layout.specs.Header.{header_of, empty_header, emptied};
ghost use Rattle.layout.specs.Made.{MadeHeader};

use shape::Shape;
use stores::{Page, PageStore};

pub mod faults;
pub mod halving;
pub mod header;
pub mod laws;
pub mod parts;
pub mod rows;

pub use faults::{OpenFault, PageFault, Rule};
pub use halving::Halving;
pub use header::{Header, HeaderNumbers};
pub use parts::{NodeParts, mark_word, node_parts};
pub use rows::{ENTRIES_AT, Row, copied};

impl Header {
    // The header of these numbers; none where a limit is broken.
    pub fn new(shape: Shape, numbers: HeaderNumbers) -> Option<Header>
        ensures { MadeHeader shape numbers result }
    {
        let HeaderNumbers {
            levels,
            used,
            root,
            changes,
        } = numbers;
        if !((1 <= levels) & (levels <= 10)) {
            return None;
        }
        if !((1 <= used) & (used <= 1024) & (root < used)) {
            return None;
        }
        Some(Header {
            shape,
            levels,
            used,
            root,
            changes,
        })
    }

    // The header of an index of one empty leaf node, in slot 0.
    pub fn empty(shape: Shape) -> Header
        ensures { header_of result ≡ empty_header (chosen shape) }
    {
        Header {
            shape,
            levels: 1,
            used: 1,
            root: 0,
            changes: 0,
        }
    }

    pub fn shape(&self) -> Shape
        ensures { result ≡ self.now.shape }
    {
        self.shape
    }

    // h: the nodes from the root to a leaf node, both counted.
    pub fn levels(&self) -> u8
        ensures { result ≡ (header_of self.now).levels }
    {
        self.levels
    }

    // The slots in use.
    pub fn used(&self) -> u16
        ensures { result ≡ (header_of self.now).used }
    {
        self.used
    }

    // The root's slot.
    pub fn root(&self) -> u16
        ensures { result ≡ (header_of self.now).root }
    {
        self.root
    }

    // n: the changes accepted since format.
    pub fn changes(&self) -> u32
        ensures { result ≡ (header_of self.now).changes }
    {
        self.changes
    }

    // The bytes of page 0 that are named.
    fn front(&self, kind: u8) -> [u8; 14]
        ensures { result ≡ header_front kind (header_of self.now) }
    {
        let [c1, c0] = self.shape.capacity().to_be_bytes();
        let [u1, u0] = self.used.to_be_bytes();
        let [r1, r0] = self.root.to_be_bytes();
        let [n3, n2, n1, n0] = self.changes.to_be_bytes();
        let (fanout, per_page, levels) = (self.shape.fanout(), self.shape.per_page(), self.levels);
        [
            kind, fanout, c1, c0, per_page, levels, u1, u0, r1, r0, n3, n2, n1, n0,
        ]
    }

    // Page 0, for a kind of this number.
    pub fn page(&self, kind: u8) -> Page
        ensures { result ≡ header_page kind (header_of self.now) }
    {
        copied(&self.front(kind))
    }
}

// Writes an index of one empty leaf node: head page, node page, then page 0. The page with the highest number goes
// first, so that a store that is too small is found before anything is written.
pub fn write_empty<S: PageStore>(store: &mut S, kind: u8, shape: Shape) -> Result<(), PageFault>
    ensures { MatchResult result
        (λ _. S.state store.new ≡ emptied kind (chosen shape) (S.state store.old))
        (λ f. (f ≡ PageFault.Store (record { page = 2; size = length (S.state store.old).pages }))
        × (length (S.state store.old).pages ≤ 2)
        × (S.state store.new ≡ S.state store.old)) }
{
    let blank = [0; 512];
    store.write(2, &blank)?;
    store.write(1, &blank)?;
    store.write(0, &Header::empty(shape).page(kind))?;
    Ok(())
}
