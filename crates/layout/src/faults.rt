// How a page can fail.
ghost use Rattle.std.specs.Prelude.{◌≡◌, true, false, MatchResult};
ghost use Rattle.layout.specs.Faults.{rule_number};
ghost use Rattle.layout.specs.declared.faults.OpenFault.TheVariants.{Page};
ghost use Rattle.layout.specs.declared.faults.PageFault.TheVariants.{Store};

use stores::StoreFault;

// The rules of the layout, in the order in which they are tested.
#[derive(Clone, Copy, Debug, PartialEq, Eq)]
pub enum Rule {
    // page 0: levels, used slots, root slot, and zeros behind the numbers
    HeaderNumbers = 1,
    // node page: the number of children fits the level
    ChildCount = 2,
    // node page: at most so many entries as the shape says
    EntryCount = 3,
    // node page: the slots of the children are used ones, each listed once
    ChildSlots = 4,
    // node page: the s-keys are valid, ascend and lie in the node's range
    SKeys = 5,
    // node page: zeros behind the s-keys
    NodeRest = 6,
    // head page: the number of filled leaf pages, and zeros behind the keys
    HeadPage = 7,
    // leaf page: its number of entries
    LeafCount = 8,
    // leaf page: the mark word marks only entries that are there, and none in a leaf node
    Marks = 9,
    // leaf page: the keys are valid, ascend and lie in range, the first as on the head page
    Keys = 10,
    // leaf page: live values are valid, a tombstone's and the rest are zero
    Values = 11,
    // page 0: as many slots were reached as are used
    SlotsReached = 12,
}

impl Rule {
    // The rule's number, 1 to 12.
    pub fn number(&self) -> u8
        ensures { result ≡ rule_number self.now }
    {
        *self as u8
    }

    // The page keeps the rule if the test holds.
    pub fn keep(self, holds: bool, page: u32) -> Result<(), PageFault>
        ensures { MatchResult result
            (λ _. holds ≡ true)
            (λ f. (holds ≡ false) × (f ≡ PageFault.Layout page self)) }
    {
        if holds {
            Ok(())
        } else {
            Err(PageFault::Layout { page, rule: self })
        }
    }
}

#[derive(Clone, Copy, Debug, PartialEq, Eq)]
pub enum PageFault {
    // the store has no such page
    Store(StoreFault),
    // the page breaks a rule of the layout
    Layout { page: u32, rule: Rule },
}

// Written out, as the next one: clauses name what they make, and a derived conversion has no ghost member.
impl From<StoreFault> for PageFault {
    ghost from_gives = { λ e r. r ≡ Store e };

    fn from(e: StoreFault) -> PageFault {
        PageFault::Store(e)
    }
}

// Why a store is not opened.
#[derive(Clone, Copy, Debug, PartialEq, Eq)]
pub enum OpenFault {
    // page 0 has the number of another kind
    OtherKind,
    // page 0 has a shape out of its limits
    ShapeLimits,
    // a page that the store has not, or that breaks a rule
    Page(PageFault),
}

impl From<PageFault> for OpenFault {
    ghost from_gives = { λ e r. r ≡ Page e };

    fn from(e: PageFault) -> OpenFault {
        OpenFault::Page(e)
    }
}
