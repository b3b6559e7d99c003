// Why a call is refused, and the five numbers that say so.
ghost use Rattle.std.specs.Prelude.{◌≡◌};
ghost use Rattle.index.specs.Refusals.{numbers_of, open_fault};
ghost use Rattle.index.specs.declared.faults.IndexFault.TheVariants.{Page};

use layout::{OpenFault, PageFault};

#[derive(Clone, Copy, Debug, PartialEq, Eq)]
pub enum IndexFault {
    // a change or a find while the index is closed
    Closed,
    // a shape out of its limits, given or on page 0
    ShapeLimits,
    // format on a store without the pages for page 0 and one slot
    StoreTooSmall,
    // page 0 has the number of another kind
    OtherKind,
    // a page that the store refused, or that breaks the layout
    Page(PageFault),
    // a key of the wrong length or invalid
    BadKey,
    // a value of the wrong length or invalid
    BadValue,
    // a work area that is too short
    ShortWorkArea,
    // a buffer that is too short for a value
    ShortBuffer,
    // the change may need more slots than are free
    NoFreeSlots,
    // the number of changes has no room on page 0 for one more
    TooManyChanges,
}

// Written out, as the next one: clauses name what they make, and a derived conversion has no ghost member.
impl From<PageFault> for IndexFault {
    ghost from_gives = { λ e r. r ≡ Page e };

    fn from(e: PageFault) -> IndexFault {
        IndexFault::Page(e)
    }
}

impl From<OpenFault> for IndexFault {
    ghost from_gives = { λ e r. r ≡ open_fault e };

    fn from(e: OpenFault) -> IndexFault {
        match e {
            OpenFault::OtherKind => IndexFault::OtherKind,
            OpenFault::ShapeLimits => IndexFault::ShapeLimits,
            OpenFault::Page(fault) => IndexFault::Page(fault),
        }
    }
}

// A refusal: why, and how many pages were touched before that was known.
#[derive(Clone, Copy, Debug, PartialEq, Eq)]
pub struct Refusal {
    pub fault: IndexFault,
    pub touches: u64,
}

// A refusal as numbers, for who reads no Rattle: these numbers are the interface, and so stay plain. The layer is 1 for
// the index, 2 for a page and 3 for the store.
#[derive(Clone, Copy, Debug, PartialEq, Eq)]
pub struct RefusalNumbers {
    pub number: u8,
    pub layer: u8,
    pub page: u32,
    pub detail: u32,
    pub touches: u64,
}

fn at_index(number: u8, touches: u64) -> RefusalNumbers
    ensures { result ≡ record { number = number; layer = 1; page = 0; detail = 0; touches = touches } }
{
    RefusalNumbers {
        number,
        layer: 1,
        page: 0,
        detail: 0,
        touches,
    }
}

impl Refusal {
    pub fn numbers(&self) -> RefusalNumbers
        ensures { result ≡ numbers_of self.now.fault self.now.touches }
    {
        let touches = self.touches;
        match self.fault {
            IndexFault::Closed => at_index(1, touches),
            IndexFault::ShapeLimits => at_index(2, touches),
            IndexFault::StoreTooSmall => at_index(3, touches),
            IndexFault::OtherKind => at_index(4, touches),
            IndexFault::Page(PageFault::Store(f)) => {
                RefusalNumbers {
                    number: 5,
                    layer: 3,
                    page: f.page,
                    detail: f.size,
                    touches,
                }
            }
            IndexFault::Page(PageFault::Layout { page, rule }) => {
                RefusalNumbers {
                    number: 6,
                    layer: 2,
                    page,
                    detail: rule.number().into(),
                    touches,
                }
            }
            IndexFault::BadKey => at_index(7, touches),
            IndexFault::BadValue => at_index(8, touches),
            IndexFault::ShortWorkArea => at_index(9, touches),
            IndexFault::ShortBuffer => at_index(10, touches),
            IndexFault::NoFreeSlots => at_index(11, touches),
            IndexFault::TooManyChanges => at_index(12, touches),
        }
    }
}
