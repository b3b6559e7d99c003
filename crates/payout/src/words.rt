// What is wrong with a store, in words.
use index::{IndexFault, Refusal};
use layout::{PageFault, Rule};
use std::fmt;
use stores::StoreFault;

// What a page does that breaks the rule, in the words of the window; so it is no Display of the rule, which is the
// layout's.
fn broken(rule: Rule) -> &'static str {
    match rule {
        Rule::HeaderNumbers =>
            "its levels, used slots or root slot are out of limits, or the rest is not zero",
        Rule::ChildCount => "a node has a number of children that does not fit its level",
        Rule::EntryCount => "a node has more entries than the shape allows",
        Rule::ChildSlots => "a node names a child that is no used slot or was named before",
        Rule::SKeys =>
            "the keys between a node's children are not valid, not ascending or out of the node's range",
        Rule::NodeRest => "bytes behind a node's keys are not zero",
        Rule::HeadPage =>
            "a head page counts its leaf pages wrongly, or bytes behind its keys are not zero",
        Rule::LeafCount => "a leaf page counts its entries wrongly",
        Rule::Marks => "a leaf page marks a removed ticket where none can be",
        Rule::Keys =>
            "tickets on a leaf page are not valid, not ascending, out of range or not as the head page says",
        Rule::Values => "a value on a leaf page is not valid, or bytes that should be zero are not",
        Rule::SlotsReached => "more slots are in use than the tree reaches",
    }
}

// A sentence on why a store was refused.
#[derive(Clone, Copy)]
pub(crate) struct Why(pub Refusal);

fn missing<W: fmt::Write>(f: &mut fmt::Formatter<W>, fault: StoreFault) -> fmt::Result {
    let StoreFault { page, size } = fault;
    if size == 0 {
        f.write_str("page 0 is not there: the file has no whole page of 512 bytes")
    } else {
        write!(
            f,
            "page {page} is not there: page 0 speaks of more slots than fit the file's {size} pages"
        )
    }
}

impl fmt::Display for Why {
    fn fmt<W: fmt::Write>(&self, f: &mut fmt::Formatter<W>) -> fmt::Result {
        match self.0.fault {
            IndexFault::OtherKind => f.write_str(
                "page 0: the store keeps another kind of record, not tickets",
            ),
            IndexFault::ShapeLimits => f.write_str(
                "page 0: the numbers of the shape are out of their limits",
            ),
            IndexFault::Page(PageFault::Store(fault)) => missing(f, fault),
            IndexFault::Page(PageFault::Layout { page, rule }) => {
                write!(f, "page {page}: {} (rule {})", broken(rule), rule.number())
            }
            IndexFault::Closed => f.write_str("the store is closed"),
            IndexFault::BadKey => f.write_str("the key is no ticket's"),
            IndexFault::ShortBuffer => f.write_str("the room for the value is too short"),
            _ => f.write_str("the call was refused"),
        }
    }
}

// The refusal's five numbers.
#[derive(Clone, Copy)]
pub(crate) struct Numbers(pub Refusal);

impl fmt::Display for Numbers {
    fn fmt<W: fmt::Write>(&self, f: &mut fmt::Formatter<W>) -> fmt::Result {
        let r = self.0.numbers();
        write!(f, "number {}, layer {}, ", r.number, r.layer)?;
        write!(
            f,
            "page {}, detail {}, touches {}",
            r.page, r.detail, r.touches
        )
    }
}
