// Pages taken apart, whatever bytes they hold.
ghost use Rattle.std.specs.Prelude.{◌≡◌, ◌<◌, drop};
ghost use Rattle.layout.specs.LeafPages.{marks_on};
ghost use Rattle.layout.specs.Nodes.{child_count_on, entry_count_on};

use stores::Page;

// A node page taken apart: the number of children, the number of entries, and the bytes behind them.
#[derive(Clone, Copy, Debug, PartialEq, Eq)]
pub struct NodeParts<'a> {
    pub children: usize,
    pub entries: usize,
    pub rest: &'a [u8],
}

pub fn node_parts<'a>(page: &'a Page) -> NodeParts<'a>
    ensures children { (result.children ≡ child_count_on page.now) × (result.children < 256) }
    ensures entries { result.entries ≡ entry_count_on page.now }
    ensures rest { result.rest.now ≡ drop 3 page.now }
{
    let bytes: &[u8] = page;
    let [c, s1, s0, rest @ ..] = bytes else {
        return unreachable();
    };
    NodeParts {
        children: (*c).into(),
        entries: u16::from_be_bytes([*s1, *s0]).into(),
        rest,
    }
}

// The mark word of a leaf page: the bit worth 2^i marks entry i as a tombstone.
pub fn mark_word(page: &Page) -> u64
    ensures { result ≡ marks_on page.now }
{
    u64::from_be_bytes([
        page[1], page[2], page[3], page[4], page[5], page[6], page[7], page[8],
    ])
}
