// The trees of the script.
use builder::{KindName, Wish};

// Tickets: a tree of three levels, small nodes, three children at the root.
pub(crate) const TICKETS: Wish = Wish {
    kind: KindName::Ticket,
    fanout: 3,
    capacity: 6,
    per_page: 2,
    levels: 3,
    children: [3, 2, 0, 0, 0, 0, 0, 0, 0],
    inner_entries: 5,
    leaf_entries: 4,
    first: 1000,
    stride: 2,
    bare: None,
    hollow: None,
    changes: 70,
};

// The store of the window: like the one above, with another day and with nodes without entries.
pub(crate) const WINDOW: Wish = Wish {
    leaf_entries: 6,
    first: 41_280,
    bare: Some(7),
    changes: 96,
    ..TICKETS
};

// Tickets with an s-key that is the low end of its node's range: the second inner node's first child has no range.
pub(crate) const HOLLOW: Wish = Wish {
    children: [2, 2, 0, 0, 0, 0, 0, 0, 0],
    inner_entries: 3,
    leaf_entries: 3,
    first: 99,
    hollow: Some(2),
    changes: 40,
    ..TICKETS
};

pub(crate) const LINES: Wish = Wish {
    kind: KindName::PoolLine,
    fanout: 4,
    capacity: 12,
    per_page: 4,
    levels: 3,
    children: [3, 2, 0, 0, 0, 0, 0, 0, 0],
    inner_entries: 9,
    leaf_entries: 10,
    first: 140,
    stride: 2,
    bare: None,
    hollow: None,
    changes: 300,
};

// Leaf pages of 64 entries, full.
pub(crate) const NARROW: Wish = Wish {
    kind: KindName::Narrow,
    fanout: 3,
    capacity: 70,
    per_page: 64,
    levels: 2,
    children: [3, 0, 0, 0, 0, 0, 0, 0, 0],
    inner_entries: 66,
    leaf_entries: 64,
    first: 65_500,
    stride: 3,
    bare: None,
    hollow: None,
    changes: 258,
};

pub(crate) const WIDEST: Wish = Wish {
    kind: KindName::Widest,
    fanout: 8,
    capacity: 9,
    per_page: 5,
    levels: 2,
    children: [3, 0, 0, 0, 0, 0, 0, 0, 0],
    inner_entries: 7,
    leaf_entries: 6,
    first: 250,
    stride: 2,
    bare: None,
    hollow: None,
    changes: 4_294_967_295,
};

// One leaf page of 64 entries, full, in the only node.
pub(crate) const LEAST: Wish = Wish {
    kind: KindName::Least,
    fanout: 3,
    capacity: 64,
    per_page: 64,
    levels: 1,
    children: [0, 0, 0, 0, 0, 0, 0, 0, 0],
    inner_entries: 0,
    leaf_entries: 64,
    first: 3,
    stride: 3,
    bare: None,
    hollow: None,
    changes: 64,
};

// Four levels, some nodes without entries, inner ones too.
pub(crate) const DEEP: Wish = Wish {
    kind: KindName::Least,
    fanout: 3,
    capacity: 5,
    per_page: 2,
    levels: 4,
    children: [2, 2, 3, 0, 0, 0, 0, 0, 0],
    inner_entries: 5,
    leaf_entries: 5,
    first: 6,
    stride: 3,
    bare: Some(4),
    hollow: None,
    changes: 128,
};
