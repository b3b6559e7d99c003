// The numbers of page 0 beside the kind's, with their limits as an invariant of the type.
ghost use Rattle.std.specs.Prelude.{◌<◌, ◌≤◌};

use shape::Shape;

#[derive(Clone, Copy, Debug, PartialEq, Eq)]
pub struct Header {
    pub(crate) shape: Shape,
    // h: the nodes from the root to a leaf node, both counted
    pub(crate) levels: u8,
    // the slots in use, which are the lowest
    pub(crate) used: u16,
    pub(crate) root: u16,
    // n: the changes accepted since format
    pub(crate) changes: u32,
    ghost standing: { 1 ≤ levels },
    ghost shallow: { levels ≤ 10 },
    ghost present: { root < used },
    ghost few: { used ≤ 1024 },
}

// The numbers of page 0 beside the kind's and the shape's, not tested yet.
#[derive(Clone, Copy, Debug, PartialEq, Eq)]
pub struct HeaderNumbers {
    pub levels: u8,
    pub used: u16,
    pub root: u16,
    pub changes: u32,
}
