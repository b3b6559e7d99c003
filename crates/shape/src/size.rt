// The chosen numbers, with their limits as an invariant of the type.
ghost use Rattle.std.specs.Prelude.{◌≡◌, ◌*◌, ◌<◌, ◌≤◌};
ghost use Rattle.shape.specs.Shape.{ceiling};

#[derive(Clone, Copy, Debug, PartialEq, Eq)]
pub struct Shape {
    // f: the most children of a node
    pub(crate) fanout: u8,
    // σ: the most entries of a node
    pub(crate) capacity: u16,
    // E: the entries of a full leaf page
    pub(crate) per_page: u8,
    // the bytes of a record, key and value
    pub(crate) record_width: u16,
    ghost least: { 3 ≤ fanout },
    ghost most: { fanout ≤ 8 },
    ghost above: { fanout < capacity },
    ghost within: { capacity ≤ 256 },
    ghost some: { 1 ≤ per_page },
    ghost few: { per_page ≤ 64 },
    ghost room: { per_page * record_width ≤ 503 },
    ghost pages: { ceiling capacity per_page ≤ 16 },
}
