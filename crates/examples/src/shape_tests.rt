// Shapes: what they cost, and where they end.
use shape::{Shape, ShapeNumbers};
use std::test::Fail;

// The bytes of a ticket: a key of 8 and a value of 10.
const TICKET: usize = 18;

fn shape(fanout: u64, capacity: u64, per_page: u64) -> Option<Shape> {
    Shape::new(
        ShapeNumbers {
            fanout,
            capacity,
            per_page,
        },
        TICKET,
    )
}

// f, σ, E, then q, L, W, u, g
const COSTS: [((u64, u64, u64), (u16, u16, u16), (u16, u16)); 4] = [
    ((8, 256, 16), (28, 16, 18), (4, 115)),
    ((3, 6, 2), (1, 3, 5), (2, 3)),
    ((3, 4, 4), (1, 1, 3), (2, 2)),
    ((5, 100, 27), (16, 4, 6), (3, 43)),
];

#[test]
fn shapes_cost_what_they_cost(rt: HostRuntime) -> Result<(), Fail> {
    for ((f, s, e), (q, l, w), (u, g)) in COSTS {
        let Some(made) = shape(f, s, e) else {
            return Err(Fail::new("a shape within its limits is refused"));
        };
        assert_eq!(rt;
            (made.batch(), made.leaf_pages(), made.slot_pages()),
            (q, l, w)
        );
        assert_eq!(rt; (made.least_children(), made.changes_per_leaf()), (u, g));
    }
    Ok(())
}

// f, σ, E, and whether tickets may have that shape
const LIMITS: [(u64, u64, u64, bool); 16] = [
    (3, 3, 1, false),
    (3, 4, 1, true),
    (2, 6, 2, false),
    (9, 10, 2, false),
    (8, 8, 2, false),
    (8, 256, 16, true),
    (8, 257, 27, false),
    (3, 27, 27, true),
    (3, 28, 28, false),
    (3, 6, 0, false),
    (3, 6, 65, false),
    (8, 256, 15, false),
    (3, 16, 1, true),
    (3, 17, 1, false),
    (0, 0, 0, false),
    (u64::MAX, u64::MAX, u64::MAX, false),
];

#[test]
fn shapes_have_limits(rt: HostRuntime) {
    for (f, s, e, legal) in LIMITS {
        assert_eq!(rt; shape(f, s, e).is_some(), legal);
    }
}

#[test]
fn slots_leave_out_page_0(rt: HostRuntime) -> Result<(), Fail> {
    let Some(small) = shape(3, 6, 2) else {
        return Err(Fail::new("3 6 2"));
    };
    assert_eq!(rt; (small.slots(0), small.slots(1)), (0, 0));
    assert_eq!(rt; (small.slots(5), small.slots(6)), (0, 1));
    assert_eq!(rt; (small.slots(5120), small.slots(5121)), (1023, 1024));
    assert_eq!(rt; small.slots(65_535), 1024);
    assert_eq!(rt; small.work_bytes(), 247);
    Ok(())
}
