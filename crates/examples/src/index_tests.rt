// An index over a plain store: formatted, refused, closed, taken apart.
use index::{Index, Refusal, Status};
use records::Ticket;
use shape::ShapeNumbers;
use std::test::Fail;
use stores::{PageStore, PlainStore};

const SMALL: ShapeNumbers = ShapeNumbers {
    fanout: 3,
    capacity: 6,
    per_page: 2,
};

fn five(refusal: Refusal) -> (u8, u8, u32, u32, u64) {
    let n = refusal.numbers();
    (n.number, n.layer, n.page, n.detail, n.touches)
}

#[test]
fn format_writes_three_pages(rt: HostRuntime) -> Result<(), Fail> {
    let mut area = vec![in rt.alloc(); 255u8; 6 * 512]?;
    let mut index = Index::new(PlainStore::new(area.as_mut_slice()), Ticket);
    let Ok(done) = index.format(SMALL) else {
        return Err(Fail::new("format was refused"));
    };
    assert_eq!(rt; done.touches, 3);
    let (mut store, Ticket) = index.into_parts();
    let mut page = [1; 512];
    assert!(rt; store.read(0, &mut page).is_ok());
    assert_eq!(rt; (page[0], page[1], page[3], page[4]), (1, 3, 6, 2));
    assert_eq!(rt; (page[5], page[7], page[9], page[13]), (1, 1, 0, 0));
    assert!(rt; store.read(2, &mut page).is_ok());
    assert_eq!(rt; (page[0], page[511]), (0, 0));
    assert!(rt; store.read(3, &mut page).is_ok());
    assert_eq!(rt;
        (page[0], page[511]),
        (255, 255),
        "leaf pages keep their bytes"
    );
    Ok(())
}

#[test]
fn format_is_refused_and_leaves_the_state(rt: HostRuntime) -> Result<(), Fail> {
    let mut area = vec![in rt.alloc(); 0u8; 6 * 512]?;
    let mut index = Index::new(PlainStore::new(area.as_mut_slice()), Ticket);
    assert!(rt; index.format(SMALL).is_ok());
    match index.format(ShapeNumbers {
        fanout: 3,
        capacity: 3,
        per_page: 1,
    }) {
        Ok(_) => return Err(Fail::new("a shape without a batch")),
        Err(refusal) => assert_eq!(rt; five(refusal), (2, 1, 0, 0, 0)),
    }
    match index.format(ShapeNumbers {
        fanout: 3,
        capacity: 8,
        per_page: 2,
    }) {
        Ok(_) => return Err(Fail::new("six pages for page 0 and a slot of six")),
        Err(refusal) => assert_eq!(rt; five(refusal), (3, 1, 0, 0, 0)),
    }
    assert!(rt; matches!(index.status(), Status::Open(_)));
    assert_eq!(rt; index.close().touches, 0);
    assert_eq!(rt; index.close().touches, 0);
    assert!(rt; matches!(index.status(), Status::Closed));
    Ok(())
}
