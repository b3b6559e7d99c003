// The plain store: its places, its limit, its rest, its count.
use std::test::Fail;
use stores::{PageStore, PlainStore, ShiftingStore};

#[test]
fn places_are_whole_pages(rt: HostRuntime) {
    assert_eq!(rt; PlainStore::new(&mut []).size(), 0);
    assert_eq!(rt; PlainStore::new(&mut [0; 511]).size(), 0);
    assert_eq!(rt; PlainStore::new(&mut [0; 512]).size(), 1);
    assert_eq!(rt; PlainStore::new(&mut [0; 1535]).size(), 2);
}

#[test]
fn at_most_65535_pages(rt: HostRuntime) -> Result<(), Fail> {
    let mut area = vec![in rt.alloc(); 0u8; 65_536 * 512]?;
    assert_eq!(rt; PlainStore::new(area.as_mut_slice()).size(), 65_535);
    Ok(())
}

#[test]
fn pages_are_read_as_written(rt: HostRuntime) {
    let mut area = [7; 1200];
    let mut store = PlainStore::new(&mut area);
    let mut page = [0; 512];
    page[3] = 9;
    assert!(rt; store.write(1, &page).is_ok());
    let mut buffer = [1; 512];
    assert!(rt; store.read(0, &mut buffer).is_ok());
    assert_eq!(rt; (buffer[0], buffer[511]), (7, 7));
    assert!(rt; store.read(1, &mut buffer).is_ok());
    assert_eq!(rt; (buffer[0], buffer[3]), (0, 9));
    assert_eq!(rt; store.count(), 3);
}

#[test]
fn a_page_that_is_not_there_changes_nothing(rt: HostRuntime) -> Result<(), Fail> {
    let mut area = [7; 1200];
    let mut store = PlainStore::new(&mut area);
    let mut buffer = [1; 512];
    match store.read(2, &mut buffer) {
        Ok(()) => return Err(Fail::new("page 2 was read")),
        Err(fault) => assert_eq!(rt; (fault.page, fault.size), (2, 2)),
    }
    assert!(rt; store.write(2, &buffer).is_err() && store.write(u32::MAX, &buffer).is_err());
    assert_eq!(rt; (buffer[0], buffer[511]), (1, 1));
    assert_eq!(rt; store.count(), 0);
    assert_eq!(rt; (area[0], area[1023], area[1199]), (7, 7, 7));
    Ok(())
}

// Steps for both stores: true for a write, a page, and the byte that fills it.
const STEPS: [(bool, u32, u8); 12] = [
    (true, 0, 10),
    (true, 0, 11),
    (false, 0, 0),
    (true, 2, 12),
    (false, 3, 0),
    (true, 3, 13),
    (true, 1, 14),
    (false, 1, 0),
    (true, u32::MAX, 15),
    (true, 0, 16),
    (true, 2, 17),
    (false, 2, 0),
];

// One step; what it refused with, if it did.
fn step<S: PageStore>(
    store: &mut S,
    (write, p, byte): (bool, u32, u8),
    buffer: &mut [u8; 512],
) -> Option<(u32, u32)> {
    let done = if write {
        store.write(p, &[byte; 512])
    } else {
        store.read(p, buffer)
    };
    match done {
        Ok(()) => None,
        Err(fault) => Some((fault.page, fault.size)),
    }
}

// Whether page p is the same in both.
fn same_page<A: PageStore, B: PageStore>(a: &mut A, b: &mut B, p: u32) -> bool {
    let mut x = [1; 512];
    let mut y = [2; 512];
    a.read(p, &mut x).is_ok() && b.read(p, &mut y).is_ok() && x == y
}

#[test]
fn both_stores_answer_alike(rt: HostRuntime) -> Result<(), Fail> {
    let mut plain_area = vec![in rt.alloc(); 7u8; 3 * 512]?;
    let mut shifting_area = vec![in rt.alloc(); 7u8; 4 * 512]?;
    let mut plain = PlainStore::new(plain_area.as_mut_slice());
    let mut shifting = ShiftingStore::new(shifting_area.as_mut_slice());
    assert_eq!(rt; shifting.size(), plain.size());
    let mut x = [0; 512];
    let mut y = [0; 512];
    for s in STEPS {
        assert_eq!(rt; step(&mut plain, s, &mut x), step(&mut shifting, s, &mut y));
        assert!(rt; x == y, "buffers");
        for p in 0..3u32 {
            assert!(rt; same_page(&mut plain, &mut shifting, p), "pages");
        }
        assert_eq!(rt; plain.count(), shifting.count());
    }
    Ok(())
}

#[test]
fn a_write_goes_into_the_spare_place(rt: HostRuntime) {
    let mut area = [7; 2048];
    let mut store = ShiftingStore::new(&mut area);
    assert!(rt;
        store.write(0, &[10; 512]).is_ok(),
        "place 3 was spare, now place 0 is"
    );
    assert!(rt;
        store.write(2, &[12; 512]).is_ok(),
        "into place 0; now place 2 is spare"
    );
    assert!(rt;
        store.write(0, &[11; 512]).is_ok(),
        "into place 2; now place 3 is spare"
    );
    assert_eq!(rt; store.count(), 3);
    assert_eq!(rt;
        (area[0], area[512], area[1024], area[1536]),
        (12, 7, 11, 10)
    );
}

#[test]
fn a_shifting_store_has_a_place_more_than_pages(rt: HostRuntime) -> Result<(), Fail> {
    assert_eq!(rt; ShiftingStore::new(&mut [0; 511]).size(), 0);
    assert_eq!(rt; ShiftingStore::new(&mut [0; 1023]).size(), 0);
    assert_eq!(rt; ShiftingStore::new(&mut [0; 1024]).size(), 1);
    let mut area = vec![in rt.alloc(); 0u8; 2000 * 512]?;
    assert_eq!(rt; ShiftingStore::new(area.as_mut_slice()).size(), 1024);
    Ok(())
}
