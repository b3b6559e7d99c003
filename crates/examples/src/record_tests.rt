// Tickets: which keys and values are valid, and in which order keys stand.
use limit_kinds::{Least, Limit, Narrow, Widest};
use records::{PoolLine, RecordKind, Ticket};
use std::cmp::Ordering;

fn key(serial: u32, course: u16, day: u16) -> [u8; 8] {
    let s = serial.to_be_bytes();
    let c = course.to_be_bytes();
    let d = day.to_be_bytes();
    [s[0], s[1], s[2], s[3], c[0], c[1], d[0], d[1]]
}

// serial, course, day, and whether the key is valid
const KEYS: [(u32, u16, u16, bool); 10] = [
    (1, 1, 1, true),
    (99_999_999, 999, 365, true),
    (1, 1, 0, false),
    (1, 1, 366, false),
    (0, 1, 1, false),
    (100_000_000, 1, 1, false),
    (1, 0, 1, false),
    (1, 1000, 1, false),
    (u32::MAX, u16::MAX, u16::MAX, false),
    (0, 0, 0, false),
];

#[test]
fn keys_have_limits(rt: HostRuntime) {
    for (serial, course, day, valid) in KEYS {
        assert_eq!(rt; Ticket.valid_key(&key(serial, course, day)), valid);
    }
    assert!(rt; !Ticket.valid_key(&[0, 0, 0, 1, 0, 1, 0]));
    assert!(rt; !Ticket.valid_key(&[]));
}

// pool, the three runners, and whether such a bet is valid
const BETS: [(u8, u8, u8, u8, bool); 24] = [
    (1, 1, 0, 0, true),
    (2, 40, 0, 0, true),
    (3, 7, 0, 0, true),
    (1, 0, 0, 0, false),
    (2, 41, 0, 0, false),
    (3, 1, 2, 0, false),
    (1, 1, 0, 2, false),
    (4, 3, 7, 0, true),
    (4, 7, 3, 0, false),
    (4, 3, 3, 0, false),
    (4, 3, 0, 0, false),
    (4, 3, 7, 9, false),
    (5, 7, 3, 0, true),
    (5, 3, 7, 0, true),
    (5, 3, 3, 0, false),
    (5, 3, 7, 9, false),
    (6, 9, 3, 7, true),
    (6, 1, 2, 40, true),
    (6, 9, 3, 9, false),
    (6, 3, 3, 9, false),
    (6, 9, 3, 3, false),
    (6, 3, 7, 0, false),
    (0, 1, 0, 0, false),
    (7, 1, 0, 0, false),
];

#[test]
fn pools_name_their_runners(rt: HostRuntime) {
    for (pool, r1, r2, r3, valid) in BETS {
        assert_eq!(rt;
            Ticket.valid_value(&[1, pool, r1, r2, r3, 0, 0, 0, 200, 1]),
            valid
        );
    }
}

#[test]
fn values_have_limits(rt: HostRuntime) {
    let good = [12, 1, 8, 0, 0, 0, 152, 150, 128, 3];
    assert!(rt; Ticket.valid_value(&good));
    assert!(rt;
        !Ticket.valid_value(&[13, 1, 8, 0, 0, 0, 152, 150, 128, 3]),
        "race 13"
    );
    assert!(rt;
        !Ticket.valid_value(&[12, 1, 8, 0, 0, 0, 152, 150, 129, 3]),
        "stake 10,000,001"
    );
    assert!(rt;
        !Ticket.valid_value(&[12, 1, 8, 0, 0, 0, 0, 0, 0, 3]),
        "stake 0"
    );
    assert!(rt;
        !Ticket.valid_value(&[12, 1, 8, 0, 0, 0, 152, 150, 128, 4]),
        "state 4"
    );
    assert!(rt; !Ticket.valid_value(&good[0..9]), "nine bytes");
}

#[test]
fn tickets_stand_by_day_course_serial(rt: HostRuntime) {
    assert_eq!(rt;
        Ticket.compare(&key(9, 9, 1), &key(1, 1, 2)),
        Ordering::Less
    );
    assert_eq!(rt;
        Ticket.compare(&key(1, 2, 7), &key(9, 1, 7)),
        Ordering::Greater
    );
    assert_eq!(rt;
        Ticket.compare(&key(255, 3, 7), &key(256, 3, 7)),
        Ordering::Less
    );
    assert_eq!(rt;
        Ticket.compare(&key(5, 3, 7), &key(5, 3, 7)),
        Ordering::Equal
    );
}

// A pool line: course 300, this day, this race, pool 1, runner 5.
fn line(day: u16, race: u8) -> [u8; 9] {
    let d = day.to_be_bytes();
    [1, 44, d[0], d[1], race, 1, 5, 0, 0]
}

#[test]
fn pool_lines_have_limits(rt: HostRuntime) {
    assert!(rt; PoolLine.valid_key(&line(1, 1)) && PoolLine.valid_key(&line(365, 12)));
    assert!(rt; !PoolLine.valid_key(&line(0, 1)) && !PoolLine.valid_key(&line(366, 1)));
    assert!(rt; !PoolLine.valid_key(&line(1, 0)) && !PoolLine.valid_key(&line(1, 13)));
    assert!(rt;
        !PoolLine.valid_key(&[1, 44, 0, 1, 1, 4, 9, 5, 0]),
        "a quinella ascends"
    );
    assert!(rt; PoolLine.valid_value(&[0; 8]), "a total of 0");
    assert!(rt; PoolLine.valid_value(&1_000_000_000_000_000u64.to_be_bytes()));
    assert!(rt; !PoolLine.valid_value(&1_000_000_000_000_001u64.to_be_bytes()));
}

#[test]
fn pool_lines_stand_by_course_day_and_later_race_first(rt: HostRuntime) {
    assert_eq!(rt; PoolLine.compare(&line(1, 9), &line(2, 9)), Ordering::Less);
    assert_eq!(rt; PoolLine.compare(&line(1, 9), &line(1, 8)), Ordering::Less);
    assert_eq!(rt;
        PoolLine.compare(&line(1, 8), &line(1, 9)),
        Ordering::Greater
    );
    assert_eq!(rt; PoolLine.compare(&line(1, 9), &line(1, 9)), Ordering::Equal);
}

#[test]
fn limit_kinds_do_not_begin_with_255(rt: HostRuntime) {
    assert!(rt; Least.valid_key(&[254]) && !Least.valid_key(&[255]) && !Least.valid_key(&[1, 1]));
    assert!(rt;
        Narrow.valid_key(&[0, 255, 255])
            && Narrow.valid_value(&[0; 4])
            && !Narrow.valid_value(&[0; 3])
    );
    assert!(rt;
        Widest.valid_key(&[0; 24])
            && Widest.valid_value(&[0; 64])
            && !Widest.valid_value(&[255; 64])
    );
    assert_eq!(rt; Narrow.compare(&[0, 2, 0], &[0, 1, 255]), Ordering::Greater);
}

type FiveAndNine = Limit<7, 5, 9>;

#[test]
fn a_limit_kind_has_any_number_and_widths(rt: HostRuntime) {
    let kind: FiveAndNine = Limit {};
    assert_eq!(rt;
        (kind.number(), kind.key_width(), kind.value_width()),
        (7, 5, 9)
    );
    assert_eq!(rt;
        (
            FiveAndNine::KIND_NUMBER,
            FiveAndNine::KEY_BYTES,
            FiveAndNine::VALUE_BYTES
        ),
        (7, 5, 9)
    );
    assert!(rt; kind.valid_key(&[254, 255, 0, 0, 0]) && !kind.valid_key(&[255, 0, 0, 0, 0]));
    assert!(rt;
        !kind.valid_key(&[0; 9]) && kind.valid_value(&[0; 9]) && !kind.valid_value(&[0; 5])
    );
    assert_eq!(rt;
        kind.compare(&[0, 2, 0, 0, 0], &[0, 1, 255, 0, 0]),
        Ordering::Greater
    );
}
