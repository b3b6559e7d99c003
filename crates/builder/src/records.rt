// Keys and values from numbers, byte by byte. A higher number has a higher key, in the order of its kind.
use crate::faults::BuildFault;

// A hundred tickets for each of ten courses on each day, a million serials apart, so that all four bytes of a serial
// change.
pub(crate) fn ticket_key(n: u32) -> Result<[u8; 8], BuildFault> {
    let day = 1 + n / 1000;
    if day > 365 {
        return Err(BuildFault::NoKey(n));
    }
    let course = 1 + n / 100 % 10;
    let serial = 1 + n % 100 * 1_000_000;
    let [s3, s2, s1, s0] = serial.to_be_bytes();
    let [c1, c0] = (course as u16).to_be_bytes();
    let [d1, d0] = (day as u16).to_be_bytes();
    Ok([s3, s2, s1, s0, c1, c0, d1, d0])
}

// The pools, with their numbers: an enum of its own, since this crate is a second opinion on the record kinds.
#[derive(Debug, Clone, Copy, PartialEq, Eq)]
enum Pool {
    Win = 1,
    Place = 2,
    Show = 3,
    Quinella = 4,
    Exacta = 5,
    Trifecta = 6,
}

impl Pool {
    // Any of the six.
    fn of(n: u32) -> Pool {
        match n % 6 {
            0 => Pool::Win,
            1 => Pool::Place,
            2 => Pool::Show,
            3 => Pool::Quinella,
            4 => Pool::Exacta,
            _ => Pool::Trifecta,
        }
    }

    // The runners of a bet: the first as given, the others fixed and above it.
    fn runners(self, first: u8) -> [u8; 3] {
        match self {
            Pool::Win | Pool::Place | Pool::Show => [first, 0, 0],
            Pool::Quinella | Pool::Exacta => [first, 39, 0],
            Pool::Trifecta => [first, 39, 40],
        }
    }
}

// Spreads a number over all bits, so that neighbours look unlike each other.
fn mixed(n: u32) -> u32 {
    n.wrapping_mul(2_654_435_761) / 256
}

// Any bet, with a stake from 50 to 100,000 and any state.
pub(crate) fn ticket_value(n: u32) -> [u8; 10] {
    let n = mixed(n);
    let race = (1 + n / 7 % 12) as u8;
    let pool = Pool::of(n);
    let [r1, r2, r3] = pool.runners((1 + n % 38) as u8);
    let [s3, s2, s1, s0] = (50 * (1 + n % 2000)).to_be_bytes();
    let state = (1 + n / 5 % 3) as u8;
    [race, pool as u8, r1, r2, r3, s3, s2, s1, s0, state]
}

// 38 lines of each of four pools for each race, the later race first.
pub(crate) fn line_key(n: u32) -> Result<[u8; 9], BuildFault> {
    let course = 1 + n / 665_760;
    if course > 999 {
        return Err(BuildFault::NoKey(n));
    }
    let day = 1 + n / 1824 % 365;
    let race = (12 - n / 152 % 12) as u8;
    let pool = match n / 38 % 4 {
        0 => Pool::Win,
        1 => Pool::Place,
        2 => Pool::Exacta,
        _ => Pool::Trifecta,
    };
    let [r1, r2, r3] = pool.runners((1 + n % 38) as u8);
    let [c1, c0] = (course as u16).to_be_bytes();
    let [d1, d0] = (day as u16).to_be_bytes();
    Ok([c1, c0, d1, d0, race, pool as u8, r1, r2, r3])
}

pub(crate) fn line_value(n: u32) -> [u8; 8] {
    (u64::from(n) * 1000 + 5).to_be_bytes()
}

pub(crate) fn narrow_key(n: u32) -> Result<[u8; 3], BuildFault> {
    let [high, a, b, c] = n.to_be_bytes();
    if high != 0 || a == 255 {
        return Err(BuildFault::NoKey(n));
    }
    Ok([a, b, c])
}

pub(crate) fn narrow_value(n: u32) -> [u8; 4] {
    (n & 0xff_ffff).to_be_bytes()
}

// Twenty bytes that are always the same, then the number: a comparison goes through them all.
pub(crate) fn widest_key(n: u32) -> [u8; 24] {
    let mut key = [0x5a; 24];
    key[20..24].copy_from_slice(&n.to_be_bytes());
    key
}

pub(crate) fn widest_value(n: u32) -> [u8; 64] {
    let mut value = [0xc3; 64];
    value[0..4].copy_from_slice(&narrow_value(n));
    value[60..64].copy_from_slice(&n.to_be_bytes());
    value
}

pub(crate) fn least_key(n: u32) -> Result<[u8; 1], BuildFault> {
    if n >= 255 {
        return Err(BuildFault::NoKey(n));
    }
    Ok([n as u8])
}

pub(crate) fn least_value(n: u32) -> [u8; 1] {
    [(n % 255) as u8]
}
