// Rows of entries as they stand on pages: each is a key and, right behind it, the bytes of its value. In a row of keys
// alone the values have no bytes. Nothing here asks anything of who calls it: what does not fit is left out.
ghost use Rattle.std.specs.Prelude.{◌≡◌, ◌+◌, ◌-◌, ◌*◌, ◌<◌, ◌≤◌, [], ◌++◌, length, take, drop, replicate};
ghost use Rattle.records.specs.Kind.{record_width};
ghost use Rattle.layout.specs.Rows.{key_in, value_in};

use records::RecordKind;
use stores::Page;

// Entries begin behind the count and the mark word of a leaf page.
pub const ENTRIES_AT: usize = 9;

#[derive(Clone, Copy)]
pub struct Row<'a> {
    pub bytes: &'a [u8],
    pub key_width: usize,
    pub value_width: usize,
    pub count: usize,
    pub ghost room: { count * (key_width + value_width) ≤ length bytes.now },
}

// So many, or none where so many of that width have no room.
fn fitting(count: usize, width: usize, room: usize) -> usize
    ensures all { count * width ≤ room → result ≡ count }
    ensures none { room < count * width → result ≡ 0 }
    ensures room { result * width ≤ room }
{
    match count.checked_mul(width) {
        Some(bytes) if bytes <= room => count,
        _ => 0,
    }
}

impl<'a> Row<'a> {
    // The entries of a leaf page that has so many; none where so many have no room on a page.
    pub fn of_entries<K: RecordKind>(kind: &K, page: &'a Page, count: usize) -> Row<'a>
        ensures bytes { result.bytes.now ≡ drop 9 page.now }
        ensures widths { (result.key_width ≡ (K.model kind.now).key_width)
            × (result.value_width ≡ (K.model kind.now).value_width) }
        ensures count { 9 + count * record_width (K.model kind.now) ≤ 512 → result.count ≡ count }
        ensures none { 512 < 9 + count * record_width (K.model kind.now) → result.count ≡ 0 }
    {
        let bytes: &[u8] = page;
        Row {
            bytes: &bytes[ENTRIES_AT..],
            key_width: kind.key_width(),
            value_width: kind.value_width(),
            count: fitting(count, kind.record_width(), page.len() - ENTRIES_AT),
        }
    }

    // So many keys of a kind at the start of these bytes; none where the bytes are too few.
    pub fn of_keys<K: RecordKind>(kind: &K, bytes: &'a [u8], count: usize) -> Row<'a>
        ensures bytes { result.bytes.now ≡ bytes.now }
        ensures widths { (result.key_width ≡ (K.model kind.now).key_width) × (result.value_width ≡ 0) }
        ensures count { count * (K.model kind.now).key_width ≤ length bytes.now → result.count ≡ count }
        ensures none { length bytes.now < count * (K.model kind.now).key_width → result.count ≡ 0 }
    {
        Row {
            bytes,
            key_width: kind.key_width(),
            value_width: 0,
            count: fitting(count, kind.key_width(), bytes.len()),
        }
    }

    // Key i; no bytes where the row has no such key.
    pub fn key(&self, i: usize) -> &'a [u8]
        ensures key { i < self.now.count → result.now ≡ key_in self.now.key_width
            (self.now.key_width + self.now.value_width) self.now.bytes.now i }
        ensures long { i < self.now.count → length result.now ≡ self.now.key_width }
        ensures none { self.now.count ≤ i → result.now ≡ [] }
    {
        if i >= self.count {
            return &self.bytes[..0];
        }
        let at = i * (self.key_width + self.value_width);
        &self.bytes[at..at + self.key_width]
    }

    // The value bytes of entry i; none where the row has no such entry.
    pub fn value(&self, i: usize) -> &'a [u8]
        ensures value { i < self.now.count → result.now ≡ value_in self.now.key_width self.now.value_width
            (self.now.key_width + self.now.value_width) self.now.bytes.now i }
        ensures long { i < self.now.count → length result.now ≡ self.now.value_width }
        ensures none { self.now.count ≤ i → result.now ≡ [] }
    {
        if self.count <= i {
            return &self.bytes[..0];
        }
        let at = i * (self.key_width + self.value_width) + self.key_width;
        &self.bytes[at..at + self.value_width]
    }
}

// These bytes at the start of an array that is zero behind them; the first N where they are more.
pub fn copied<const N: usize>(bytes: &[u8]) -> [u8; N]
    ensures all { length bytes.now ≤ N → result ≡ bytes.now ++ replicate (N - length bytes.now) 0 }
    ensures first { N < length bytes.now → result ≡ take N bytes.now }
{
    let mut array = [0; N];
    let many = bytes.len().min(N);
    array[..many].copy_from_slice(&bytes[..many]);
    array
}
