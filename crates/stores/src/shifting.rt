// The shifting store: one place more than pages. A write goes into the spare place, and the page's old place becomes
// the spare one, so that a page is never overwritten in place.
ghost use Rattle.std.specs.Prelude.{◌≡◌, ℕ, ◌<◌, ◌≤◌, length, slice_index, slice_set};
ghost use Rattle.stores.specs.Places.{contents};
ghost use Rattle.stores.specs.Shifting.{
  Inside,
  Apart,
  held,
  shifting_size,
  shifting_pages,
  shifting_state,
  shifting_lawful,
};

use crate::area::{Area, PAGE_BYTES, check_page};
use crate::{Page, PageStore, StoreFault};
use std::array;

const MOST_PAGES: usize = 1024;

// The place of each page, and the spare one. It stands alone, since a struct that lends parts of an area has no
// invariant. The size stands beside the array: there is no heap, and no store of this kind has more pages.
#[derive(Clone, Copy)]
struct Table {
    places: [u16; 1024],
    size: u16,
    spare: u16,
    ghost few: { size ≤ 1024 },
    ghost spared: { spare ≤ size },
    ghost inside: { Inside places size spare },
    ghost apart: { Apart places size },
}

// Page p lies in place p at first.
fn own_place(p: usize) -> u16
    requires { p < 1024 }
    ensures { result ≡ p }
{
    p as u16
}

impl Table {
    // Page p in place p, and the place behind the last page spare.
    fn new(size: u16) -> Table
        requires { size ≤ 1024 }
        ensures places { (p : ℕ) → p < size → slice_index result.places p ≡ p }
        ensures size { result.size ≡ size }
        ensures spare { result.spare ≡ size }
    {
        Table {
            places: array::from_fn(own_place),
            size,
            spare: size,
        }
    }

    // Page p goes into the spare place, and its old place is the spare one.
    fn shift(&mut self, p: usize)
        requires { p < self.old.size }
        ensures places { self.new.places ≡ slice_set self.old.places p
            self.old.spare }
        ensures spare { self.new.spare ≡ slice_index self.old.places p }
        ensures size { self.new.size ≡ self.old.size }
    {
        let old = self.places[p];
        self.places[p] = self.spare;
        self.spare = old;
    }
}

#[derive(Drop)]
pub struct ShiftingStore<'a> {
    area: Area<'a>,
    table: Table,
}

// The pages of an area of so many bytes.
fn pages_in(bytes: usize) -> u16
    ensures { result ≡ shifting_size bytes }
{
    MOST_PAGES.min((bytes / PAGE_BYTES).saturating_sub(1)) as u16
}

// The pages of a table of this size, where the area has room for them and the spare place.
fn room_for(size: u16, bytes: usize) -> u32
    ensures { result ≡ held size bytes }
{
    if (size as usize) < bytes / PAGE_BYTES {
        size as u32
    } else {
        0
    }
}

impl<'a> ShiftingStore<'a> {
    // A store over the places of the area, one fewer than there are, with page p in place p and the count 0.
    pub fn new(area: &'a mut [u8]) -> ShiftingStore<'a>
        ensures { shifting_state result.area.bytes.now result.table.places result.table.size result.area.count
            ≡ record { pages = contents (shifting_size (length area.old)) area.old; count = 0 } }
    {
        let table = Table::new(pages_in(area.len()));
        ShiftingStore {
            area: Area::new(area),
            table,
        }
    }

    // The place that page p is read from.
    fn place(&self, p: u32) -> usize
        requires { p < self.now.table.size }
        ensures { result ≡ slice_index self.now.table.places p }
    {
        let place = self.table.places[p as usize];
        place as usize
    }
}

impl PageStore for ShiftingStore<'_> {
    ghost state = { λ s. shifting_state s.area.bytes.now s.table.places s.table.size s.area.count };

    ghost lawful = { λ s. shifting_lawful s.area.bytes.now s.table.places s.table.size s.table.spare s.area.count
        s.table.few s.table.inside };

    fn size(&self) -> u32 {
        room_for(self.table.size, self.area.len())
    }

    fn count(&self) -> u64 {
        self.area.count
    }

    fn read(&mut self, p: u32, buffer: &mut Page) -> Result<(), StoreFault> {
        check_page(p, self.size())?;
        let place = self.place(p);
        self.area.read(place, buffer);
        Ok(())
    }

    fn write(&mut self, p: u32, buffer: &Page) -> Result<(), StoreFault> {
        check_page(p, self.size())?;
        self.area.write(self.table.spare as usize, buffer);
        self.table.shift(p as usize);
        Ok(())
    }
}
