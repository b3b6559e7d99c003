// The plain store: page p lies in place p of a lent area.
ghost use Rattle.std.specs.Prelude.{◌≡◌, ◌/◌, min};
ghost use Rattle.stores.specs.Plain.{plain_state, plain_lawful};

use crate::area::{Area, PAGE_BYTES, check_page};
use crate::{Page, PageStore, StoreFault};

// No store has more pages.
const MOST_PAGES: usize = 65_535;

#[derive(Drop)]
pub struct PlainStore<'a> {
    area: Area<'a>,
}

// How many places an area of so many bytes has for pages.
fn places_in(bytes: usize) -> u32
    ensures { result ≡ min 65535 (bytes / 512) }
{
    MOST_PAGES.min(bytes / PAGE_BYTES) as u32
}

impl<'a> PlainStore<'a> {
    // A store over the whole places of the area, with the count 0; a rest of under 512 bytes is left alone.
    pub fn new(area: &'a mut [u8]) -> PlainStore<'a>
        ensures { plain_state result.area.bytes.now result.area.count ≡ plain_state area.old 0 }
    {
        PlainStore {
            area: Area::new(area),
        }
    }
}

impl PageStore for PlainStore<'_> {
    ghost state = { λ s. plain_state s.area.bytes.now s.area.count };

    ghost lawful = { λ s. plain_lawful s.area.bytes.now s.area.count };

    fn size(&self) -> u32 {
        places_in(self.area.len())
    }

    fn count(&self) -> u64 {
        self.area.count
    }

    fn read(&mut self, p: u32, buffer: &mut Page) -> Result<(), StoreFault> {
        check_page(p, self.size())?;
        self.area.read(p as usize, buffer);
        Ok(())
    }

    fn write(&mut self, p: u32, buffer: &Page) -> Result<(), StoreFault> {
        check_page(p, self.size())?;
        self.area.write(p as usize, buffer);
        Ok(())
    }
}
