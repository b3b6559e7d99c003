// A lent area as places, which are its whole pieces of 512 bytes, with a count of the places read and written.
ghost use Rattle.std.specs.Prelude.{◌≡◌, ℕ, ◌+◌, ◌*◌, ◌<◌, ◌≤◌, length, MatchResult, slice_index};
ghost use Rattle.stores.specs.Places.{place_at, written};
ghost use Rattle.stores.specs.Store.{touched_once};

use crate::{Page, StoreFault};

pub(crate) const PAGE_BYTES: usize = 512;

#[derive(Drop)]
pub(crate) struct Area<'a> {
    pub(crate) bytes: &'a mut [u8],
    pub(crate) count: u64,
}

// Refuses a page that is not there.
pub(crate) fn check_page(p: u32, size: u32) -> Result<(), StoreFault>
    ensures { MatchResult result (λ _. p < size)
        (λ f. (size ≤ p) × (f ≡ record { page = p; size = size })) }
{
    if p < size {
        Ok(())
    } else {
        Err(StoreFault { page: p, size })
    }
}

// Copies what place p holds. The bytes are a parameter of their own, since of such a slice it is known that it holds
// bytes.
fn copy_place(bytes: &[u8], p: usize, buffer: &mut Page)
    requires { 512 * p + 512 ≤ length bytes.now }
    ensures page { buffer.new ≡ place_at bytes.now p }
    ensures bytes { (i : ℕ) → slice_index buffer.new i < 256 }
{
    let at = PAGE_BYTES * p;
    buffer.copy_from_slice(&bytes[at..at + PAGE_BYTES]);
}

impl<'a> Area<'a> {
    pub(crate) fn new(bytes: &'a mut [u8]) -> Area<'a>
        ensures bytes { result.bytes.now ≡ bytes.old }
        ensures count { result.count ≡ 0 }
    {
        Area { bytes, count: 0 }
    }

    pub(crate) fn len(&self) -> usize
        ensures { result ≡ length self.now.bytes.now }
    {
        self.bytes.len()
    }

    // One place more was touched.
    fn touch(&mut self)
        ensures bytes { self.new.bytes.now ≡ self.old.bytes.now }
        ensures count { self.new.count ≡ touched_once self.old.count }
    {
        self.count = self.count.wrapping_add(1);
    }

    fn copy(&self, p: usize, buffer: &mut Page)
        requires { 512 * p + 512 ≤ length self.now.bytes.now }
        ensures page { buffer.new ≡ place_at self.now.bytes.now p }
        ensures bytes { (i : ℕ) → slice_index buffer.new i < 256 }
    {
        copy_place(self.bytes, p, buffer);
    }

    // Copies what place p holds into the buffer.
    pub(crate) fn read(&mut self, p: usize, buffer: &mut Page)
        requires { 512 * p + 512 ≤ length self.old.bytes.now }
        ensures page { buffer.new ≡ place_at self.old.bytes.now p }
        ensures bytes { (i : ℕ) → slice_index buffer.new i < 256 }
        ensures area { self.new.bytes.now ≡ self.old.bytes.now }
        ensures count { self.new.count ≡ touched_once self.old.count }
    {
        self.copy(p, buffer);
        self.touch();
    }

    // Puts the buffer into place p.
    pub(crate) fn write(&mut self, p: usize, buffer: &Page)
        requires { 512 * p + 512 ≤ length self.old.bytes.now }
        ensures area { self.new.bytes.now ≡ written p self.old.bytes.now buffer.now }
        ensures count { self.new.count ≡ touched_once self.old.count }
    {
        let at = PAGE_BYTES * p;
        self.bytes[at..at + PAGE_BYTES].copy_from_slice(buffer);
        self.touch();
    }
}
