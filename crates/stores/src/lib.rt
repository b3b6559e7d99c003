// Page stores: who keeps the pages. A store has a fixed number of pages of 512 bytes and counts the pages that were
// read or written; what reading and writing do is said once, for every store. The plain and the shifting store keep
// their pages in a lent area. It uses nothing but the language.
#![tactic(auto)]

ghost use Rattle.std.specs.Prelude.{◌≡◌, length, MatchResult};
ghost use Rattle.stores.specs.Store.{StoreState, Lawful, WasRead, WasWritten, NotThere};

mod area;
pub mod plain;
pub mod shifting;

pub use plain::PlainStore;
pub use shifting::ShiftingStore;

// A page as it is read and written.
pub type Page = [u8; 512];

// A page that is not there, and how many there are.
#[derive(Clone, Copy, Debug, PartialEq, Eq)]
pub struct StoreFault {
    pub page: u32,
    pub size: u32,
}

pub trait PageStore {
    ghost state: { Self → StoreState };

    // What each store shows of itself. It stands above the functions, so it is given with the type and is no law.
    ghost lawful: { (s : Self) → Lawful (state s) };

    // The number of pages, P.
    fn size(&self) -> u32
        ensures { result ≡ length (state self.now).pages };

    // How many pages were touched so far, modulo 2^64.
    fn count(&self) -> u64
        ensures { result ≡ (state self.now).count };

    // Copies page p into the buffer; refused, it changes nothing, the buffer neither.
    fn read(&mut self, p: u32, buffer: &mut Page) -> Result<(), StoreFault>
        ensures { MatchResult result
            (λ _. WasRead (state self.old) p (state self.new) buffer.new)
            (λ f. NotThere (state self.old) p (state self.new) f
            × (buffer.new ≡ buffer.old)) };

    // Replaces page p by the buffer; refused, it changes nothing.
    fn write(&mut self, p: u32, buffer: &Page) -> Result<(), StoreFault>
        ensures { MatchResult result
            (λ _. WasWritten (state self.old) p buffer.now (state self.new))
            (λ f. NotThere (state self.old) p (state self.new) f) };
}
