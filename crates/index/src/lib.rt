// The index: one tree of records on the pages of a store, for any store and any kind. It owns both, so nobody else
// reaches the pages while it is open. Each call promises, in either state, which answer or refusal comes, what stands
// on the pages and in the state after it, and the pages it touched. It uses all the layers below.
#![tactic(auto)]

ghost use Rattle.std.specs.Prelude.{◌≡◌, ℕ, ◌<◌, ◌≤◌, length, drop, Result, MatchResult, OnOk};
ghost use Rattle.stores.specs.Store.{page_at, WasRead, NotThere};
ghost use Rattle.shape.specs.Made.{asked};
ghost use Rattle.tree.specs.History.{empty};
ghost use Rattle.layout.specs.Holds.{Holds};
ghost use Rattle.index.specs.Seen.{Seen, seen, closed};
ghost use Rattle.index.specs.Calls.{growth, touches_of, told, Formatted, format_answer, after_format};
ghost use Rattle.index.specs.Calls.{close_answer, after_close, Inspected, Opened, answer_to, after_call, weighed};
ghost use Rattle.index.specs.Finds.{LookedUp, find_fault, FindBy, after_find, FewTouches, find_touches};
ghost use Rattle.index.specs.Finds.{lookup_for, filled_with, first_bytes};

use inspect::inspect_store;
use layout::{Header, write_empty};
use records::RecordKind;
use search::{ValueBytes, find_value};
use shape::{Shape, ShapeNumbers};
use stores::{Page, PageStore, StoreFault};

pub mod faults;

pub use faults::{IndexFault, Refusal, RefusalNumbers};

// Whether an index is open, and then the numbers of page 0. It is a type of its own and no Option, since the project
// wants the state by name, matched together with the call (see `perform`).
#[derive(Clone, Copy, Debug, PartialEq, Eq)]
pub enum Status {
    Closed,
    Open(Header),
}

// A call, as data.
#[derive(Clone, Copy, Debug, PartialEq, Eq)]
pub enum Call {
    Format(ShapeNumbers),
    Close,
}

// A call was granted; it touched so many pages.
#[derive(Clone, Copy, Debug, PartialEq, Eq)]
pub struct Done {
    pub touches: u64,
}

// Whether the index has a key.
#[derive(Clone, Copy, Debug, PartialEq, Eq)]
pub enum Lookup {
    Found,
    Absent,
}

// What find answers, and how many pages it touched.
#[derive(Clone, Copy, Debug, PartialEq, Eq)]
pub struct Finding {
    pub lookup: Lookup,
    pub touches: u64,
}

// What a shape costs on a store.
#[derive(Clone, Copy, Debug, PartialEq, Eq)]
pub struct Costs {
    // q: the entries that one batch moves
    pub batch: u16,
    // L: the leaf pages of a slot
    pub leaf_pages: u16,
    // W: the pages of a slot
    pub slot_pages: u16,
    // u: the fewest children of an inner node that is not the root
    pub least_children: u16,
    // g: every so many accepted changes make room for at most one more leaf node
    pub changes_per_leaf: u16,
    // N: the slots of the store
    pub slots: u32,
    // the bytes of the work area that a change borrows
    pub work_bytes: u32,
}

// Clauses speak of its fields, and it has no model: that would hide the store, the kind and the status, which
// `into_parts` and `status` answer.
#[derive(Drop)]
pub struct Index<S: PageStore, K: RecordKind> {
    store: S,
    kind: K,
    status: Status,
}

// Hands over what was found: a value goes into the first v bytes of the buffer.
fn hand_over(found: Option<ValueBytes>, v: usize, buffer: &mut [u8]) -> Lookup
    requires room { v ≤ length buffer.old }
    requires wide { v ≤ 64 }
    ensures lookup { result ≡ lookup_for found }
    ensures filled { buffer.new ≡ filled_with (first_bytes v found) buffer.old }
    ensures rest { drop v buffer.new ≡ drop v buffer.old }
{
    match found {
        Some(value) => {
            buffer[0..v].copy_from_slice(&value[0..v]);
            Lookup::Found
        }
        None => Lookup::Absent,
    }
}

impl<S: PageStore, K: RecordKind> Index<S, K> {
    // A closed index over this store, for this kind; no page is touched.
    pub fn new(store: S, kind: K) -> Index<S, K>
        ensures { seen S.PageStore.state K.RecordKind.model result
            ≡ record { kind = K.RecordKind.model kind; store = S.PageStore.state store; state = closed } }
    {
        let status = Status::Closed;
        Index {
            store,
            kind,
            status,
        }
    }

    // The store and the kind, in either state; no page is touched.
    pub fn into_parts(self) -> (S, K)
        ensures store { result.0 ≡ self.store }
        ensures kind { result.1 ≡ self.kind }
    {
        let Index {
            store,
            kind,
            status: _,
        } = self;
        (store, kind)
    }

    // Whether the index is open, and then the numbers of page 0.
    pub fn status(&self) -> Status
        ensures { result ≡ self.now.status }
    {
        let current = self.status;
        current
    }

    // The number of pages, P.
    pub fn size(&self) -> u32
        ensures { result ≡ length (seen S.PageStore.state K.RecordKind.model
            self.now).store.pages }
    {
        self.store.size()
    }

    // What these numbers would cost as a shape; no page is touched.
    pub fn weigh(&self, numbers: ShapeNumbers) -> Result<Costs, Refusal>
        ensures { result ≡ weighed (seen S.PageStore.state K.RecordKind.model self.now)
            (asked numbers) }
    {
        let refusal = Refusal {
            fault: IndexFault::ShapeLimits,
            touches: 0,
        };
        let shape = Shape::new(numbers, self.kind.record_width()).ok_or(refusal)?;
        Ok(Costs {
            batch: shape.batch(),
            leaf_pages: shape.leaf_pages(),
            slot_pages: shape.slot_pages(),
            least_children: shape.least_children(),
            changes_per_leaf: shape.changes_per_leaf(),
            slots: shape.slots(self.store.size()),
            work_bytes: shape.work_bytes(),
        })
    }

    // Copies page p as it stands into the buffer, in either state, and touches that page; refused, it changes nothing.
    pub fn look(&mut self, p: u32, buffer: &mut Page) -> Result<(), StoreFault>
        ensures kind { self.new.kind ≡ self.old.kind }
        ensures status { self.new.status ≡ self.old.status }
        ensures cases { MatchResult result
            (λ _. WasRead (S.PageStore.state self.old.store) p
            (S.PageStore.state self.new.store) buffer.new)
            (λ f. NotThere (S.PageStore.state self.old.store) p
            (S.PageStore.state self.new.store) f × (buffer.new ≡ buffer.old)) }
    {
        self.store.read(p, buffer)
    }

    // How many pages were touched since the count was `start`.
    fn touches_since(&self, start: u64) -> u64
        ensures { result ≡ growth start (S.PageStore.state self.now.store).count }
    {
        let count = self.store.count();
        count.wrapping_sub(start)
    }

    // What a call answers that came out so, with the pages touched since the count was `start`.
    fn told(&self, start: u64, outcome: Result<(), IndexFault>) -> Result<Done, Refusal>
        ensures { result ≡ told outcome (growth start (S.PageStore.state self.now.store).count) }
    {
        let touches = self.touches_since(start);
        match outcome {
            Ok(()) => Ok(Done { touches }),
            Err(fault) => Err(Refusal { fault, touches }),
        }
    }

    // The tests of format, and then its writes.
    fn write_formatted(&mut self, numbers: ShapeNumbers) -> Result<(), IndexFault>
        ensures { Formatted (seen S.PageStore.state K.RecordKind.model self.old)
            (asked numbers) result
            (seen S.PageStore.state K.RecordKind.model self.new) }
    {
        let shape = Shape::new(numbers, self.kind.record_width()).ok_or(IndexFault::ShapeLimits)?;
        if self.store.size() < 1 + u32::from(shape.slot_pages()) {
            return Err(IndexFault::StoreTooSmall);
        }
        write_empty(&mut self.store, self.kind.number(), shape)?;
        self.status = Status::Open(Header::empty(shape));
        Ok(())
    }

    // Writes an empty index of this shape, one leaf node in slot 0, and opens it; refused, it leaves everything.
    pub fn format(&mut self, numbers: ShapeNumbers) -> Result<Done, Refusal>
        ensures answer { result ≡ format_answer (seen S.PageStore.state K.RecordKind.model self.old)
            (asked numbers) }
        ensures after { seen S.PageStore.state K.RecordKind.model self.new
            ≡ after_format (seen S.PageStore.state K.RecordKind.model self.old) (asked numbers) }
        ensures touches { touches_of result ≡ growth (S.PageStore.state self.old.store).count
            (S.PageStore.state self.new.store).count }
        ensures holds { OnOk result (Holds (K.RecordKind.model self.old.kind)
            (S.PageStore.state self.new.store).pages
            (record { shape = asked numbers; index = empty })) }
    {
        let start = self.store.count();
        let written = self.write_formatted(numbers);
        self.told(start, written)
    }

    // The inspection; what it finds decides the state.
    fn inspect(&mut self) -> Result<(), IndexFault>
        ensures { Inspected (seen S.PageStore.state K.RecordKind.model self.old) result
            (seen S.PageStore.state K.RecordKind.model self.new) }
    {
        let (status, inspected) = match inspect_store(&mut self.store, &self.kind) {
            Ok(header) => (Status::Open(header), Ok(())),
            Err(fault) => (Status::Closed, Err(fault.into())),
        };
        self.status = status;
        inspected
    }

    // Inspects the pages, in either state, and opens the index that they hold; refused, it leaves the index closed. No
    // page is written.
    pub fn open(&mut self) -> Result<Done, Refusal>
        ensures opened { Opened (seen S.PageStore.state K.RecordKind.model self.old) result
            (seen S.PageStore.state K.RecordKind.model self.new) }
        ensures touches { touches_of result ≡ growth (S.PageStore.state self.old.store).count
            (S.PageStore.state self.new.store).count }
    {
        let start = self.store.count();
        let inspected = self.inspect();
        self.told(start, inspected)
    }

    // The tests of find, and then its search.
    fn look_up(&mut self, key: &[u8], room: usize) -> Result<Option<ValueBytes>, IndexFault>
        ensures { LookedUp (seen S.PageStore.state K.RecordKind.model self.old)
            key.now room result (seen S.PageStore.state K.RecordKind.model self.new) }
    {
        let Status::Open(header) = self.status else {
            return Err(IndexFault::Closed);
        };
        if !self.kind.valid_key(key) {
            return Err(IndexFault::BadKey);
        }
        if room < self.kind.value_width() {
            return Err(IndexFault::ShortBuffer);
        }
        let value = find_value(&mut self.store, &self.kind, header, key)?;
        Ok(value)
    }

    // Says whether the index has the key, and puts its value into the first bytes of the buffer; the rest of the buffer
    // stays, and all of it where the key is absent or the call refused. No page is written.
    pub fn find(&mut self, key: &[u8], buffer: &mut [u8]) -> Result<Finding, Refusal>
        ensures found { FindBy (find_fault (seen S.PageStore.state K.RecordKind.model self.old)
            key.now (length buffer.old))
            (seen S.PageStore.state K.RecordKind.model self.old) key.now
            buffer.old result buffer.new }
        ensures after { seen S.PageStore.state K.RecordKind.model self.new
            ≡ after_find (seen S.PageStore.state K.RecordKind.model self.old) (find_touches result) }
        ensures within { FewTouches (seen S.PageStore.state K.RecordKind.model self.old).state
            (find_touches result) }
        ensures touches { find_touches result ≡ growth (S.PageStore.state self.old.store).count
            (S.PageStore.state self.new.store).count }
    {
        let start = self.store.count();
        let sought = self.look_up(key, buffer.len());
        let touches = self.touches_since(start);
        match sought {
            Ok(found) => {
                let lookup = hand_over(found, self.kind.value_width(), buffer);
                Ok(Finding { lookup, touches })
            }
            Err(fault) => Err(Refusal { fault, touches }),
        }
    }

    // Closes the index, in either state; no page is touched.
    pub fn close(&mut self) -> Done
        ensures answer { Result.Ok result ≡ close_answer }
        ensures after { seen S.PageStore.state K.RecordKind.model self.new
            ≡ after_close (seen S.PageStore.state K.RecordKind.model self.old) }
    {
        self.status = Status::Closed;
        Done { touches: 0 }
    }

    // The call, which does what the state and the call together decide: so they are matched together, and not by closures.
    pub fn perform(&mut self, call: Call) -> Result<Done, Refusal>
        ensures answer { result ≡ answer_to
            (seen S.PageStore.state K.RecordKind.model self.old) call }
        ensures after { seen S.PageStore.state K.RecordKind.model self.new
            ≡ after_call (seen S.PageStore.state K.RecordKind.model self.old) call }
        ensures touches { touches_of result ≡ growth (S.PageStore.state self.old.store).count
            (S.PageStore.state self.new.store).count }
    {
        match (self.status, call) {
            (Status::Closed, Call::Format(numbers)) => self.format(numbers),
            (Status::Open(_), Call::Format(numbers)) => self.format(numbers),
            (Status::Closed, Call::Close) => Ok(Done { touches: 0 }),
            (Status::Open(_), Call::Close) => Ok(self.close()),
        }
    }
}
