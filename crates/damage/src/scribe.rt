// What is written: the script, or the answers that it must get.
use builder::KindName;
use std::alloc::Global;
use std::{fmt, io};

// Bytes in hex, "-" for none. It is no part of `script_words`, by which replay prints: so what replay prints is compared
// with what was made apart from it.
#[derive(Clone, Copy)]
struct Hex<'a>(&'a [u8]);

impl fmt::Display for Hex<'_> {
    fn fmt<W: fmt::Write>(&self, f: &mut fmt::Formatter<W>) -> fmt::Result {
        if self.0.is_empty() {
            return f.write_str("-");
        }
        for b in self.0 {
            let b = *b;
            write!(f, "{b:02x}")?;
        }
        Ok(())
    }
}

// What the program writes.
#[derive(Debug, Clone, Copy, PartialEq, Eq)]
pub(crate) enum Side {
    Script,
    Answers,
}

// The stores that replay makes: of its own, as the rules are.
#[derive(Debug, Clone, Copy, PartialEq, Eq)]
pub(crate) enum Store {
    Plain,
    Shifting,
}

impl fmt::Display for Store {
    fn fmt<W: fmt::Write>(&self, f: &mut fmt::Formatter<W>) -> fmt::Result {
        f.write_str(match self {
            Store::Plain => "plain",
            Store::Shifting => "shifting",
        })
    }
}

// A place in a store, where bytes are poked.
#[derive(Debug, Clone, Copy, PartialEq, Eq)]
pub(crate) struct Spot {
    pub page: u32,
    pub offset: u32,
}

impl fmt::Display for Spot {
    fn fmt<W: fmt::Write>(&self, f: &mut fmt::Formatter<W>) -> fmt::Result {
        write!(f, "{} {}", self.page, self.offset)
    }
}

// The rules of docs/LAYOUT.md, with their numbers: an enum of its own, since what is told here is a second opinion on
// the crate that has the rules.
#[derive(Debug, Clone, Copy, PartialEq, Eq)]
pub(crate) enum Rule {
    Header = 1,
    Children = 2,
    Entries = 3,
    ChildSlots = 4,
    SKeys = 5,
    NodeRest = 6,
    Head = 7,
    LeafCount = 8,
    Marks = 9,
    Keys = 10,
    Values = 11,
    Reached = 12,
}

// Why a call must be refused: of its own, as the rules are.
#[derive(Debug, Clone, Copy, PartialEq, Eq)]
pub(crate) enum Refusal {
    // the index is not open
    Closed,
    ShapeLimits,
    OtherKind,
    // a page that the store has not
    NoPage { page: u32, size: u32 },
    // a page that breaks a rule
    Broken { page: u32, rule: Rule },
    BadKey,
    ShortBuffer,
}

// As replay prints it, without the touches: its number, its layer, the page and what is wrong there.
impl fmt::Display for Refusal {
    fn fmt<W: fmt::Write>(&self, f: &mut fmt::Formatter<W>) -> fmt::Result {
        let (number, layer, page, detail) = match *self {
            Refusal::Closed => (1, 1, 0, 0),
            Refusal::ShapeLimits => (2, 1, 0, 0),
            Refusal::OtherKind => (4, 1, 0, 0),
            Refusal::NoPage { page, size } => (5, 3, page, size),
            Refusal::Broken { page, rule } => (6, 2, page, rule as u32),
            Refusal::BadKey => (7, 1, 0, 0),
            Refusal::ShortBuffer => (10, 1, 0, 0),
        };
        write!(f, "refused {number} {layer} {page} {detail}")
    }
}

// What replay fills a buffer with before a find.
const UNTOUCHED: u8 = 0xa5;

// Writes a script or its answers, line by line.
#[derive(Clone, Copy)]
pub(crate) struct Scribe<'a> {
    rt: &'a HostRuntime,
    side: Side,
}

impl<'a> Scribe<'a> {
    pub(crate) fn new(rt: &'a HostRuntime, side: Side) -> Scribe<'a> {
        Scribe { rt, side }
    }

    pub(crate) fn heap(&self) -> Global {
        self.rt.alloc()
    }

    // A line of the script that gets no answer.
    pub(crate) fn note(&self, text: &str) -> io::Result<()> {
        match self.side {
            Side::Script => println!(self.rt; "# {text}"),
            Side::Answers => Ok(()),
        }
    }

    // A call, with the answer that it must get.
    pub(crate) fn call<C: fmt::Display + Drop, A: fmt::Display + Drop>(
        &self,
        call: C,
        answer: A,
    ) -> io::Result<()> {
        match self.side {
            Side::Script => println!(self.rt; "{call}"),
            Side::Answers => println!(self.rt; "{answer}"),
        }
    }

    pub(crate) fn poke(&self, spot: Spot, bytes: &[u8]) -> io::Result<()> {
        let hex = Hex(bytes);
        self.call(format_args!("poke {spot} {hex}"), "ok")
    }

    // The choice of a kind.
    pub(crate) fn kind(&self, kind: KindName) -> io::Result<()> {
        let number = kind.number();
        self.call(format_args!("kind {number}"), "ok")
    }

    // A new store, of as many pages as are asked for.
    pub(crate) fn store(&self, store: Store, pages: u32) -> io::Result<()> {
        self.call(
            format_args!("store {store} {pages}"),
            format_args!("size {pages}"),
        )
    }

    // A find with a buffer of so many bytes, and its answer.
    pub(crate) fn find<A: fmt::Display + Drop>(
        &self,
        key: &[u8],
        room: usize,
        answer: A,
    ) -> io::Result<()> {
        let hex = Hex(key);
        self.call(format_args!("find {hex} {room}"), answer)
    }

    // A find that must put this value into the front of the buffer.
    pub(crate) fn found(&self, key: &[u8], room: usize, value: &[u8]) -> io::Result<()> {
        let mut buffer = Vec::from_slice(self.heap(), value)?;
        buffer.resize(room.max(value.len()), UNTOUCHED)?;
        let hex = Hex(buffer.as_slice());
        self.find(key, room, format_args!("found {hex}"))
    }

    // A find that must leave the buffer as it is.
    pub(crate) fn absent(&self, key: &[u8], room: usize) -> io::Result<()> {
        let buffer = vec![in self.heap(); UNTOUCHED; room]?;
        let hex = Hex(buffer.as_slice());
        self.find(key, room, format_args!("absent {hex}"))
    }
}
