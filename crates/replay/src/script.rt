// A script, line by line, and the command on each line.
use script_words::{bytes, decimal};
use shape::ShapeNumbers;
use std::alloc::{AllocError, Global};
use thiserror::Error;

// Bytes to be put into a page from outside.
#[derive(Drop)]
pub(crate) struct Patch {
    pub page: u64,
    pub offset: u64,
    pub bytes: Vec<u8>,
}

// A key to be found, and the buffer lent for its value.
#[derive(Drop)]
pub(crate) struct Sought {
    pub key: Vec<u8>,
    pub buffer: Vec<u8>,
}

// The record kinds that a script can choose.
#[derive(Clone, Copy)]
pub(crate) enum KindName {
    Ticket,
    PoolLine,
    Narrow,
    Widest,
    Least,
}

impl TryFrom<u64> for KindName {
    type Error = Wrong;

    fn try_from(number: u64) -> Result<KindName, Wrong> {
        match number {
            1 => Ok(KindName::Ticket),
            2 => Ok(KindName::PoolLine),
            200 => Ok(KindName::Narrow),
            201 => Ok(KindName::Widest),
            202 => Ok(KindName::Least),
            _ => Err(Wrong::NoKind),
        }
    }
}

// The stores that a script can choose.
#[derive(Clone, Copy)]
pub(crate) enum StoreName {
    Plain,
    Shifting,
}

impl TryFrom<&[u8]> for StoreName {
    type Error = Wrong;

    fn try_from(word: &[u8]) -> Result<StoreName, Wrong> {
        match word {
            b"plain" => Ok(StoreName::Plain),
            b"shifting" => Ok(StoreName::Shifting),
            _ => Err(Wrong::NoStore),
        }
    }
}

impl StoreName {
    // The bytes of an area of so many pages; a shifting store has one place more.
    fn area_of(self, pages: u64) -> Option<u64> {
        let places = match self {
            StoreName::Plain => pages,
            StoreName::Shifting => pages.checked_add(1)?,
        };
        places.checked_mul(512)
    }
}

#[derive(Drop)]
pub(crate) enum Command {
    Kind(KindName),
    // a store over this area
    Store(StoreName, Vec<u8>),
    Shape(ShapeNumbers),
    Format(ShapeNumbers),
    Open,
    Find(Sought),
    Close,
    Poke(Patch),
    Dump(u64),
}

// What is wrong with a line.
#[derive(Clone, Copy, Debug, Error)]
pub(crate) enum Wrong {
    #[error("there is no such call")]
    NoCall,
    #[error("a number has decimal digits only")]
    NoNumber,
    #[error("bytes are pairs of lower-case hex digits, or - for none")]
    NoBytes,
    #[error("there is no such store: it is plain or shifting")]
    NoStore,
    #[error("the call takes more words")]
    TooFew,
    #[error("the call takes fewer words")]
    TooMany,
    #[error("the kind comes first")]
    KindFirst,
    #[error("there is no store yet")]
    StoreFirst,
    #[error("there is no such kind: it is 1, 2, 200, 201 or 202")]
    NoKind,
    #[error("there is no page {page}, the store has {size}")]
    NoPage { page: u64, size: u32 },
    #[error("the bytes end past the page")]
    NoOffset,
    #[error("the index is open, and pages are changed from outside only while it is closed")]
    IsOpen,
    #[error("there is no memory for such an area")]
    NoMemory,
    #[error("there is no memory for so many bytes")]
    NoBuffer,
}

// A line that cannot be a command, or no memory to read it.
#[derive(Debug, Drop, Error)]
pub(crate) enum Unread {
    #[error(transparent)]
    Wrong(#[from] Wrong),
    #[error(transparent)]
    Memory(#[from(alloc)] AllocError),
}

// The library's test takes a form feed too, which ends no word of a script.
fn is_space(b: u8) -> bool {
    matches!(b, b' ' | b'\t' | b'\r' | b'\n')
}

// The bytes that a store can reach: 65,535 places, and a rest.
const REACH: usize = 65_535 * 512 + 511;

// What a buffer lent to find holds before the call.
const FILLER: u8 = 0xa5;

// So many bytes, if memory has them. All are asked for, and filled as far as they can be reached.
fn filled(alloc: Global, length: u64, reach: usize, byte: u8) -> Result<Vec<u8>, AllocError> {
    let length = length as usize;
    let mut buffer = Vec::with_capacity(alloc, length)?;
    buffer.resize(length.min(reach), byte)?;
    Ok(buffer)
}

// The words of a line that are still to be read, and the memory for what they say.
#[derive(Drop)]
struct Words<'a> {
    alloc: Global,
    rest: &'a [u8],
}

impl<'a> Words<'a> {
    fn next(&mut self) -> Option<&'a [u8]> {
        let rest = self.rest;
        let start = rest.iter().position(|b| !is_space(*b))?;
        let (_, rest) = rest.split_at(start);
        let end = rest.iter().position(|b| is_space(*b));
        let (word, rest) = rest.split_at(end.unwrap_or(rest.len()));
        self.rest = rest;
        Some(word)
    }

    fn word(&mut self) -> Result<&'a [u8], Wrong> {
        self.next().ok_or(Wrong::TooFew)
    }

    fn number(&mut self) -> Result<u64, Wrong> {
        decimal(self.word()?).ok_or(Wrong::NoNumber)
    }

    fn numbers(&mut self) -> Result<ShapeNumbers, Wrong> {
        Ok(ShapeNumbers {
            fanout: self.number()?,
            capacity: self.number()?,
            per_page: self.number()?,
        })
    }

    fn kind(&mut self) -> Result<KindName, Wrong> {
        KindName::try_from(self.number()?)
    }

    fn store(&mut self) -> Result<StoreName, Wrong> {
        StoreName::try_from(self.word()?)
    }

    // Bytes in hex.
    fn bytes(&mut self) -> Result<Vec<u8>, Unread> {
        let word = self.word()?;
        let bytes = bytes(self.alloc, word)?;
        Ok(bytes.ok_or(Wrong::NoBytes)?)
    }

    // A zeroed area of so many bytes.
    fn area(&self, bytes: Option<u64>) -> Result<Vec<u8>, Wrong> {
        let bytes = bytes.ok_or(Wrong::NoMemory)?;
        filled(self.alloc, bytes, REACH, 0).map_err(|_| Wrong::NoMemory)
    }

    fn sought(&mut self) -> Result<Sought, Unread> {
        let key = self.bytes()?;
        let length = self.number()?;
        let buffer = filled(self.alloc, length, usize::MAX, FILLER).map_err(|_| Wrong::NoBuffer)?;
        Ok(Sought { key, buffer })
    }

    fn patch(&mut self) -> Result<Patch, Unread> {
        let page = self.number()?;
        let offset = self.number()?;
        let bytes = self.bytes()?;
        Ok(Patch {
            page,
            offset,
            bytes,
        })
    }

    // The command of this name, with what its words say.
    fn command(&mut self, name: &[u8]) -> Result<Command, Unread> {
        let command = match name {
            b"kind" => Command::Kind(self.kind()?),
            b"store" => {
                let store = self.store()?;
                let pages = self.number()?;
                Command::Store(store, self.area(store.area_of(pages))?)
            }
            b"area" => {
                let store = self.store()?;
                let bytes = self.number()?;
                Command::Store(store, self.area(Some(bytes))?)
            }
            b"shape" => Command::Shape(self.numbers()?),
            b"format" => Command::Format(self.numbers()?),
            b"open" => Command::Open,
            b"find" => Command::Find(self.sought()?),
            b"close" => Command::Close,
            b"poke" => Command::Poke(self.patch()?),
            b"dump" => Command::Dump(self.number()?),
            _ => return Err(Unread::Wrong(Wrong::NoCall)),
        };
        Ok(command)
    }

    fn end(&mut self) -> Result<(), Wrong> {
        match self.next() {
            None => Ok(()),
            Some(_) => Err(Wrong::TooMany),
        }
    }
}

// The command on a line, if it has one: blank lines and those that begin with # are passed over.
pub(crate) fn command_on(alloc: Global, line: &[u8]) -> Result<Option<Command>, Unread> {
    let mut words = Words { alloc, rest: line };
    let name = match words.next() {
        None | Some([b'#', ..]) => return Ok(None),
        Some(name) => name,
    };
    let command = words.command(name)?;
    words.end()?;
    Ok(Some(command))
}
