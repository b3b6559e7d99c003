// A run over one index: every command is answered by a line.
use crate::replay::Replay;
use crate::script::{Command, Patch, Sought, Wrong};
use index::{Call, Index, Lookup, Status};
use records::RecordKind;
use script_words::Hex;
use shape::ShapeNumbers;
use std::io;
use std::io::BufRead;
use stores::PageStore;

// Puts bytes into a page of a store that no index uses at the time.
fn put_bytes<S: PageStore + Drop>(
    store: &mut S,
    p: u32,
    offset: usize,
    bytes: &[u8],
) -> Result<(), Wrong> {
    let mut page = [0; 512];
    if offset > 512 || bytes.len() > 512 - offset {
        return Err(Wrong::NoOffset);
    }
    store.read(p, &mut page).map_err(|_| Wrong::NoOffset)?;
    page[offset..offset + bytes.len()].copy_from_slice(bytes);
    store.write(p, &page).map_err(|_| Wrong::NoOffset)
}

// The script, and the index that answers it.
#[derive(Drop)]
pub(crate) struct Session<'r, R, S: PageStore, K: RecordKind> {
    replay: Replay<'r, R>,
    index: Index<S, K>,
}

impl<'r, R: BufRead + Drop, S: PageStore + Drop, K: RecordKind + Drop> Session<'r, R, S, K> {
    pub(crate) fn new(replay: Replay<'r, R>, index: Index<S, K>) -> Session<'r, R, S, K> {
        Session { replay, index }
    }

    fn weigh(&mut self, numbers: ShapeNumbers) -> io::Result<()> {
        match self.index.weigh(numbers) {
            Ok(c) => {
                self.replay.counts.grant(0);
                let rt = self.replay.rt;
                print!(rt; "q {} L {} W {} ", c.batch, c.leaf_pages, c.slot_pages)?;
                println!(rt;
                    "u {} g {} N {} work {}",
                    c.least_children, c.changes_per_leaf, c.slots, c.work_bytes
                )
            }
            Err(refusal) => self.replay.refuse(refusal),
        }
    }

    fn perform(&mut self, call: Call) -> io::Result<()> {
        let answer = self.index.perform(call);
        self.replay.answer(answer)
    }

    fn open(&mut self) -> io::Result<()> {
        let answer = self.index.open();
        self.replay.answer(answer)
    }

    // The number of a page that the index has.
    fn page_number(&self, page: u64) -> Result<u32, Wrong> {
        let size = self.index.size();
        match u32::try_from(page) {
            Ok(p) if p < size => Ok(p),
            _ => Err(Wrong::NoPage { page, size }),
        }
    }

    fn page(&mut self, page: u64) -> Result<[u8; 512], Wrong> {
        let p = self.page_number(page)?;
        let mut buffer = [0; 512];
        let looked = self.index.look(p, &mut buffer);
        looked.map_err(|fault| Wrong::NoPage {
            page,
            size: fault.size,
        })?;
        Ok(buffer)
    }

    fn dump(&mut self, page: u64) -> io::Result<()> {
        match self.page(page) {
            Ok(bytes) => println!(self.replay.rt; "page {}", Hex(&bytes)),
            Err(wrong) => self.replay.fail(wrong),
        }
    }

    fn find(&mut self, sought: Sought) -> io::Result<()> {
        let Sought { key, mut buffer } = sought;
        match self.index.find(key.as_slice(), buffer.as_mut_slice()) {
            Ok(finding) => {
                self.replay.counts.grant(finding.touches);
                let word = match finding.lookup {
                    Lookup::Found => "found",
                    Lookup::Absent => "absent",
                };
                let hex = Hex(buffer.as_slice());
                println!(self.replay.rt; "{word} {hex} t {}", finding.touches)
            }
            Err(refusal) => self.replay.refuse(refusal),
        }
    }

    // The page and the offset of a patch, if it may be put in now.
    fn place_of(&self, patch: &Patch) -> Result<(u32, usize), Wrong> {
        let Status::Closed = self.index.status() else {
            return Err(Wrong::IsOpen);
        };
        let p = self.page_number(patch.page)?;
        if patch.offset > 511 {
            return Err(Wrong::NoOffset);
        }
        Ok((p, patch.offset as usize))
    }

    // A poke takes a closed index apart, changes the page in the store and makes a new closed index of it.
    fn poke(self, patch: Patch) -> io::Result<Session<'r, R, S, K>> {
        let place = self.place_of(&patch);
        let Session { mut replay, index } = self;
        let (p, offset) = match place {
            Ok(place) => place,
            Err(wrong) => {
                replay.fail(wrong)?;
                return Ok(Session { replay, index });
            }
        };
        let (mut store, kind) = index.into_parts();
        match put_bytes(&mut store, p, offset, patch.bytes.as_slice()) {
            Ok(()) => println!(replay.rt; "ok")?,
            Err(wrong) => replay.fail(wrong)?,
        }
        let index = Index::new(store, kind);
        Ok(Session { replay, index })
    }

    // Answers commands until the script ends or asks for another kind or store. The script goes on from there, and the
    // status is the one in which the index is left.
    pub(crate) fn serve(self) -> io::Result<(Replay<'r, R>, Status)> {
        let mut session = self;
        for _ in 0..u64::MAX {
            let Some(command) = session.replay.next_command()? else {
                break;
            };
            match command {
                Command::Shape(numbers) => session.weigh(numbers)?,
                Command::Format(numbers) => session.perform(Call::Format(numbers))?,
                Command::Open => session.open()?,
                Command::Find(sought) => session.find(sought)?,
                Command::Close => session.perform(Call::Close)?,
                Command::Poke(patch) => session = session.poke(patch)?,
                Command::Dump(page) => session.dump(page)?,
                other => {
                    session.replay.put_back(other);
                    break;
                }
            }
        }
        let Session { replay, index } = session;
        Ok((replay, index.status()))
    }
}
