// The script as it is read, and what was accomplished so far.
use crate::script::{Command, Unread, Wrong, command_on};
use index::{Done, Refusal};
use std::io;
use std::io::BufRead;

// How many calls were granted and refused, how many lines were in error, and the pages touched.
#[derive(Clone, Copy, Default)]
pub(crate) struct Counts {
    pub granted: u64,
    pub refused: u64,
    pub errors: u64,
    pub touched: u64,
}

impl Counts {
    pub(crate) fn grant(&mut self, touches: u64) {
        self.granted = self.granted.saturating_add(1);
        self.touched = self.touched.wrapping_add(touches);
    }

    fn refuse(&mut self, touches: u64) {
        self.refused = self.refused.saturating_add(1);
        self.touched = self.touched.wrapping_add(touches);
    }
}

#[derive(Drop)]
pub(crate) struct Replay<'r, R> {
    pub rt: &'r HostRuntime,
    reader: R,
    line: Vec<u8>,
    number: u64,
    // a command that was read and put back
    pending: Option<Command>,
    pub counts: Counts,
}

impl<'r, R: BufRead + Drop> Replay<'r, R> {
    pub(crate) fn new(rt: &'r HostRuntime, reader: R) -> Replay<'r, R> {
        Replay {
            rt,
            reader,
            line: Vec::new(rt.alloc()),
            number: 0,
            pending: None,
            counts: Counts::default(),
        }
    }

    // The command that was put back, or the next of the script, after an error line for each line that is none; nothing
    // at the end of the script.
    pub(crate) fn next_command(&mut self) -> io::Result<Option<Command>> {
        if let Some(command) = self.pending.take() {
            return Ok(Some(command));
        }
        for _ in 0..u64::MAX {
            self.line.clear();
            if self.reader.read_until(b'\n', &mut self.line)? == 0 {
                break;
            }
            self.number = self.number.saturating_add(1);
            match command_on(self.rt.alloc(), self.line.as_slice()) {
                Ok(Some(command)) => return Ok(Some(command)),
                Ok(None) => {}
                Err(Unread::Wrong(wrong)) => self.fail(wrong)?,
                Err(Unread::Memory(e)) => return Err(e.into()),
            }
        }
        Ok(None)
    }

    pub(crate) fn put_back(&mut self, command: Command) {
        self.pending = Some(command);
    }

    pub(crate) fn fail(&mut self, wrong: Wrong) -> io::Result<()> {
        self.counts.errors = self.counts.errors.saturating_add(1);
        println!(self.rt; "error line {}: {wrong}", self.number)
    }

    pub(crate) fn refuse(&mut self, refusal: Refusal) -> io::Result<()> {
        self.counts.refuse(refusal.touches);
        let r = refusal.numbers();
        println!(self.rt;
            "refused {} {} {} {} t {}",
            r.number, r.layer, r.page, r.detail, r.touches
        )
    }

    pub(crate) fn answer(&mut self, answer: Result<Done, Refusal>) -> io::Result<()> {
        match answer {
            Ok(done) => {
                self.counts.grant(done.touches);
                println!(self.rt; "ok t {}", done.touches)
            }
            Err(refusal) => self.refuse(refusal),
        }
    }
}
