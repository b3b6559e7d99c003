// A run at the window: every ticket asked for is answered by a line.
use crate::bet::Bet;
use crate::name::TicketName;
use crate::ticket::NoTicket;
use crate::words::{Numbers, Why};
use index::{Index, Lookup};
use records::Ticket;
use std::io::{BufRead, BufReader};
use std::{fmt, io};
use stores::PageStore;

// What was asked and answered so far.
#[derive(Clone, Copy, Default)]
struct Tally {
    asked: u64,
    found: u64,
    absent: u64,
    invalid: u64,
    touched: u64,
}

impl fmt::Display for Tally {
    fn fmt<W: fmt::Write>(&self, f: &mut fmt::Formatter<W>) -> fmt::Result {
        let Tally {
            asked,
            found,
            absent,
            invalid,
            touched,
        } = *self;
        write!(
            f,
            "tickets asked: {asked}, found: {found}, not there: {absent}, "
        )?;
        write!(f, "invalid: {invalid}; pages touched: {touched}")
    }
}

// The index asked, and what it answered so far.
#[derive(Drop)]
pub(crate) struct Window<'a, S: PageStore> {
    rt: &'a HostRuntime,
    index: Index<S, Ticket>,
    tally: Tally,
}

impl<'a, S: PageStore + Drop> Window<'a, S> {
    // A window over an index that was opened at the cost of so many pages.
    pub(crate) fn new(rt: &'a HostRuntime, index: Index<S, Ticket>, touched: u64) -> Window<'a, S> {
        let tally = Tally {
            touched,
            ..Tally::default()
        };
        Window { rt, index, tally }
    }

    pub(crate) fn print_tally(&self) -> io::Result<()> {
        self.rt.println(self.tally)
    }

    // The answer to words that name no ticket.
    fn refuse(&mut self, text: &str, why: NoTicket) -> io::Result<()> {
        self.tally.invalid = self.tally.invalid.saturating_add(1);
        println!(self.rt; "\"{text}\" is no ticket: {why}")
    }

    // The line of a ticket that the index has.
    fn show(&mut self, name: TicketName, value: [u8; 10]) -> io::Result<()> {
        self.tally.found = self.tally.found.saturating_add(1);
        match Bet::try_from(value) {
            Ok(bet) => println!(self.rt; "{name}: {bet}"),
            Err(_) => println!(self.rt; "{name}: its value is no ticket's"),
        }
    }

    fn look_up(&mut self, name: TicketName) -> io::Result<()> {
        let mut value = [0; 10];
        match self.index.find(&name.key(), &mut value) {
            Ok(finding) => {
                self.tally.touched = self.tally.touched.wrapping_add(finding.touches);
                match finding.lookup {
                    Lookup::Found => self.show(name, value),
                    Lookup::Absent => {
                        self.tally.absent = self.tally.absent.saturating_add(1);
                        println!(self.rt; "{name}: not there")
                    }
                }
            }
            Err(refusal) => {
                self.tally.touched = self.tally.touched.wrapping_add(refusal.touches);
                let (why, numbers) = (Why(refusal), Numbers(refusal));
                println!(self.rt; "{name}: not looked up: {why} ({numbers})")
            }
        }
    }

    // Answers for the ticket that the text named, or says why it named none.
    fn answer(&mut self, text: &str, asked: Result<TicketName, NoTicket>) -> io::Result<()> {
        self.tally.asked = self.tally.asked.saturating_add(1);
        match asked {
            Ok(name) => self.look_up(name),
            Err(why) => self.refuse(text, why),
        }
    }

    // The tickets of the arguments, three words each.
    pub(crate) fn answer_words(&mut self, tickets: &[[String; 3]]) -> anyhow::Result<()> {
        for [day, course, serial] in tickets {
            let text = format!(in self.rt.alloc(); "{day} {course} {serial}")?;
            let asked = TicketName::of_words(day.as_str(), course.as_str(), serial.as_str());
            self.answer(text.as_str(), asked)?;
        }
        Ok(())
    }

    fn answer_line(&mut self, line: &[u8]) -> io::Result<()> {
        let Ok(text) = std::str::from_utf8(line) else {
            return self.answer("?", Err(NoTicket::NoText));
        };
        let text = text.trim();
        if text.is_empty() || text.starts_with('#') {
            return Ok(());
        }
        self.answer(text, text.parse())
    }

    // The tickets of standard input, one to a line.
    pub(crate) fn answer_lines(&mut self) -> io::Result<()> {
        let mut reader = BufReader::new(self.rt.alloc(), self.rt.stdin())?;
        let mut line = Vec::new(self.rt.alloc());
        for _ in 0..u64::MAX {
            line.clear();
            if reader.read_until(b'\n', &mut line)? == 0 {
                return Ok(());
            }
            self.answer_line(line.as_slice())?;
        }
        Ok(())
    }
}
