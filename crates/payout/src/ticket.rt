// From the words of a person to the key of a ticket.
ghost use Rattle.std.specs.Prelude.{◌≡◌, true, ◌++◌};
ghost use Rattle.records.specs.Bytes.{bytes_of};
ghost use Rattle.records.specs.Ticket.{valid_ticket_key};
ghost use Rattle.payout.specs.Names.{Named};

use crate::name::TicketName;
use std::fmt;
use std::str::FromStr;
use thiserror::Error;

// Why some words name no ticket.
#[derive(Clone, Copy, Debug, Error)]
pub(crate) enum NoTicket {
    #[error("a ticket is named by three numbers, day course serial")]
    NotThree,
    #[error("the line is not text")]
    NoText,
    #[error("day, course and serial are whole numbers below 2^64")]
    NoNumber,
    #[error("there is no day {0}, days go from 1 to 365")]
    Day(u64),
    #[error("there is no course {0}, courses go from 1 to 999")]
    Course(u64),
    #[error("there is no serial {0}, serials go from 1 to 99999999")]
    Serial(u64),
}

impl fmt::Display for TicketName {
    fn fmt<W: fmt::Write>(&self, f: &mut fmt::Formatter<W>) -> fmt::Result {
        let TicketName {
            day,
            course,
            serial,
        } = *self;
        write!(f, "day {day}, course {course}, serial {serial}")
    }
}

fn number_in(word: &str) -> Result<u64, NoTicket> {
    word.parse::<u64>().map_err(|_| NoTicket::NoNumber)
}

impl TicketName {
    // The ticket of these numbers, or the first of them that no ticket has.
    pub(crate) fn new(day: u64, course: u64, serial: u64) -> Result<TicketName, NoTicket>
        ensures { Named day course serial result }
    {
        if !(1..=365).contains(&day) {
            return Err(NoTicket::Day(day));
        }
        if !(1..=999).contains(&course) {
            return Err(NoTicket::Course(course));
        }
        if !(1..=99_999_999).contains(&serial) {
            return Err(NoTicket::Serial(serial));
        }
        Ok(TicketName {
            day: day as u16,
            course: course as u16,
            serial: serial as u32,
        })
    }

    // The ticket that three words name.
    pub(crate) fn of_words(day: &str, course: &str, serial: &str) -> Result<TicketName, NoTicket> {
        TicketName::new(number_in(day)?, number_in(course)?, number_in(serial)?)
    }

    // The ticket's key, which is valid: find does not refuse it.
    pub(crate) fn key(self) -> [u8; 8]
        ensures bytes { result ≡ bytes_of 4 self.serial ++ (bytes_of 2 self.course ++ bytes_of 2 self.day) }
        ensures valid { valid_ticket_key result ≡ true }
    {
        let [s3, s2, s1, s0] = self.serial.to_be_bytes();
        let [c1, c0] = self.course.to_be_bytes();
        let [d1, d0] = self.day.to_be_bytes();
        [s3, s2, s1, s0, c1, c0, d1, d0]
    }
}

// The ticket that a line names, by exactly three words.
impl FromStr for TicketName {
    type Err = NoTicket;

    fn from_str(line: &str) -> Result<TicketName, NoTicket> {
        let mut words = line.split_whitespace();
        let (Some(day), Some(course), Some(serial), None) = (
            words.next(),
            words.next(),
            words.next(),
            words.next(),
        ) else {
            return Err(NoTicket::NotThree);
        };
        TicketName::of_words(day, course, serial)
    }
}
