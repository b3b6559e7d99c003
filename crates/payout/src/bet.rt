// The value of a ticket, taken apart, and in words.
ghost use Rattle.std.specs.Prelude.{◌≡◌};
ghost use Rattle.std.specs.Result.{result_ok};
ghost use Rattle.payout.specs.Bets.{state_of, Taken};

use records::pools::{NoPool, Pool};
use std::fmt;

// What became of a ticket.
#[derive(Clone, Copy)]
pub(crate) enum TicketState {
    Sold,
    Paid,
    Void,
}

// A number that names no pool or no state, which stands in no valid value.
#[derive(Clone, Copy)]
pub(crate) struct Nameless;

#[derive(Clone, Copy)]
pub(crate) struct Bet {
    race: u8,
    pool: Pool,
    runners: [u8; 3],
    stake: u32,
    state: TicketState,
}

// Written out: what it makes has no parts, and a derived conversion makes one that holds the error.
impl From<NoPool> for Nameless {
    fn from(_e: NoPool) -> Nameless {
        Nameless
    }
}

impl TryFrom<u8> for TicketState {
    type Error = Nameless;

    ghost try_from_gives = { λ number r. result_ok r ≡ state_of number };

    fn try_from(number: u8) -> Result<TicketState, Nameless> {
        match number {
            1 => Ok(TicketState::Sold),
            2 => Ok(TicketState::Paid),
            3 => Ok(TicketState::Void),
            _ => Err(Nameless),
        }
    }
}

impl TryFrom<[u8; 10]> for Bet {
    type Error = Nameless;

    ghost try_from_gives = { Taken };

    fn try_from(value: [u8; 10]) -> Result<Bet, Nameless> {
        let [race, pool, r1, r2, r3, s3, s2, s1, s0, state] = value;
        Ok(Bet {
            race,
            pool: Pool::try_from(pool)?,
            runners: [r1, r2, r3],
            stake: u32::from_be_bytes([s3, s2, s1, s0]),
            state: TicketState::try_from(state)?,
        })
    }
}

impl fmt::Display for TicketState {
    fn fmt<W: fmt::Write>(&self, f: &mut fmt::Formatter<W>) -> fmt::Result {
        f.write_str(match self {
            TicketState::Sold => "sold",
            TicketState::Paid => "paid",
            TicketState::Void => "void",
        })
    }
}

impl fmt::Display for Bet {
    fn fmt<W: fmt::Write>(&self, f: &mut fmt::Formatter<W>) -> fmt::Result {
        let Bet {
            race,
            pool,
            runners: [r1, r2, r3],
            stake,
            state,
        } = *self;
        write!(f, "race {race}, {pool}, ")?;
        match pool {
            Pool::Win | Pool::Place | Pool::Show => write!(f, "runner {r1}, ")?,
            Pool::Quinella => write!(f, "runners {r1} and {r2} in any order, ")?,
            Pool::Exacta => write!(f, "runners {r1}, {r2} in this order, ")?,
            Pool::Trifecta => write!(f, "runners {r1}, {r2}, {r3} in this order, ")?,
        }
        write!(f, "stake {stake}, {state}")
    }
}
