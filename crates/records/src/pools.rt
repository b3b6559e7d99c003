// The betting pools and the runners that a bet may name, for every kind that has pools.
ghost use Rattle.std.specs.Prelude.{◌≡◌, ◌≤◌};
ghost use Rattle.records.specs.Tests.{between};
ghost use Rattle.records.specs.Pools.{pool_numbered, rule_for, rule_of, admitted, valid_bet};

use std::error::Error;
use std::fmt;

#[derive(Clone, Copy, Debug, PartialEq, Eq)]
pub enum Pool {
    Win,
    Place,
    Show,
    Quinella,
    Exacta,
    Trifecta,
}

// A number that no pool has.
#[derive(Clone, Copy, Debug, PartialEq, Eq)]
pub struct NoPool {
    pub number: u8,
}

// How many runners a bet names, 1 to 3, and whether their order is part of the bet.
#[derive(Clone, Copy, Debug, PartialEq, Eq)]
pub struct PoolRule {
    pub runners: u8,
    pub ordered: bool,
}

const ONE: PoolRule = PoolRule {
    runners: 1,
    ordered: true,
};

const QUINELLA: PoolRule = PoolRule {
    runners: 2,
    ordered: false,
};

const EXACTA: PoolRule = PoolRule {
    runners: 2,
    ordered: true,
};

const TRIFECTA: PoolRule = PoolRule {
    runners: 3,
    ordered: true,
};

impl TryFrom<u8> for Pool {
    type Error = NoPool;

    ghost try_from_gives = { λ number r. r ≡ pool_numbered number };

    fn try_from(number: u8) -> Result<Pool, NoPool> {
        match number {
            1 => Ok(Pool::Win),
            2 => Ok(Pool::Place),
            3 => Ok(Pool::Show),
            4 => Ok(Pool::Quinella),
            5 => Ok(Pool::Exacta),
            6 => Ok(Pool::Trifecta),
            _ => Err(NoPool { number }),
        }
    }
}

impl fmt::Display for Pool {
    fn fmt<W: fmt::Write>(&self, f: &mut fmt::Formatter<W>) -> fmt::Result {
        f.write_str(match self {
            Pool::Win => "win",
            Pool::Place => "place",
            Pool::Show => "show",
            Pool::Quinella => "quinella",
            Pool::Exacta => "exacta",
            Pool::Trifecta => "trifecta",
        })
    }
}

impl fmt::Display for NoPool {
    fn fmt<W: fmt::Write>(&self, f: &mut fmt::Formatter<W>) -> fmt::Result {
        write!(f, "no pool has the number {}", self.number)
    }
}

impl Error for NoPool {}

impl Pool {
    pub fn rule(self) -> PoolRule
        ensures { result ≡ rule_for self }
    {
        match self {
            Pool::Win | Pool::Place | Pool::Show => ONE,
            Pool::Quinella => QUINELLA,
            Pool::Exacta => EXACTA,
            Pool::Trifecta => TRIFECTA,
        }
    }
}

// The rule of a pool, by its number.
pub fn rule_of(pool: u8) -> Option<PoolRule>
    ensures { result ≡ rule_of pool }
{
    let pool = Pool::try_from(pool).ok()?;
    Some(pool.rule())
}

fn is_runner(n: u8) -> bool
    ensures { result ≡ between 1 40 n }
{
    (1..=40).contains(&n)
}

// Whether these three places hold a bet under the rule.
fn admits(rule: PoolRule, runners: [u8; 3]) -> bool
    requires { (1 ≤ rule.runners) × (rule.runners ≤ 3) }
    ensures { result ≡ admitted rule runners }
{
    let [r1, r2, r3] = runners;
    match rule.runners {
        1 => is_runner(r1) & (r2 == 0) & (r3 == 0),
        2 => {
            let two = is_runner(r1) & is_runner(r2) & (r3 == 0) & (r1 != r2);
            two & (rule.ordered | (r1 < r2))
        }
        _ => {
            let three = is_runner(r1) & is_runner(r2) & is_runner(r3);
            let apart = (r1 != r2) & (r1 != r3) & (r2 != r3);
            three & apart & (rule.ordered | ((r1 < r2) & (r2 < r3)))
        }
    }
}

// Whether a bet of this pool may name these runners.
pub fn valid_bet(pool: u8, runners: [u8; 3]) -> bool
    ensures { result ≡ valid_bet pool runners }
{
    rule_of(pool).is_some_and(|rule| admits(rule, runners))
}
