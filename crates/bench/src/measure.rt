// What was measured, and how it is printed.
use index::{Finding, Lookup};
use std::fmt;
use std::time::Duration;

// So many things in a time.
#[derive(Clone, Copy)]
pub(crate) struct Rate {
    what: &'static str,
    many: u64,
    nanos: u128,
}

impl Rate {
    pub(crate) fn new(what: &'static str, many: u64, took: Duration) -> Rate {
        Rate {
            what,
            many,
            nanos: took.as_nanos(),
        }
    }
}

impl fmt::Display for Rate {
    fn fmt<W: fmt::Write>(&self, f: &mut fmt::Formatter<W>) -> fmt::Result {
        let Rate { what, many, nanos } = *self;
        let each = nanos / u128::from(many.max(1));
        let second = u128::from(many).saturating_mul(1_000_000_000) / nanos.max(1);
        write!(f, "{each} ns for one {what}, {second} in a second")
    }
}

// The pages that finds touched.
#[derive(Clone, Copy, Default)]
pub(crate) struct Touches {
    pub(crate) many: u64,
    found: u64,
    sum: u64,
    most: u64,
}

impl Touches {
    pub(crate) fn add(&mut self, finding: Finding) {
        self.many = self.many.saturating_add(1);
        self.sum = self.sum.saturating_add(finding.touches);
        self.most = self.most.max(finding.touches);
        if let Lookup::Found = finding.lookup {
            self.found = self.found.saturating_add(1);
        }
    }
}

impl fmt::Display for Touches {
    fn fmt<W: fmt::Write>(&self, f: &mut fmt::Formatter<W>) -> fmt::Result {
        let hundredths = self.sum.saturating_mul(100) / self.many.max(1);
        let (whole, part) = (hundredths / 100, hundredths % 100);
        let (most, found) = (self.most, self.found);
        write!(
            f,
            "{whole}.{part:02} on average, {most} at most; found {found}"
        )
    }
}
