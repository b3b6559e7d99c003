// The search, by halving, for the place that divides a row; the caller tests the keys. A function that called a closure for
// it would have to ask that the closure may be called; here the key to be tested is handed out, and nothing is asked.
ghost use Rattle.std.specs.Prelude.{◌≡◌, ℕ, ◌+◌, ◌-◌, ◌<◌, ◌≤◌, Bool, true, false, length, MatchOption};
ghost use Rattle.layout.specs.Rows.{key_in, halfway, Halved, Divides};

use crate::rows::Row;

// How far the halving of a row has come: the place lies from `low` to `high`.
#[derive(Clone, Copy)]
pub struct Halving<'a> {
    pub row: Row<'a>,
    pub low: usize,
    pub high: usize,
    pub ghost between: { low ≤ high },
    pub ghost within: { high ≤ row.count },
}

impl<'a> Halving<'a> {
    // At first the place may lie anywhere in the row.
    pub fn new(row: Row<'a>) -> Halving<'a>
        ensures row { result.row ≡ row.entry }
        ensures ends { (result.low ≡ 0) × (result.high ≡ row.entry.count) }
        ensures halved { (test : ℕ → Bool) → Halved test row.entry.count result.low result.high }
    {
        Halving {
            row,
            low: 0,
            high: row.count,
        }
    }

    // The key in the middle, which is to be tested next; none where the place is found, which then is `low`.
    pub fn key(&self) -> Option<&'a [u8]>
        ensures { MatchOption result
            ((self.now.low ≡ self.now.high) × ((test : ℕ → Bool)
            → Halved test self.now.row.count self.now.low self.now.high
            → Divides test self.now.row.count self.now.low))
            (λ key. (self.now.low < self.now.high) × (length key.now ≡ self.now.row.key_width)
            × (key.now ≡ key_in self.now.row.key_width (self.now.row.key_width + self.now.row.value_width)
            self.now.row.bytes.now (halfway self.now.low self.now.high))) }
    {
        if self.low < self.high {
            Some(self.row.key(self.middle()))
        } else {
            None
        }
    }

    fn middle(&self) -> usize
        ensures { result ≡ halfway self.now.low self.now.high }
    {
        self.low + (self.high - self.low) / 2
    }

    // Takes the answer for the key in the middle, whether it passed. Where the place is found already, nothing changes.
    pub fn tell(&mut self, passes: bool)
        ensures row { self.new.row ≡ self.old.row }
        ensures passed { self.old.low < self.old.high → passes ≡ true
            → (self.new.low ≡ halfway self.old.low self.old.high + 1) × (self.new.high ≡ self.old.high) }
        ensures failed { self.old.low < self.old.high → passes ≡ false
            → (self.new.low ≡ self.old.low) × (self.new.high ≡ halfway self.old.low self.old.high) }
        ensures found { self.old.high ≤ self.old.low
            → (self.new.low ≡ self.old.low) × (self.new.high ≡ self.old.high) }
        ensures halved { (test : ℕ → Bool)
            → Halved test self.old.row.count self.old.low self.old.high
            → (self.old.low < self.old.high → passes ≡ test (halfway self.old.low self.old.high))
            → Halved test self.old.row.count self.new.low self.new.high }
        ensures less { self.old.low < self.old.high
            → self.new.high - self.new.low < self.old.high - self.old.low }
    {
        if self.low < self.high {
            let middle = self.middle();
            if passes {
                self.low = middle + 1;
            } else {
                self.high = middle;
            }
        }
    }
}
