// The search in a row of keys, by halving. It stands here and not beside the rows of `layout`: a function that takes a
// test has to ask that the test may be called, and no public function asks anything. Other crates have `Halving` there.
ghost use Rattle.std.specs.Prelude.{◌≡◌, ℕ, ◌+◌, ◌≤◌, Bool, List, length};
ghost use Rattle.std.specs.Borrow.{Bor};
ghost use Rattle.layout.specs.Rows.{key_in, Divides};

use layout::Row;

// How many keys pass a test, where all that do stand in front. It halves by hand: the width of a key is known only when
// the program runs, so the row is no slice of keys.
pub(crate) fn partition_point<F: Fn(&[u8]) -> bool>(row: Row<'_>, passes: F) -> usize
    requires { (key : Bor (List ℕ)) → length key.now ≡ row.key_width → F.pre passes key }
    ensures within { result ≤ row.entry.count }
    ensures divides { (test : List ℕ → Bool)
        → ((key : Bor (List ℕ)) (answer : Bool) → F.post passes key answer → answer ≡ test key.now)
        → Divides (λ i. test (key_in row.entry.key_width (row.entry.key_width + row.entry.value_width)
        row.entry.bytes.now i)) row.entry.count result }
{
    let mut low = 0;
    let mut high = row.count;
    while low < high {
        let middle = low + (high - low) / 2;
        if passes(row.key(middle)) {
            low = middle + 1;
        } else {
            high = middle;
        }
    }
    low
}
