// Rows of keys: how many pass a test. The search hands out the keys, and whoever searches tests them; so a search that is
// handed the test is a few lines, and its clauses follow.
ghost use Rattle.std.specs.Prelude.{◌≡◌, ℕ, ◌+◌, ◌≤◌, Bool, List, length};
ghost use Rattle.std.specs.Borrow.{Bor};
ghost use Rattle.layout.specs.Rows.{key_in, Divides};

use layout::{Halving, Row};
use limit_kinds::Narrow;

// How many keys pass a test, where all that do stand in front.
fn partition_point<F: Fn(&[u8]) -> bool>(row: &Row<'_>, passes: F) -> usize
    requires { (key : Bor (List ℕ)) → length key.now ≡ row.now.key_width → F.pre passes key }
    ensures within { result ≤ row.now.count }
    ensures divides { (test : List ℕ → Bool)
        → ((key : Bor (List ℕ)) (answer : Bool) → F.post passes key answer → answer ≡ test key.now)
        → Divides (λ i. test (key_in row.now.key_width (row.now.key_width + row.now.value_width)
        row.now.bytes.now i)) row.now.count result }
{
    let mut halving = Halving::new(*row);
    while let Some(key) = halving.key() {
        halving.tell(passes(key));
    }
    halving.low
}

// Key i of a row is 0, 2 i, 0.
fn even_keys() -> [u8; 192] {
    let mut bytes = [0; 192];
    for i in 0..64u8 {
        bytes[3 * usize::from(i) + 1] = 2 * i;
    }
    bytes
}

#[test]
fn rows_are_halved(rt: HostRuntime) {
    let bytes = even_keys();
    for count in 0..=64usize {
        let row = Row::of_keys(&Narrow, &bytes, count);
        for limit in 0..=130u8 {
            let sought: &[u8] = &[0, limit, 0];
            let below = partition_point(&row, |key| key < sought);
            assert_eq!(rt; below, usize::from(limit).div_ceil(2).min(count));
            let up_to = partition_point(&row, |key| key <= sought);
            assert_eq!(rt; up_to, (usize::from(limit) / 2 + 1).min(count));
        }
    }
}
