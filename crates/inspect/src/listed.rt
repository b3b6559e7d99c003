// The slots listed so far in a walk.
ghost use Rattle.std.specs.Prelude.{◌≡◌, ℕ, ◌<◌, true, List, [], ◌∷◌, ◌==◌};
ghost use Rattle.layout.specs.Nodes.{times_in};
ghost use Rattle.inspect.specs.Listed.{Lists};

// The count of listed slots stops here; no index has as many.
const MOST_COUNTED: usize = 65_535;

// Whether each slot was listed, and how many were: an array for all the slots that there can be, since there is no
// heap.
#[derive(Drop)]
pub(crate) struct Listed {
    pub flags: [bool; 1024],
    pub count: usize,
}

impl Listed {
    // The root alone is listed.
    pub(crate) fn root(slot: usize) -> Listed
        requires { slot < 1024 }
        ensures { Lists result (slot ∷ []) }
    {
        let mut listed = Listed {
            flags: [false; 1024],
            count: 1,
        };
        listed.flags[slot] = true;
        listed
    }

    // Lists a slot, and tells whether it was not listed before.
    pub(crate) fn list(&mut self, slot: usize) -> bool
        requires { slot < 1024 }
        ensures { (before : List ℕ) → Lists self.old before
            → (result ≡ (times_in slot before == 0)) × (result ≡ true → Lists self.new (slot ∷ before)) }
    {
        if self.flags[slot] {
            return false;
        }
        self.flags[slot] = true;
        self.count = self.count.saturating_add(1).min(MOST_COUNTED);
        true
    }
}
