// Stores that open, and what finds must answer on them.
use crate::scribe::{Refusal, Scribe, Store};
use crate::sketch::{Trial, small};
use crate::trees::{DEEP, HOLLOW, LEAST, LINES, NARROW, TICKETS, WIDEST};
use builder::{KindName, Wish};
use std::alloc::{AllocError, Global};

// A tree whose stores open: what the script says of it, and how far the keys in a leaf node's range stand apart that
// are asked for beside its first three.
#[derive(Clone, Copy)]
struct Case {
    text: &'static str,
    wish: Wish,
    step: u32,
}

const CASES: [Case; 7] = [
    Case {
        text: "tickets, three levels",
        wish: TICKETS,
        step: 2,
    },
    Case {
        text: "tickets, an s-key that is the low end of its node's range",
        wish: HOLLOW,
        step: 1,
    },
    Case {
        text: "pool lines, three levels",
        wish: LINES,
        step: 3,
    },
    Case {
        text: "kind 200, full leaf pages of 64 entries",
        wish: NARROW,
        step: 19,
    },
    Case {
        text: "kind 201, the widest records",
        wish: WIDEST,
        step: 3,
    },
    Case {
        text: "kind 202, one node with a full leaf page of 64 entries",
        wish: LEAST,
        step: 7,
    },
    Case {
        text: "kind 202, four levels, nodes without entries",
        wish: DEEP,
        step: 2,
    },
];

// Bytes of the key width that are no key.
pub(crate) fn no_key(heap: Global, kind: KindName) -> Result<Vec<u8>, AllocError> {
    let fill = match kind {
        KindName::Ticket | KindName::PoolLine => 0,
        KindName::Narrow | KindName::Widest | KindName::Least => 0xff,
    };
    Ok(vec![in heap; fill; kind.key_width()]?)
}

impl Trial<'_> {
    // Finds of keys from below the tree's first to above its last, some in each leaf node; every s-key is among them.
    fn sweep(&self, step: u32) -> anyhow::Result<()> {
        let plan = &self.sketch.plan;
        let wish = &plan.wish;
        let leaves = plan.nodes.iter().filter(|node| node.children.is_empty());
        let low = wish.first.saturating_sub(1);
        let span = wish.leaf_entries.saturating_mul(wish.stride);
        let end = low
            .saturating_add(span.saturating_mul(small(leaves.count())))
            .saturating_add(2);
        for n in low..end {
            let place = n.wrapping_sub(wish.first);
            if span > 0 && (place % span < 3 || n % step.max(1) == 0) {
                self.find(n, (n % 3) as usize)?;
            }
        }
        Ok(())
    }

    // Finds that are refused whatever the tree holds.
    fn refusals(&self) -> anyhow::Result<()> {
        let scribe = self.scribe;
        let wish = &self.sketch.plan.wish;
        let key = wish.kind.key(scribe.heap(), wish.first)?;
        let room = wish.kind.value_width();
        scribe.note(
            "buffers that are too short, keys of the wrong length, a key that is not valid",
        )?;
        scribe.find(key.as_slice(), 0, Refusal::ShortBuffer)?;
        scribe.find(key.as_slice(), room.saturating_sub(1), Refusal::ShortBuffer)?;
        let mut longer = key.clone()?;
        longer.push(1)?;
        scribe.find(longer.as_slice(), room, Refusal::BadKey)?;
        scribe.find(&[], room, Refusal::BadKey)?;
        if let Some(shorter) = key.as_slice().get(1..) {
            scribe.find(shorter, room, Refusal::BadKey)?;
        }
        let bad = no_key(scribe.heap(), wish.kind)?;
        scribe.find(bad.as_slice(), room, Refusal::BadKey)?;
        Ok(())
    }
}

// A store that opens: finds, open on an open index, close twice, find on a closed one.
fn opens(scribe: Scribe, store: Store, case: Case) -> anyhow::Result<()> {
    let Case { text, wish, step } = case;
    scribe.note(text)?;
    let trial = Trial::lay(scribe, store, wish, 1)?;
    let key = wish.kind.key(scribe.heap(), wish.first)?;
    scribe.find(key.as_slice(), 64, Refusal::Closed)?;
    scribe.call("open", "ok")?;
    trial.sweep(step)?;
    trial.refusals()?;
    scribe.call("open", "ok")?;
    trial.find(wish.first, 5)?;
    scribe.call("close", "ok")?;
    scribe.call("close", "ok")?;
    scribe.find(key.as_slice(), 64, Refusal::Closed)?;
    Ok(())
}

// An empty index, as format makes it.
fn empty(scribe: Scribe) -> anyhow::Result<()> {
    scribe.note("an empty index of tickets, formatted, closed and opened again")?;
    scribe.kind(KindName::Ticket)?;
    scribe.store(Store::Shifting, 24)?;
    scribe.call("format 3 6 2", "ok")?;
    let key = KindName::Ticket.key(scribe.heap(), 5)?;
    scribe.absent(key.as_slice(), 10)?;
    scribe.call("close", "ok")?;
    scribe.call("open", "ok")?;
    scribe.absent(key.as_slice(), 12)?;
    scribe.call("close", "ok")?;
    Ok(())
}

pub(crate) fn valid_stores(scribe: Scribe) -> anyhow::Result<()> {
    empty(scribe)?;
    for store in [Store::Plain, Store::Shifting] {
        for case in &CASES {
            opens(scribe, store, *case)?;
        }
    }
    Ok(())
}
