// A tree on the pages of a store: its plan, its bytes, and the calls that put them there.
use crate::scribe::{Scribe, Spot, Store};
use anyhow::Context;
use builder::{Plan, Wish};
use std::alloc::Global;

#[derive(Drop)]
pub(crate) struct Sketch {
    pub plan: Plan,
    pub image: Vec<u8>,
    pub pages: u32,
}

// A length as a number of a page; nothing here comes near 2^32.
pub(crate) fn small(n: usize) -> u32 {
    u32::try_from(n).unwrap_or(u32::MAX)
}

// From the first byte that is not zero to the last: where that starts, and the bytes.
fn ink(page: &[u8]) -> Option<(u32, &[u8])> {
    let start = page.iter().position(|b| *b != 0)?;
    let last = page.iter().rposition(|b| *b != 0)?;
    let bytes = page.get(start..=last)?;
    Some((u32::try_from(start).ok()?, bytes))
}

impl Sketch {
    // The tree of a wish on a store with room for so many more slots.
    pub(crate) fn new(heap: Global, wish: Wish, spare: u32) -> anyhow::Result<Sketch> {
        let plan = Plan::new(heap, wish)?;
        let slots = small(plan.nodes.len()).saturating_add(spare);
        let pages = plan.slot_pages()?.saturating_mul(slots).saturating_add(1);
        let image = plan.image(heap, pages)?;
        Ok(Sketch { plan, image, pages })
    }

    // The bytes as they should be.
    pub(crate) fn sound(&self, spot: Spot, length: usize) -> anyhow::Result<&[u8]> {
        let from = spot.page as usize * 512 + spot.offset as usize;
        self.image
            .get(from..from.saturating_add(length))
            .context("there are no such bytes")
    }
}

// A tree that the script puts on a store, and asks there.
#[derive(Drop)]
pub(crate) struct Trial<'s> {
    pub scribe: Scribe<'s>,
    pub sketch: Sketch,
}

impl<'s> Trial<'s> {
    // Makes a store with room for the tree of a wish and so many more slots, and puts the tree there.
    pub(crate) fn lay(
        scribe: Scribe<'s>,
        store: Store,
        wish: Wish,
        spare: u32,
    ) -> anyhow::Result<Trial<'s>> {
        let sketch = Sketch::new(scribe.heap(), wish, spare)?;
        scribe.kind(wish.kind)?;
        scribe.store(store, sketch.pages)?;
        let trial = Trial { scribe, sketch };
        trial.pour()?;
        Ok(trial)
    }

    // Pokes every page that is not zero, as far as it is not.
    fn pour(&self) -> anyhow::Result<()> {
        for (page, bytes) in (0..self.sketch.pages).zip(self.sketch.image.chunks(512)) {
            if let Some((offset, part)) = ink(bytes) {
                self.scribe.poke(Spot { page, offset }, part)?;
            }
        }
        Ok(())
    }

    // A find of the key of this number, with what the plan says of it.
    pub(crate) fn find(&self, n: u32, more: usize) -> anyhow::Result<()> {
        let heap = self.scribe.heap();
        let kind = self.sketch.plan.wish.kind;
        let key = kind.key(heap, n)?;
        let room = kind.value_width() + more.min(64);
        match self.sketch.plan.says(n) {
            Some(value) => {
                let value = kind.value(heap, value)?;
                self.scribe.found(key.as_slice(), room, value.as_slice())?;
            }
            None => self.scribe.absent(key.as_slice(), room)?,
        }
        Ok(())
    }
}
