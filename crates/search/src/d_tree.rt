// The search of a d-tree, which is the entries of one node: the first keys on its head page tell the one leaf page that
// decides.
ghost use Rattle.std.specs.Prelude.{◌≡◌, ℕ, ◌+◌, ◌≤◌, List, length, IfOk, Option};
ghost use Rattle.stores.specs.Store.{page_at};
ghost use Rattle.stores.specs.Looked.{Looked};
ghost use Rattle.shape.specs.Shape.{ceiling};
ghost use Rattle.shape.specs.Made.{chosen};
ghost use Rattle.layout.specs.Pages.{ByteEntry, leaf_page};
ghost use Rattle.layout.specs.Holds.{ValidKey};
ghost use Rattle.search.specs.Found.{said_by, said_at, FoundPlace, GoodEntries, DTreeOn, PagesUpTo};

use crate::rows::partition_point;
use crate::sought::Sought;
use layout::{PageFault, Row, Rule, copied, mark_word};
use records::RecordKind;
use stores::PageStore;

// The bytes of a value, at the start of an array as wide as the widest, since there is no heap to hold fewer.
pub type ValueBytes = [u8; 64];

// What the entries of a node say of a key. Its three cases have names, which an option in an option has not.
#[derive(Clone, Copy)]
pub(crate) enum Saying {
    // no entry has the key
    Nothing,
    Tombstone,
    Live(ValueBytes),
}

// The place of a key among the entries of a node.
#[derive(Clone, Copy)]
pub(crate) struct Place {
    // how many entries are below the key
    pub below: usize,
    // what the entry with the key says, if there is one
    pub saying: Saying,
}

impl<K: RecordKind> Sought<'_, K> {
    // What entry i of a row says, if there is one and it has the key.
    fn saying_at(&self, marks: u64, row: Row<'_>, i: usize) -> Saying
        requires widths { (row.key_width ≡ (K.model self.now.kind.now).key_width)
            × (row.value_width ≡ (K.model self.now.kind.now).value_width) }
        requires few { row.count ≤ 64 }
        ensures { (older : Option (List ℕ)) → said_by (K.model self.now.kind.now).value_width result older
            ≡ said_at (K.model self.now.kind.now) marks row.entry.count row.entry.bytes.now i
            self.now.key.now older }
    {
        if i >= row.count || row.key(i) != self.key {
            return Saying::Nothing;
        }
        if (marks >> i) % 2 == 1 {
            Saying::Tombstone
        } else {
            Saying::Live(copied(row.value(i)))
        }
    }

    // Searches leaf page p, which is to have t entries.
    fn in_leaf_page<S: PageStore>(
        &self,
        store: &mut S,
        t: usize,
        p: u32,
    ) -> Result<Place, PageFault>
        requires { t ≤ (chosen self.now.shape).per_page }
        ensures looked { Looked (S.state store.old) 1 (S.state store.new) }
        ensures within { IfOk result (λ place. place.below ≤ t) }
        ensures answer { (es : List ByteEntry) → page_at (S.state store.old).pages p
            ≡ leaf_page (K.model self.now.kind.now) es → length es ≡ t
            → GoodEntries (K.model self.now.kind.now) es
            → ValidKey (K.model self.now.kind.now) self.now.key.now
            → FoundPlace (K.model self.now.kind.now) self.now.key.now es result }
    {
        let mut page = [0; 512];
        store.read(p, &mut page)?;
        Rule::LeafCount.keep(page[0] as usize == t, p)?;
        let row = Row::of_entries(self.kind, &page, t);
        let below = partition_point(row, |key| self.order(key).is_lt());
        let saying = self.saying_at(mark_word(&page), row, below);
        Ok(Place { below, saying })
    }

    // How many of the leaf pages that are filled begin at the key or below it, by head page p.
    fn pages_up_to<S: PageStore>(
        &self,
        store: &mut S,
        filled: usize,
        p: u32,
    ) -> Result<usize, PageFault>
        requires { filled ≤ 16 }
        ensures looked { Looked (S.state store.old) 1 (S.state store.new) }
        ensures within { IfOk result (λ n. n ≤ filled) }
        ensures answer { (es : List ByteEntry) → filled ≡ ceiling (length es) (chosen self.now.shape).per_page
            → DTreeOn (K.model self.now.kind.now) (chosen self.now.shape).per_page
            (page_at (S.state store.old).pages) p es
            → ValidKey (K.model self.now.kind.now) self.now.key.now
            → PagesUpTo (K.model self.now.kind.now) (chosen self.now.shape).per_page
            self.now.key.now es result }
    {
        let mut head = [0; 512];
        store.read(p, &mut head)?;
        Rule::HeadPage.keep(head[0] as usize == filled, p)?;
        let bytes: &[u8] = &head;
        let firsts = Row::of_keys(self.kind, &bytes[1..], filled);
        Ok(partition_point(firsts, |key| self.order(key).is_le()))
    }

    // How many leaf pages the entries of a node fill.
    fn leaf_pages(&self, entries: usize) -> usize
        requires { entries ≤ (chosen self.now.shape).capacity }
        ensures count { result ≡ ceiling entries (chosen self.now.shape).per_page }
        ensures few { result ≤ 16 }
    {
        self.shape.pages_of(entries)
    }

    // Searches the d-tree of s entries whose head page is p.
    pub(crate) fn in_d_tree<S: PageStore>(
        &self,
        store: &mut S,
        s: usize,
        p: u32,
    ) -> Result<Place, PageFault>
        requires entries { s ≤ (chosen self.now.shape).capacity }
        requires page { p ≤ 65536 }
        ensures looked { Looked (S.state store.old) 2 (S.state store.new) }
        ensures answer { (es : List ByteEntry)
            → DTreeOn (K.model self.now.kind.now) (chosen self.now.shape).per_page
            (page_at (S.state store.old).pages) p es
            → length es ≡ s → ValidKey (K.model self.now.kind.now) self.now.key.now
            → FoundPlace (K.model self.now.kind.now) self.now.key.now es result }
    {
        let pages = self.pages_up_to(store, self.leaf_pages(s), p)?;
        if pages == 0 {
            return Ok(Place {
                below: 0,
                saying: Saying::Nothing,
            });
        }
        let per_page = self.shape.per_page() as usize;
        let before = (pages - 1) * per_page;
        let t = per_page.min(s - before);
        let place = self.in_leaf_page(store, t, p + pages as u32)?;
        Ok(Place {
            below: before + place.below,
            saying: place.saying,
        })
    }
}
