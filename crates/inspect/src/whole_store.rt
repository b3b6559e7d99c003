// The inspection of a whole store: page 0, the last page of the used slots, then the tree.
ghost use Rattle.std.specs.Prelude.{◌≡◌, ◌+◌, ◌*◌, ◌≤◌, length, IfOk, Result, MatchResult};
ghost use Rattle.records.specs.Kind.{record_width};
ghost use Rattle.stores.specs.Store.{WasRead};
ghost use Rattle.shape.specs.Shape.{slot_pages_of};
ghost use Rattle.layout.specs.Holds.{Stored};
ghost use Rattle.layout.specs.Inspection.{inspection};
ghost use Rattle.stores.specs.Looked.{Looked};
ghost use Rattle.inspect.specs.Page0.{header_found, header_held};

use crate::page_0::inspect_header;
use crate::whole_tree::inspect_tree;
use layout::{Header, OpenFault, PageFault};
use records::RecordKind;
use stores::{Page, PageStore};

// Reads page p; a page that the store has not is a fault of that page.
fn read_page<S: PageStore>(store: &mut S, p: u32, page: &mut Page) -> Result<(), PageFault>
    ensures { MatchResult result
        (λ _. WasRead (S.state store.old) p (S.state store.new) page.exit.now)
        (λ f. (f ≡ PageFault.Store (record { page = p; size = length (S.state store.old).pages }))
        × (length (S.state store.old).pages ≤ p)
        × (S.state store.new ≡ S.state store.old)) }
{
    store.read(p, page)?;
    Ok(())
}

// Inspects all pages of an index, and tells the numbers of page 0.
pub fn inspect_store<S: PageStore, K: RecordKind>(
    store: &mut S,
    kind: &K,
) -> Result<Header, OpenFault>
    ensures pages { (S.state store.new).pages ≡ (S.state store.old).pages }
    ensures width { IfOk result (λ h. h.shape.record_width ≡ record_width (K.model kind.now)) }
    ensures answer { header_found result ≡ header_held (inspection (K.model kind.now)
        (S.state store.old).pages) }
    ensures looked { (s : Stored)
        → inspection (K.model kind.now) (S.state store.old).pages ≡ Result.Ok s
        → Looked (S.state store.old) (2 + s.index.used * slot_pages_of s.shape)
        (S.state store.new) }
{
    let mut page = [0; 512];
    read_page(store, 0, &mut page)?;
    let header = inspect_header(kind, &page)?;
    let last = u32::from(header.used()) * u32::from(header.shape().slot_pages());
    read_page(store, last, &mut page)?;
    inspect_tree(store, kind, &header)?;
    Ok(header)
}
