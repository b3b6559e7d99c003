// The inspection of a whole tree: the walk from the root, and then rule 12.
ghost use Rattle.std.specs.Prelude.{◌≡◌, ◌-◌, ◌*◌, ◌<◌, length, Result};
ghost use Rattle.records.specs.Kind.{record_width};
ghost use Rattle.stores.specs.Store.{page_at};
ghost use Rattle.shape.specs.Shape.{slot_pages_of};
ghost use Rattle.shape.specs.Made.{chosen};
ghost use Rattle.layout.specs.Holds.{ByteTree};
ghost use Rattle.layout.specs.Walk.{walk_tree};
ghost use Rattle.inspect.specs.Bounds.{told};
ghost use Rattle.stores.specs.Looked.{Looked};
ghost use Rattle.inspect.specs.Walked.{nodes_of};

use crate::listed::Listed;
use crate::range::{Ground, KeyRange};
use crate::walk::walk;
use layout::{Header, PageFault, Rule};
use records::RecordKind;
use stores::PageStore;

// Inspects the tree that the numbers of page 0 tell of; each used slot is to be reached.
pub(crate) fn inspect_tree<S: PageStore, K: RecordKind>(
    store: &mut S,
    kind: &K,
    header: &Header,
) -> Result<(), PageFault>
    requires width { header.now.shape.record_width ≡ record_width (K.model kind.now) }
    requires there { header.now.used * slot_pages_of (chosen header.now.shape)
        < length (S.state store.old).pages }
    ensures pages { (S.state store.new).pages ≡ (S.state store.old).pages }
    ensures answer { result ≡ told (walk_tree (K.model kind.now) (chosen header.now.shape)
        (page_at (S.state store.old).pages) header.now.used (header.now.levels - 1) header.now.root) }
    ensures looked { (t : ByteTree (header.now.levels - 1))
        → walk_tree (K.model kind.now) (chosen header.now.shape) (page_at (S.state store.old).pages)
        header.now.used (header.now.levels - 1)
        header.now.root ≡ Result.Ok t
        → Looked (S.state store.old)
        (slot_pages_of (chosen header.now.shape) * nodes_of (header.now.levels - 1) t)
        (S.state store.new) }
{
    let root = header.root() as usize;
    let ground = Ground {
        kind,
        shape: header.shape(),
        used: header.used() as usize,
    };
    let mut listed = Listed::root(root);
    let height = header.levels() as usize - 1;
    walk(store, KeyRange::all(ground), height, 2, &mut listed, root)?;
    Rule::SlotsReached.keep(listed.count == ground.used, 0)
}
