// The inspection of pages: every page of an index is read once and tested against the rules of the layout, in order,
// and the first broken rule is told with its page. It promises that what it tells is what the definition of the
// inspection says. It asks nothing of the bytes on a page. It uses the layout, the stores and the record kinds.
#![tactic(auto)]

mod d_tree;
mod leaf_page;
mod listed;
mod node_page;
mod page_0;
mod range;
mod rules;
mod walk;
mod whole_store;
mod whole_tree;

pub use whole_store::inspect_store;
