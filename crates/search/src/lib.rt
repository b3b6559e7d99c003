// The search of a key on pages: from the root down, in each node by its head page and one leaf page. It promises that
// on pages that hold an index it says of a key what the index means, and reads at most three pages of each level. It
// asks nothing of the bytes on a page: what is read is tested before it is used, and a broken rule is told with its
// page. It uses the layout, the stores and the record kinds.
#![tactic(auto)]

mod d_tree;
mod descent;
mod rows;
mod sought;

pub use d_tree::ValueBytes;
pub use descent::find_value;
