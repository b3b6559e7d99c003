// Builder: sound trees as page images, for tests, data and benchmarks only; no program of the terminal uses it. It
// knows the tables of docs/LAYOUT.md and nothing of the crates that read or write pages, so that it is a second opinion
// on them. A wish says how large the tree is to be; the plan of it has every key and value as a number, and so it can
// be asked what a find must answer, and its image has the pages. Nothing here panics: what does not fit is an error. Of
// other crates it uses only `thiserror`.
#![tactic(auto)]

mod faults;
mod image;
pub mod kinds;
pub mod plan;
mod records;

pub use faults::BuildFault;
pub use kinds::KindName;
pub use plan::{Item, Node, Plan, Wish};
