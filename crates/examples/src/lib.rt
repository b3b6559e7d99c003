// Worked examples as tests: tickets, pools, rows, shapes, and a store formatted and closed. They stand in a crate of their
// own, since a crate with tests is proved twice. It may use every library.
#![tactic(auto)]

#[cfg(test)]
mod index_tests;
#[cfg(test)]
mod record_tests;
#[cfg(test)]
mod row_tests;
#[cfg(test)]
mod script_tests;
#[cfg(test)]
mod shape_tests;
#[cfg(test)]
mod store_tests;
