//! The tests of `volume`, `compaction` and `replica_volume`, apart from them: a crate that has
//! tests is proved twice. A store in memory is made, opened, added to and compacted, with each
//! device call failing, and what a stop leaves then is opened.
#![tactic(auto)]

#[cfg(test)]
mod acts;
#[cfg(test)]
mod failing_tests;
#[cfg(test)]
mod images;
#[cfg(test)]
mod opening_tests;
#[cfg(test)]
mod plain_state_tests;
#[cfg(test)]
mod plain_tests;
#[cfg(test)]
mod worked_tests;
