//! The tests of `disk_model`, `disks`, `crash_harness` and `journal`, apart from them: a crate that
//! has tests is proved twice. What is done with a store as a whole, and each crash on its way, is
//! tested in `volume_tests`.
#![tactic(auto)]

#[cfg(test)]
mod file_tests;
#[cfg(test)]
mod journal_tests;
#[cfg(test)]
mod memory_tests;
#[cfg(test)]
mod three_tests;
