//! A test of `store_commands`, apart from it: a crate that has tests is proved twice.
#![tactic(auto)]

#[cfg(test)]
mod tests;
