//! What no row says of the low libraries, each once: that lists and tables stay right while they
//! grow and shrink by thousands, and that the calls over blocks of bytes are right at each length.
#![tactic(auto)]

#[cfg(test)]
mod blocks_tests;
#[cfg(test)]
mod list_tests;
#[cfg(test)]
mod table_tests;
