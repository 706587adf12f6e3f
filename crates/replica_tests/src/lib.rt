//! Tests of replicas and stores that no row tells: an index of many documents against a scan, and
//! the two calls that take a list.
#![tactic(auto)]

#[cfg(test)]
mod list_tests;
#[cfg(test)]
mod scan_tests;
