//! What no row of `rows_documents` can say: histories against their definition, tables against
//! plain lists, and the adapters of the operating system's streams.
#![tactic(auto)]

#[cfg(test)]
mod adapters;
#[cfg(test)]
mod histories;
#[cfg(test)]
mod tables;
