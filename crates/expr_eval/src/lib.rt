//! What index expressions give for a document: the values of one expression, and the keys of
//! several.
//!
//! Both are lists by recursion on the expression and the content tree (`specs/Values.antt`,
//! `specs/Keys.antt`). They fail only where memory runs out.
#![tactic(auto)]

mod asked;
mod case_fold;
mod evaluate;
mod field;
mod first_places;
mod laws;
mod number;
mod product;
mod value;
mod words;

pub use asked::names;
pub use evaluate::values;
pub use laws::law_part;
pub use product::keys;
