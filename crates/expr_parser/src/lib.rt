//! Index expressions: which fields of a document an index takes, and what it makes of them.
//!
//! `Expr::read` reads every text of the grammar in `specs/Grammar.antt` that has at most 512 bytes,
//! and no other; a refused text comes with the place where it goes wrong. `Expr::text` writes the
//! one spelling without white space. Contracts see an expression as the plain tree `form_of` it.
#![tactic(auto)]

mod copy;
mod descent;
mod expr;
mod fault;
mod laws;
mod path;
mod reader;
mod same;
mod spell;
mod transform;

pub use expr::{Expr, Exprs};
pub use fault::ParseFault;
pub use laws::{law_exprs, law_index_texts};
pub use path::Path;
