//! The keys of a document.
ghost use Rattle.std.specs.Prelude.{◌≡◌, ◌≢◌, IfOk, option_copied};
ghost use Rattle.std.specs.List.{AllPairs};
ghost use Rattle.content.specs.TreeOf.{tree_of};
ghost use Rattle.expr_parser.specs.Reading.{forms_in};
ghost use Rattle.expr_eval.specs.Keys.{keys_of};
ghost use Rattle.replica_state.specs.Keyed.{keys_of_kept, keys_there};
ghost use Rattle.expr_eval.specs.Asked.{all_names_asked};

use crate::exprs::IndexExprs;
use conflicts::DocSet;
use content::Json;
use expr_eval::{keys, names};
use std::alloc::Global;
use u1_base::{Keys, Memory, Text, Texts};

/// The names of the fields that an index asks for: of a content no more is made than these.
pub(crate) fn names_of(alloc: Global, exprs: &IndexExprs) -> Result<Texts, Memory>
    ensures { IfOk result (λ names. names ≡ all_names_asked (forms_in exprs.now.texts)) }
{
    names(alloc, exprs.as_slice())
}

/// The keys of a document: none where it is deleted.
pub(crate) fn keys_of_set(
    alloc: Global,
    exprs: &IndexExprs,
    names: &[Text],
    set: &DocSet,
) -> Result<Keys, Memory>
    requires { names.now ≡ all_names_asked (forms_in exprs.now.texts) }
    ensures value { IfOk result (λ keys. keys ≡ keys_of_kept exprs.now.texts set.now) }
    ensures distinct { IfOk result (λ keys. AllPairs (λ key other. key ≢ other) keys) }
{
    match &set.current().content {
        Some(content) => {
            let root = content.part(names)?;
            keys_of_root(alloc, exprs, &root)
        }
        None => Ok(Keys::new(alloc)),
    }
}

fn keys_of_root(alloc: Global, exprs: &IndexExprs, root: &Json) -> Result<Keys, Memory>
    ensures value { IfOk result
        (λ keys. keys ≡ keys_of (forms_in exprs.now.texts) (tree_of root.now)) }
    ensures distinct { IfOk result (λ keys. AllPairs (λ key other. key ≢ other) keys) }
{
    keys(alloc, exprs.as_slice(), root)
}

/// The keys of what stands at an id.
pub(crate) fn keys_before(
    alloc: Global,
    exprs: &IndexExprs,
    names: &[Text],
    set: Option<&DocSet>,
) -> Result<Keys, Memory>
    requires { names.now ≡ all_names_asked (forms_in exprs.now.texts) }
    ensures { IfOk result (λ keys. keys ≡ keys_there exprs.now.texts (option_copied set.entry)) }
{
    match set {
        Some(set) => keys_of_set(alloc, exprs, names, set),
        None => Ok(Keys::new(alloc)),
    }
}
