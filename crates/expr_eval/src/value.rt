//! What fields have and expressions give.
ghost use Rattle.std.specs.Prelude.{◌≡◌, ◌++◌, ◌∷◌, [], IfOk, OnOk};
ghost use Rattle.expr_eval.specs.Kinds.{text_of, texts_in, truth_of, truths_in, whole_of};
ghost use Rattle.expr_eval.specs.Kinds.{wholes_in};
ghost use Rattle.expr_eval.specs.inner.Lent.{lent};

use std::alloc::{AllocError, Global};
use u1_base::Text;

#[derive(Drop)]
pub(crate) enum Value {
    Text(Text),
    Whole(i64),
    Truth(bool),
}

impl Value {
    pub fn into_text(self) -> Option<Text>
        ensures { result ≡ text_of self }
    {
        match self {
            Value::Text(text) => Some(text),
            Value::Whole(_) => None,
            Value::Truth(_) => None,
        }
    }

    fn whole(&self) -> Option<i64>
        ensures { result ≡ whole_of self.now }
    {
        match self {
            Value::Text(_) => None,
            Value::Whole(number) => Some(*number),
            Value::Truth(_) => None,
        }
    }

    fn truth(&self) -> Option<bool>
        ensures { result ≡ truth_of self.now }
    {
        match self {
            Value::Text(_) => None,
            Value::Whole(_) => None,
            Value::Truth(truth) => Some(*truth),
        }
    }
}

pub(crate) fn texts_among<'t>(
    alloc: Global,
    values: &'t [Value],
) -> Result<Vec<&'t str>, AllocError>
    ensures { IfOk result (λ texts. lent texts.items ≡ texts_in values.now) }
{
    let mut texts = Vec::new(alloc);
    for value in values {
        add_text(value, &mut texts)?;
    }
    Ok(texts)
}

// Adds the value if it is a text.
fn add_text<'t>(value: &'t Value, texts: &mut Vec<&'t str>) -> Result<(), AllocError>
    ensures { OnOk result (lent texts.new.items ≡ lent texts.old.items
        ++ texts_in (value.now ∷ [])) }
{
    match value {
        Value::Text(text) => {
            texts.push(text.as_str())?;
            Ok(())
        }
        Value::Whole(_) => Ok(()),
        Value::Truth(_) => Ok(()),
    }
}

pub(crate) fn wholes_among(alloc: Global, values: &[Value]) -> Result<Vec<i64>, AllocError>
    ensures { IfOk result (λ wholes. wholes.items ≡ wholes_in values.now) }
{
    values
        .iter()
        .filter_map(|value| value.whole())
        .collect(alloc)
}

pub(crate) fn truths_among(alloc: Global, values: &[Value]) -> Result<Vec<bool>, AllocError>
    ensures { IfOk result (λ truths. truths.items ≡ truths_in values.now) }
{
    values
        .iter()
        .filter_map(|value| value.truth())
        .collect(alloc)
}
