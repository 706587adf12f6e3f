//! The words of the transforms.
ghost use Rattle.std.specs.Prelude.{◌≡◌};
ghost use Rattle.expr_parser.specs.Machine.{named};

#[derive(Clone, Copy, PartialEq, Eq)]
pub(crate) enum Transform {
    Lower,
    SplitWords,
    Number,
    Truth,
    Combine,
}

pub(crate) fn transform_named(word: &str) -> Option<Transform>
    ensures { result ≡ named word.now }
{
    match word {
        "lower" => Some(Transform::Lower),
        "split_words" => Some(Transform::SplitWords),
        "number" => Some(Transform::Number),
        "bool" => Some(Transform::Truth),
        "combine" => Some(Transform::Combine),
        _ => None,
    }
}
