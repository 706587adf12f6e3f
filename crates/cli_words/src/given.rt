//! The option that stands among the words.
ghost use Rattle.std.specs.Prelude.{◌≡◌, IfSome, option_map, slice_get, true};
ghost use Rattle.cli_words.specs.declared.synopsis.Allowed.TheVariants as limit_allowed;
ghost use Rattle.cli_words.specs.Given.{allows, flag_in, given_in, is_deleted, limit_given};
ghost use Rattle.cli_words.specs.Given.{limit_word};

use crate::parted::Parted;
use crate::synopsis::Allowed;
use crate::word::Word;

/// The option that is given, as far as its command allows it.
#[derive(Drop)]
pub enum Given<'a> {
    Nothing,
    Deleted,
    /// With its value, if there is one.
    Limit(Option<Word<'a>>),
}

impl<'a> Given<'a> {
    pub fn is_deleted(&self) -> bool
        ensures { result ≡ is_deleted self.now }
    {
        matches!(self, Given::Deleted)
    }

    /// The value of `--limit`.
    pub fn limit(&self) -> Option<&Word<'a>>
        ensures { option_map (λ w. w.now) result ≡ limit_word self.now }
    {
        match self {
            Given::Limit(Some(word)) => Some(word),
            Given::Limit(None) => None,
            Given::Nothing | Given::Deleted => None,
        }
    }
}

/// The option among the words. None where there is one that the command does not have, or more than
/// one.
pub fn given_in<'a>(allowed: Allowed, parted: &Parted<'a>) -> Option<Given<'a>>
    ensures value { result ≡ given_in allowed parted.now }
    ensures allowed { IfSome result (λ given. allows allowed given ≡ true) }
{
    match parted.flags.as_slice() {
        [] => Some(Given::Nothing),
        [flag] => one_flag(allowed, flag, parted.values.as_slice()),
        [_, _, ..] => None,
    }
}

fn one_flag<'a>(allowed: Allowed, flag: &Word<'a>, values: &[Word<'a>]) -> Option<Given<'a>>
    ensures value { result ≡ flag_in allowed flag.now values.now }
    ensures allowed { IfSome result (λ given. allows allowed given ≡ true) }
{
    match allowed {
        Allowed::Nothing => None,
        Allowed::Deleted => {
            if flag.text() == "--deleted" {
                Some(Given::Deleted)
            } else {
                None
            }
        }
        Allowed::Limit => limit_given(flag, values),
    }
}

// `--limit` with the word after it, or `--limit=VALUE`.
fn limit_given<'a>(flag: &Word<'a>, values: &[Word<'a>]) -> Option<Given<'a>>
    ensures value { result ≡ limit_given flag.now values.now }
    ensures allowed { IfSome result (λ given. allows limit_allowed.Limit given ≡ true) }
{
    if flag.text() == "--limit" {
        return Some(Given::Limit(first_of(values)));
    }
    match flag.text().split_once('=') {
        Some((name, value)) if name == "--limit" => {
            Some(Given::Limit(Some(Word::new(flag.place(), value))))
        }
        _ => None,
    }
}

fn first_of<'a>(words: &[Word<'a>]) -> Option<Word<'a>>
    ensures { result ≡ slice_get words.now 0 }
{
    match words.first() {
        Some(word) => Some(Word::new(word.place(), word.text())),
        None => None,
    }
}
