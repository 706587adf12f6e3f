//! Texts that are cut at slashes.
ghost use Rattle.std.specs.Prelude.{◌≡◌, [], MatchOption};
ghost use Rattle.sync_http.specs.Slashes.{part_of, rest_of};

/// What stands before the first slash, and what after it.
pub(crate) fn cut(text: &str) -> Option<(&str, &str)>
    ensures { MatchOption result (rest_of text.now ≡ [])
        (λ cut. (cut.0.now ≡ part_of text.now) × (cut.1.now ≡ rest_of text.now)) }
{
    text.split_once('/')
}
