//! Texts in one case.
ghost use Rattle.std.specs.Prelude.{◌≡◌, IfOk, IsAscii};
ghost use Rattle.expr_eval.specs.Texts.{folded};

use key_lanes::{is_ascii, lower_ascii};
use std::alloc::Global;
use u1_base::{Memory, Text};
use unicode::caseless::default_case_fold_str;

// The default case folding of Unicode.
pub(crate) fn case_folded(alloc: Global, text: &str) -> Result<Text, Memory>
    ensures { IfOk result (λ t. t ≡ folded text.now) }
{
    if is_ascii(text.as_bytes()) {
        return lowered(alloc, text);
    }
    Ok(Text::from_string(default_case_fold_str(alloc, text)?)?)
}

// The same for ASCII, by lanes.
fn lowered(alloc: Global, text: &str) -> Result<Text, Memory>
    requires { IsAscii text.now }
    ensures { IfOk result (λ t. t ≡ folded text.now) }
{
    let mut bytes = Vec::from_slice(alloc, text.as_bytes())?;
    lower_ascii(&mut bytes);
    match String::from_utf8(bytes) {
        Ok(string) => Ok(Text::from_string(string)?),
        Err(_) => unreachable!(),
    }
}
