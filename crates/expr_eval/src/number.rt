//! Whole numbers and truth values as texts.
ghost use Rattle.std.specs.Prelude.{◌≡◌, ◌++◌, ◌-◌, IfOk, OnOk, length, replicate, string_bytes};
ghost use Rattle.expr_eval.specs.Texts.{number_text, padded, truth_text};

use itoa::Buffer;
use std::alloc::Global;
use u1_base::{Memory, Text};

// The digits of the number, padded with `0` after a `-` to the width.
pub(crate) fn number_spelled(alloc: Global, number: i64, width: u8) -> Result<Text, Memory>
    ensures { IfOk result (λ t. t ≡ number_text width number) }
{
    let mut text = String::new(alloc);
    let width = usize::from(width);
    if number < 0 {
        text.push('-')?;
        push_padded(&mut text, number.unsigned_abs(), width.saturating_sub(1))?;
    } else {
        push_padded(&mut text, number.unsigned_abs(), width)?;
    }
    Text::from_string(text)
}

fn push_padded(text: &mut String, number: u64, width: usize) -> Result<(), Memory>
    ensures { OnOk result (string_bytes text.new ≡ string_bytes text.old ++ padded width number) }
{
    let mut buffer = Buffer::new();
    let digits = buffer.format(number);
    push_zeros(text, width.saturating_sub(digits.len()))?;
    text.push_str(digits)?;
    Ok(())
}

fn push_zeros(text: &mut String, count: usize) -> Result<(), Memory>
    ensures { OnOk result (string_bytes text.new ≡ string_bytes text.old ++ replicate count 48) }
{
    for _ in 0..count {
        text.push('0')?;
    }
    Ok(())
}

pub(crate) fn truth_spelled(alloc: Global, truth: bool) -> Result<Text, Memory>
    ensures { IfOk result (λ t. t ≡ truth_text truth) }
{
    if truth {
        Text::copy(alloc, "1")
    } else {
        Text::copy(alloc, "0")
    }
}
