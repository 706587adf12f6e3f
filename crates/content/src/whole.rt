//! The whole number that the text of a number writes.
ghost use Rattle.std.specs.Prelude.{◌≡◌, ◌<◌, ◌==◌, IsTrue, IfSome, Some, false, length};
ghost use Rattle.std.specs.Prelude.{slice_index, true};
ghost use Rattle.serde_json.specs.Find.{of_integer};
ghost use Rattle.serde_json.specs.Read.{number_from, number_of};

use fast_float::Numeral;

/// The number, if it is whole, not written as `-0`, and from -2^63 to 2^63-1.
pub(crate) fn whole(text: &str) -> Option<i64>
    ensures { IfSome result (λ number. number_of text.now ≡ Some (of_integer number)) }
{
    let bytes = text.as_bytes();
    if has_minus(bytes) {
        below_zero(&Numeral::scan(&bytes[1..]))
    } else {
        from_zero(&Numeral::scan(bytes))
    }
}

fn has_minus(bytes: &[u8]) -> bool
    ensures value { result ≡ (slice_index bytes.now 0 == 45) }
    ensures some { IsTrue result → 0 < length bytes.now }
{
    !bytes.is_empty() && bytes[0] == b'-'
}

fn from_zero(numeral: &Numeral<'_>) -> Option<i64>
    ensures { IfSome result (λ number. number_from false numeral.now ≡ Some (of_integer number)) }
{
    match numeral.to_u64() {
        Some(number) => if number <= i64::MAX as u64 {
            Some(number as i64)
        } else {
            None
        },
        None => None,
    }
}

fn below_zero(numeral: &Numeral<'_>) -> Option<i64>
    ensures { IfSome result (λ number. number_from true numeral.now ≡ Some (of_integer number)) }
{
    match numeral.to_i64(true) {
        Some(number) => if number < 0 { Some(number) } else { None },
        None => None,
    }
}
