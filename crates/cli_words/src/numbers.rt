//! Numbers among words.
ghost use Rattle.std.specs.Prelude.{◌≡◌, ◌≤◌, IfSome};
ghost use Rattle.std.specs.Char.{is_ascii_digit};
ghost use Rattle.std.specs.List.{list_all};
ghost use Rattle.cli_words.specs.Numbers.{is_number, number_in};

/// The number that the text is in decimal, without a sign and without leading zeros, if it lies
/// from `least` to `greatest`.
pub fn number_in(text: &str, least: u64, greatest: u64) -> Option<u64>
    ensures value { result ≡ number_in least greatest text.now }
    ensures small { IfSome result (λ n. n ≤ greatest) }
{
    if !is_number(text.as_bytes()) {
        return None;
    }
    match text.parse::<u64>() {
        Ok(number) => {
            if least <= number && number <= greatest {
                Some(number)
            } else {
                None
            }
        }
        Err(_) => None,
    }
}

fn is_number(digits: &[u8]) -> bool
    ensures { result ≡ is_number digits.now }
{
    if digits.is_empty() {
        return false;
    }
    if digits[0] == b'0' && digits.len() > 1 {
        return false;
    }
    are_digits(digits)
}

fn are_digits(bytes: &[u8]) -> bool
    ensures { result ≡ list_all is_ascii_digit bytes.now }
{
    bytes.iter().all(|b| b.is_ascii_digit())
}
