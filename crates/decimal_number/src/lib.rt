//! Numbers in decimal digits, as the command line and the script write them.
#![tactic(auto)]

ghost use Rattle.std.specs.Prelude.{◌≡◌};
ghost use Rattle.decimal_number.specs.Number.{number_of, number_up_to};

/// The number that a word writes in 1 to 10 decimal digits. None where it is not so written.
#[tactic(auto, using(crate::proofs::Digits::digit_more, crate::proofs::Digits::below_more, crate::proofs::Digits::below_ten_digits))]
pub fn number_in(word: &[u8]) -> Option<u64>
    ensures { result ≡ number_of word.now }
{
    if word.is_empty() || word.len() > 10 {
        return None;
    }
    let mut value = 0u64;
    for byte in word {
        if !byte.is_ascii_digit() {
            return None;
        }
        value = value * 10 + u64::from(*byte - b'0');
    }
    Some(value)
}

/// The number that a word writes so, where it is not above a limit. Else None.
pub fn number_up_to(word: &[u8], limit: u64) -> Option<u64>
    ensures { result ≡ number_up_to limit word.now }
{
    let number = number_in(word)?;
    if number > limit {
        return None;
    }
    Some(number)
}
