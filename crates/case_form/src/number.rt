//! Numbers in decimal.

ghost use Rattle.std.specs.Prelude.{◌≡◌, ◌≤◌, IfSome};
ghost use Rattle.std.specs.List.{list_all};
ghost use Rattle.std.specs.Char.{is_ascii_digit};
ghost use Rattle.case_form.specs.Number.{is_numeral, number_of};

/// Are all octets decimal digits?
pub(crate) fn are_digits(octets: &[u8]) -> bool
    ensures { result ≡ list_all is_ascii_digit octets.now }
{
    octets.iter().all(|octet| octet.is_ascii_digit())
}

/// Is it one decimal digit or more, the first of which is not 0?
fn is_numeral(word: &[u8]) -> bool
    ensures { result ≡ is_numeral word.now }
{
    !matches!(word, [] | [b'0', ..]) && are_digits(word)
}

/// The number from 1 to `most` that a word is in decimal, with no sign and no leading zero. No other word is one.
#[tactic(auto, unfolding(crate::specs::Number::number_of))]
pub(crate) fn number_of(word: &[u8], most: u32) -> Option<u32>
    ensures value { result ≡ number_of most word.now }
    ensures most { IfSome result (λ n. n ≤ most) }
{
    if !is_numeral(word) {
        return None;
    }
    let mut number = 0u64;
    for digit in word {
        number = 10 * number + u64::from(*digit - b'0');
        if number > u64::from(most) {
            return None;
        }
    }
    Some(number as u32)
}
