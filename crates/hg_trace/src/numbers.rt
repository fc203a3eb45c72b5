//! Numbers in decimal digits.

ghost use Rattle.std.specs.Prelude.{◌≡◌, ◌^◌, ◌-◌, ◌<◌, MatchOption, true, false};
ghost use Rattle.hg_trace.specs.Numbers.{is_digit, number_on, number_below};

/// What a digit counts.
fn digit_value(b: u8) -> Option<u64>
    ensures { MatchOption result
        (is_digit b ≡ false)
        (λ value. (is_digit b ≡ true) × (value ≡ b - 48) × (value < 10)) }
{
    match b {
        b'0'..=b'9' => Some(u64::from(b - b'0')),
        _ => None,
    }
}

/// The number whose digits are those of a number and then these, unless one of them is no digit or
/// it has more than 64 bits. Each digit is looked at once.
fn number_on(number: u64, digits: &[u8]) -> Option<u64>
    ensures { result ≡ number_on number digits.now }
{
    let mut number = number;
    for b in digits {
        let digit = digit_value(*b)?;
        number = number.checked_mul(10)?.checked_add(digit)?;
    }
    Some(number)
}

/// The number that a word is, unless it has more than 64 bits.
pub(crate) fn parse_number(word: &[u8]) -> Option<u64>
    ensures { result ≡ number_below (2 ^ 64) word.now }
{
    match word {
        [] => None,
        [b'0'] => Some(0),
        [b'0', ..] => None,
        _ => number_on(0, word),
    }
}

/// The number that a word is, where it is one below the limit.
pub(crate) fn number_below(word: &[u8], limit: u64) -> Option<u64>
    ensures { result ≡ number_below limit word.now }
{
    match parse_number(word) {
        Some(number) if number < limit => Some(number),
        _ => None,
    }
}
