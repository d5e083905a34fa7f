//! Numbers as an operator writes them.

ghost use Rattle.std.specs.Prelude.{◌≡◌, ◌≤◌, ◌<◌, ◌^◌, IfSome};
ghost use Rattle.console_text.specs.Numbers.{number_of, number_in};

/// The number of 1 to 10 decimal digits that the word writes.
pub fn read_number(word: &[u8]) -> Option<u64>
    ensures { result ≡ number_of word.now }
{
    if word.is_empty() || 10 < word.len() {
        return None;
    }
    let mut value = 0;
    for octet in word {
        if !octet.is_ascii_digit() {
            return None;
        }
        value = value * 10 + u64::from(*octet - b'0');
    }
    Some(value)
}

/// The number of the word, if it is in the range.
pub fn read_number_in(word: &[u8], low: u64, high: u64) -> Option<u64>
    ensures value { result ≡ number_in low high word.now }
    ensures least { IfSome result (λ n. low ≤ n) }
    ensures greatest { IfSome result (λ n. n ≤ high) }
{
    let number = read_number(word)?;
    if low <= number && number <= high {
        Some(number)
    } else {
        None
    }
}
