//! Binary digits of numbers.

ghost use Rattle.std.specs.Prelude.{◌≡◌, ◌≢◌, ◌<◌, ◌≤◌, ◌^◌, ℕ, MatchOption};
ghost use Rattle.resolver_encoding.specs.Codes.{bit};

/// Returns the number of binary digits of a number. 0 has none.
pub fn digit_count(number: usize) -> u32
    ensures each { (i : ℕ) → i < result → 2 ^ i ≤ number }
    ensures every { (i : ℕ) → 2 ^ i ≤ number → i < result }
    ensures small { result ≤ 64 }
{
    usize::BITS - number.leading_zeros()
}

/// Returns whether a number has this digit. Digit 0 is the lowest.
pub fn has_digit(number: usize, index: u32) -> bool
    requires { index < 64 }
    ensures { result ≡ bit number index }
{
    (number >> index) % 2 == 1
}

/// Returns the digit that a number has and no smaller number has, if any.
pub(crate) fn new_digit(number: usize) -> Option<u32>
    ensures { MatchOption result ((i : ℕ) → number ≢ 2 ^ i) (λ i. number ≡ 2 ^ i) }
{
    let count = digit_count(number);
    if count == 0 {
        return None;
    }
    if number == 1 << (count - 1) {
        return Some(count - 1);
    }
    None
}
