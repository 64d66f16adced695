//! Small tests of bytes, for the readers of header parts and of logs.
ghost use Rattle.std.specs.Prelude.{◌≡◌, ◌≤◌, ◌<◌, ◌^◌, ◌∷◌, ℕ, List, true, MatchOption};
ghost use Rattle.std.specs.List.{list_all};
ghost use Rattle.std.specs.Char.{is_ascii_digit};
ghost use Rattle.std.specs.Str.Parse.{digits_value};

/// Whether each byte is a decimal digit.
pub fn all_digits(bytes: &[u8]) -> bool
    ensures { result ≡ list_all is_ascii_digit bytes.now }
{
    bytes.iter().all(|byte| byte.is_ascii_digit())
}

/// The number that decimal digits write, if it is at most this great.
pub fn number_up_to(digits: &[u8], most: u64) -> Option<u64>
    requires digits { list_all is_ascii_digit digits.now ≡ true }
    requires most { most < 2 ^ 32 }
    ensures { MatchOption result (most < digits_value 10 digits.now)
        (λ n. (n ≡ digits_value 10 digits.now) × (n ≤ most)) }
{
    let mut number = 0;
    for digit in digits {
        number = 10 * number + u64::from(*digit - b'0');
        if number > most {
            return None;
        }
    }
    Some(number)
}

/// The bytes after the first, if that is this one.
pub fn after_byte(bytes: &[u8], byte: u8) -> Option<&[u8]>
    ensures { MatchOption result ((rest : List ℕ) → bytes.now ≡ byte ∷ rest → ⊥)
        (λ rest. bytes.now ≡ byte ∷ rest.now) }
{
    match bytes {
        [first, rest @ ..] if *first == byte => Some(rest),
        _ => None,
    }
}
