//! Bytes of a text: what each may begin, and how far a word, a number, blanks
//! and comments go.

ghost use Rattle.std.specs.Prelude.{◌≡◌, ◌≤◌, ◌<◌, ◌+◌, ◌^◌, length, false, MatchOption, [], ◌∷◌};
ghost use Rattle.std.specs.List.{prefix_len};
ghost use Rattle.us_tokens.specs.Lex.{is_blank, is_word, is_digit, is_letter, first_is, is_gap, capped_value};

pub fn is_blank_byte(byte: u8) -> bool
    ensures { result ≡ is_blank byte }
{
    byte == b' ' || byte == b'\t' || byte == b'\n' || byte == b'\r'
}

pub fn is_letter_byte(byte: u8) -> bool
    ensures { result ≡ is_letter byte }
{
    (byte >= b'A' && byte <= b'Z') || (byte >= b'a' && byte <= b'z') || byte == b'_'
}

pub fn is_digit_byte(byte: u8) -> bool
    ensures { result ≡ is_digit byte }
{
    byte >= b'0' && byte <= b'9'
}

fn is_word_byte(byte: u8) -> bool
    ensures { result ≡ is_word byte }
{
    is_letter_byte(byte) || is_digit_byte(byte)
}

/// How many bytes of a word stand at the front.
pub fn word_len(bytes: &[u8]) -> usize
    ensures { result ≡ prefix_len is_word bytes.now }
{
    bytes.iter().take_while(|b| is_word_byte(**b)).count()
}

/// How many digits stand at the front.
pub fn digits_len(bytes: &[u8]) -> usize
    ensures { result ≡ prefix_len is_digit bytes.now }
{
    bytes.iter().take_while(|b| is_digit_byte(**b)).count()
}

/// The value of decimal digits, or one more than the limit if it is above that.
pub fn value_of(digits: &[u8], limit: u64) -> u64
    requires { limit < 2 ^ 63 }
    ensures { result ≡ capped_value limit digits.now }
{
    let mut value: u64 = 0;
    for digit in digits {
        let grown = value
            .saturating_mul(10)
            .saturating_add(digit.saturating_sub(b'0') as u64);
        value = grown.min(limit + 1);
    }
    value
}

pub fn split(bytes: &[u8]) -> Option<(u8, &[u8])>
    ensures { MatchOption result (bytes.now ≡ []) (λ x. bytes.now ≡ x.0 ∷ x.1.now) }
{
    match bytes {
        [first, after @ ..] => Some((*first, after)),
        [] => None,
    }
}
