// What is known of a word that isn't ended yet.
ghost use Rattle.std.specs.Prelude.{◌≡◌, ◌-◌, ◌^◌, ◌<◌, ◌==◌, ◌||◌, ◌&&◌, ◌++◌, [], ◌∷◌, List, ℕ, min, nat_lt, length, take, slice_set, if◌then◌else◌};
ghost use Rattle.std.specs.Str.Parse.{without_leading_sign};
ghost use Rattle.us_mm_lines.specs.States.{IsWordState, IsSizeOf, IsValueOf, number_in, numeral_in};

use crate::words::with_digit;

/// What is known of a word: its first bytes, how many it has, and the number of its digits. It takes the same room
/// however long the word is.
#[derive(Clone, Copy)]
pub struct WordState {
    front: [u8; 15],
    bytes: u64,
    number: Option<u64>,
}

impl WordState {
    /// No byte yet.
    pub fn new() -> WordState
        ensures { IsWordState result [] }
    {
        WordState {
            front: [0; 15],
            bytes: 0,
            number: Some(0),
        }
    }

    /// The word with one more byte.
    pub fn with(self, b: u8) -> WordState
        ensures { (w : List ℕ) → IsWordState self w → IsWordState result (w ++ b ∷ []) }
    {
        WordState {
            front: front_with(self.front, self.bytes, b),
            bytes: self.bytes.saturating_add(1),
            number: number_with(self.number, self.bytes, b),
        }
    }

    /// The first fifteen bytes.
    pub fn front(&self) -> &[u8]
        ensures { (w : List ℕ) → IsWordState self.now w → result.now ≡ take 15 w }
    {
        let count = self.bytes.min(15) as usize;
        &self.front[..count]
    }

    /// The number of a size word, or the largest u64 where it is larger.
    pub fn size(&self) -> Option<u64>
        ensures { (w : List ℕ) → IsWordState self.now w → IsSizeOf w result }
    {
        if self.front[0] == b'-' {
            return None;
        }
        self.numeral()
    }

    /// Whether a value word has a minus, and its number without the sign, or the largest u64 where it is larger.
    pub fn value(&self) -> Option<(bool, u64)>
        ensures { (w : List ℕ) → IsWordState self.now w → IsValueOf w result }
    {
        match self.numeral() {
            None => None,
            Some(number) => Some((self.front[0] == b'-', number)),
        }
    }

    // The number of the digits behind a sign or none, where there is one digit or more.
    fn numeral(&self) -> Option<u64>
        ensures { (w : List ℕ) → IsWordState self.now w → result ≡ numeral_in (without_leading_sign w) }
    {
        let signs = if is_sign(self.front[0]) { 1 } else { 0 };
        if self.bytes <= signs {
            return None;
        }
        self.number
    }
}

// The first bytes of a word of so many bytes, with one more behind it.
fn front_with(front: [u8; 15], bytes: u64, b: u8) -> [u8; 15]
    ensures { result ≡ if nat_lt bytes 15 then slice_set front bytes b else front }
{
    let mut front = front;
    if bytes < 15 {
        front[bytes as usize] = b;
    }
    front
}

fn is_sign(b: u8) -> bool
    ensures { result ≡ (b == 43 || b == 45) }
{
    b == b'+' || b == b'-'
}

// Whether the byte behind so many is a sign in front of a word.
fn is_first_sign(bytes: u64, b: u8) -> bool
    ensures { result ≡ (bytes == 0 && (b == 43 || b == 45)) }
{
    bytes == 0 && is_sign(b)
}

// The number behind the sign of a word of so many bytes, with one more behind it.
fn number_with(number: Option<u64>, bytes: u64, b: u8) -> Option<u64>
    ensures { (w : List ℕ) → bytes ≡ min (length w) (2 ^ 64 - 1) → number ≡ number_in (without_leading_sign w)
        → result ≡ number_in (without_leading_sign (w ++ b ∷ [])) }
{
    if is_first_sign(bytes, b) {
        return number;
    }
    more_digits(number, b)
}

// The number of some digits, with one more byte behind them.
fn more_digits(number: Option<u64>, b: u8) -> Option<u64>
    ensures { (ds : List ℕ) → number ≡ number_in ds → result ≡ number_in (ds ++ b ∷ []) }
{
    let Some(n) = number else {
        return None;
    };
    if !b.is_ascii_digit() {
        return None;
    }
    Some(with_digit(n, b - b'0'))
}
