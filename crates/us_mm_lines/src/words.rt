// The words of a line, and the numbers that they write.
ghost use Rattle.std.specs.Prelude.{◌≡◌, ◌∷◌, [], ◌+◌, ◌*◌, ◌<◌, ◌≤◌, ℕ, true, false, length, slice_index, ◌^◌, ◌-◌, ◌≢◌, min, not, MatchOption};
ghost use Rattle.std.specs.Str.Parse.{digits_value, starts_with_minus, without_leading_plus, without_leading_sign};
ghost use Rattle.us_mm_lines.specs.Lines.{is_blank};
ghost use Rattle.us_mm_lines.specs.Words.{words, is_numeral, is_size_word, size_of, is_value_word, value_of, is_value, signed_value};

use crate::lines::is_blank;

/// The first word of a line, and what is behind it.
pub fn next_word(line: &[u8]) -> Option<(&[u8], &[u8])>
    ensures { MatchOption result (words line.now ≡ []) (λ r. words line.now ≡ r.0.now ∷ words r.1.now) }
{
    let rest = skip_blanks(line);
    if rest.is_empty() {
        return None;
    }
    let end = word_end(rest);
    Some((&rest[..end], &rest[end..]))
}

fn skip_blanks(line: &[u8]) -> &[u8]
    ensures words { words result.now ≡ words line.now }
    ensures starts { 0 < length result.now → is_blank (slice_index result.now 0) ≡ false }
{
    let mut rest = line;
    while let [b, after @ ..] = rest {
        if !is_blank(*b) {
            return rest;
        }
        rest = after;
    }
    rest
}

fn word_end(line: &[u8]) -> usize
    ensures within { result ≤ length line.now }
    ensures before { (k : ℕ) → k < result → is_blank (slice_index line.now k) ≡ false }
    ensures found { result < length line.now → is_blank (slice_index line.now result) ≡ true }
{
    for (i, b) in line.iter().enumerate() {
        if is_blank(*b) {
            return i;
        }
    }
    line.len()
}

/// The two words of a line, where it has two.
pub fn two_words(line: &[u8]) -> Option<(&[u8], &[u8])>
    ensures { MatchOption result (length (words line.now) ≢ 2) (λ r. words line.now ≡ r.0.now ∷ r.1.now ∷ []) }
{
    let (first, rest) = next_word(line)?;
    let (second, rest) = next_word(rest)?;
    match next_word(rest) {
        None => Some((first, second)),
        Some(_) => None,
    }
}

/// The three words of a line, where it has three.
pub fn three_words(line: &[u8]) -> Option<(&[u8], &[u8], &[u8])>
    ensures { MatchOption result (length (words line.now) ≢ 3) (λ r. words line.now ≡ r.0.now ∷ r.1.now ∷ r.2.now ∷ []) }
{
    let (first, rest) = next_word(line)?;
    let (second, rest) = next_word(rest)?;
    let (third, rest) = next_word(rest)?;
    if next_word(rest).is_some() {
        return None;
    }
    Some((first, second, third))
}

/// The number that decimal digits write, or the largest u64 where it is larger; none where they are no digits.
pub fn number_of(ds: &[u8]) -> Option<u64>
    ensures { MatchOption result (is_numeral ds.now ≡ false) (λ n. (is_numeral ds.now ≡ true) × (n ≡ min (digits_value 10 ds.now) (2 ^ 64 - 1))) }
{
    if ds.is_empty() {
        return None;
    }
    let mut n = 0u64;
    for b in ds {
        if !b.is_ascii_digit() {
            return None;
        }
        n = with_digit(n, *b - b'0');
    }
    Some(n)
}

// A number with one more digit behind it, or the largest u64 where that is larger.
pub fn with_digit(n: u64, digit: u8) -> u64
    ensures { result ≡ min (n * 10 + digit) (2 ^ 64 - 1) }
{
    // behind a number so small any digit fits
    if n < 1 << 60 {
        return n * 10 + u64::from(digit);
    }
    n.saturating_mul(10).saturating_add(u64::from(digit))
}

fn without_plus(word: &[u8]) -> &[u8]
    ensures { result.now ≡ without_leading_plus word.now }
{
    match word {
        [b'+', digits @ ..] => digits,
        _ => word,
    }
}

fn without_sign(word: &[u8]) -> (bool, &[u8])
    ensures minus { result.0 ≡ starts_with_minus word.now }
    ensures digits { result.1.now ≡ without_leading_sign word.now }
{
    match word {
        [b'-', digits @ ..] => (true, digits),
        _ => (false, without_plus(word)),
    }
}

/// The number of a size word, or the largest u64 where it is larger.
#[tactic(auto, unfolding(crate::specs::Words::is_size_word, crate::specs::Words::size_of))]
pub fn size_word(word: &[u8]) -> Option<u64>
    ensures { MatchOption result (is_size_word word.now ≡ false) (λ n. (is_size_word word.now ≡ true) × (n ≡ min (size_of word.now) (2 ^ 64 - 1))) }
{
    number_of(without_plus(word))
}

/// Whether a value word has a minus, and its number without the sign, or the largest u64 where it is larger.
#[tactic(auto, unfolding(crate::specs::Words::is_value_word))]
pub fn value_word(word: &[u8]) -> Option<(bool, u64)>
    ensures { MatchOption result (is_value_word word.now ≡ false) (λ r. (is_value_word word.now ≡ true)
        × (r.0 ≡ starts_with_minus word.now) × (r.1 ≡ min (digits_value 10 (without_leading_sign word.now)) (2 ^ 64 - 1))) }
{
    let (minus, digits) = without_sign(word);
    let number = number_of(digits)?;
    Some((minus, number))
}

/// The value with that sign, where it is from -2^63 to 2^63-1.
pub fn signed(minus: bool, number: u64) -> Option<i64>
    ensures { MatchOption result (is_value (signed_value minus number) ≡ false) (λ v. (is_value (signed_value minus number) ≡ true) × (v ≡ signed_value minus number)) }
{
    if !minus {
        return i64::try_from(number).ok();
    }
    if number == 0 {
        return Some(0);
    }
    if number > 1 << 63 {
        return None;
    }
    Some(-((number - 1) as i64) - 1)
}
