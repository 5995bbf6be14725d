//! Keys packed into numbers with their places, so that plain numbers are sorted.
ghost use Rattle.std.specs.Prelude.{◌≡◌, ◌+◌, ◌%◌, ◌^◌, ◌<◌, ◌≤◌, pos, [], map, length, get_or, IsTrue, IfOk};
ghost use Rattle.std.specs.List.{All, range_with_len};
ghost use Rattle.us_code.specs.Sort as sort;
ghost use Rattle.us_machine.specs.Packing.{IsDigit, count_from, digit_at, list_of, number_from};
ghost use Rattle.us_machine.specs.Sorting.{AreLists, lists_at};

use std::alloc::{AllocError, Global};
use us_raw::Region;

/// A place is below this number.
pub(crate) const PLACES: u128 = 1 << 32;

/// The greatest word.
pub(crate) const WORD: u128 = 0xffff_ffff_ffff_ffff;

/// A key as a digit of a number whose digits have different radixes.
#[derive(Clone, Copy, Drop)]
pub(crate) struct Digit {
    /// Which list of the region the key is.
    seg: usize,
    /// The least cell, whose digit is 0.
    low: i64,
    /// The digits are below it.
    radix: u128,
}

impl Digit {
    /// How far the cell at a place lies above the least.
    fn at(&self, x: u64, region: &Region) -> u128
        requires { x < length (list_of region.now.lists self.now) }
        ensures { result ≡ digit_at region.now.lists self.now x }
    {
        u128::from(region.get(self.seg, x).abs_diff(self.low))
    }
}

/// The digit that has room for each cell of the list.
fn digit_of(seg: usize, len: u64, region: &Region) -> Digit
    requires { length (get_or region.now.lists seg []) ≡ len }
    ensures seg { result.seg ≡ seg }
    ensures digit { IsDigit region.now.lists len result }
{
    let mut low = i64::MAX;
    let mut high = i64::MIN;
    for x in 0..len {
        let cell = region.get(seg, x);
        low = low.min(cell);
        high = high.max(cell);
    }
    Digit {
        seg,
        low,
        radix: u128::from(high.abs_diff(low)) + 1,
    }
}

/// The lists as digits.
pub(crate) fn digits_of(
    alloc: Global,
    segs: &[usize],
    len: u64,
    region: &Region,
) -> Result<Vec<Digit>, AllocError>
    requires { AreLists region.now.lists len segs.now }
    ensures lists { IfOk result (λ v. map (list_of region.now.lists) v.items ≡ lists_at region.now.lists segs.now) }
    ensures digits { IfOk result (λ v. All (IsDigit region.now.lists len) v.items) }
{
    let mut digits = Vec::new(alloc);
    for seg in segs {
        digits.push(digit_of(*seg, len, region))?;
    }
    Ok(digits)
}

/// Whether there are at most so many numbers of these digits and a place below the base.
pub(crate) fn is_narrow(digits: &[Digit], base: u128, room: u128) -> bool
    requires { base ≤ room }
    ensures { IsTrue result → count_from base digits.now ≤ room }
{
    let mut count = base;
    for digit in digits {
        match count.checked_mul(digit.radix) {
            Some(more) if more <= room => count = more,
            _ => return false,
        }
    }
    true
}

/// The number that the digits are at a place, with the place behind them.
fn number_at(digits: &[Digit], x: u64, len: u64, base: u128, region: &Region) -> u128
    requires digits { All (IsDigit region.now.lists len) digits.now }
    requires narrow { count_from base digits.now < 2 ^ 128 }
    requires below { x < len }
    requires places { len ≤ base }
    ensures value { result ≡ number_from region.now.lists base 0 digits.now x }
    ensures bound { result < count_from base digits.now }
{
    let mut number: u128 = 0;
    for digit in digits {
        number = number * digit.radix + digit.at(x, region);
    }
    number * base + u128::from(x)
}

/// The numbers at the places below `len`.
fn numbers_below(
    alloc: Global,
    digits: &[Digit],
    len: u64,
    region: &Region,
) -> Result<Vec<u128>, AllocError>
    requires digits { All (IsDigit region.now.lists len) digits.now }
    requires narrow { count_from (2 ^ 32) digits.now < 2 ^ 128 }
    requires small { len ≤ 67108865 }
    ensures { IfOk result (λ v. v.items ≡ map (number_from region.now.lists (2 ^ 32) 0 digits.now) (range_with_len 0 len)) }
{
    let mut numbers = Vec::with_capacity(alloc, len as usize)?;
    for x in 0..len {
        numbers.push(number_at(digits, x, len, PLACES, region))?;
    }
    Ok(numbers)
}

/// The places behind the numbers.
fn places_of(alloc: Global, numbers: &[u128]) -> Result<Vec<u32>, AllocError>
    ensures { IfOk result (λ v. v.items ≡ map (λ n. n % 2 ^ 32) numbers.now) }
{
    numbers.iter().map(|n| (*n % PLACES) as u32).collect(alloc)
}

/// The places below `len` in the order of the digits, sorted as numbers.
pub(crate) fn sorted_by_number(
    alloc: Global,
    digits: &[Digit],
    len: u64,
    region: &Region,
) -> Result<Vec<u32>, AllocError>
    requires digits { All (IsDigit region.now.lists len) digits.now }
    requires narrow { count_from (2 ^ 32) digits.now < 2 ^ 128 }
    requires small { len ≤ 67108865 }
    ensures { IfOk result (λ v. v.items ≡ sort.ordered (map (list_of region.now.lists) digits.now) len) }
{
    let mut numbers = numbers_below(alloc, digits, len, region)?;
    numbers.sort_unstable();
    places_of(alloc, numbers.as_slice())
}

/// The numbers at the places below `len`, each in a word.
fn words_below(
    alloc: Global,
    digits: &[Digit],
    len: u64,
    region: &Region,
) -> Result<Vec<u64>, AllocError>
    requires digits { All (IsDigit region.now.lists len) digits.now }
    requires narrow { count_from len digits.now < 2 ^ 64 }
    ensures { IfOk result (λ v. v.items ≡ map (number_from region.now.lists len 0 digits.now) (range_with_len 0 len)) }
{
    let mut words = Vec::with_capacity(alloc, len as usize)?;
    for x in 0..len {
        words.push(number_at(digits, x, len, u128::from(len), region) as u64)?;
    }
    Ok(words)
}

/// The places behind the numbers in words.
fn places_of_words(alloc: Global, words: &[u64], len: u64) -> Result<Vec<u32>, AllocError>
    requires { (0 < len) × (len ≤ 67108865) }
    ensures { IfOk result (λ v. v.items ≡ map (λ n. n % len) words.now) }
{
    words.iter().map(|n| (*n % len) as u32).collect(alloc)
}

/// The places below `len` in the order of the digits, sorted as numbers in words.
pub(crate) fn sorted_by_word(
    alloc: Global,
    digits: &[Digit],
    len: u64,
    region: &Region,
) -> Result<Vec<u32>, AllocError>
    requires digits { All (IsDigit region.now.lists len) digits.now }
    requires narrow { count_from len digits.now < 2 ^ 64 }
    requires small { (0 < len) × (len ≤ 67108865) }
    ensures { IfOk result (λ v. v.items ≡ sort.ordered (map (list_of region.now.lists) digits.now) len) }
{
    let mut words = words_below(alloc, digits, len, region)?;
    words.sort_unstable();
    places_of_words(alloc, words.as_slice(), len)
}
