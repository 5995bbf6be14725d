// How often each number comes in a list, and how often before each place.
ghost use Rattle.std.specs.Prelude.{◌≡◌, ◌<◌, ◌≤◌, IfOk, length, true};
ghost use Rattle.std.specs.List.Sorted.{IsPermutation, IsSorted};
ghost use Rattle.std.specs.Ordering.{int_cmp};
ghost use Rattle.std.proofs.Common.{replicate};
ghost use Rattle.us_query.specs.Counts.{AreCounts, below, ranks, totals};

use std::alloc::{AllocError, Global};

// The numbers in their order.
fn in_order(alloc: Global, numbers: &[i64]) -> Result<Vec<i64>, AllocError>
    ensures permutation { IfOk result (λ s. IsPermutation numbers.now s.items) }
    ensures order { IfOk result (λ s. IsSorted int_cmp s.items) }
    ensures len { IfOk result (λ s. length s.items ≡ length numbers.now) }
{
    let mut sorted = Vec::from_slice(alloc, numbers)?;
    sorted.sort_unstable();
    Ok(sorted)
}

// How many of sorted numbers are below a number.
fn below(sorted: &[i64], number: &i64) -> usize
    requires { IsSorted int_cmp sorted.now }
    ensures { result ≡ below sorted.now number.now }
{
    sorted.partition_point(|n| *n < *number)
}

// Whether a number of sorted ones at a place and those behind it are no lower than a number, and those before it are.
fn is_first_place(sorted: &[i64], place: usize, number: &i64) -> bool
    requires order { IsSorted int_cmp sorted.now }
    requires inside { place < length sorted.now }
    ensures { result ≡ true → place ≡ below sorted.now number.now }
{
    if place == 0 {
        return *number <= sorted[place];
    }
    sorted[place - 1] < *number && *number <= sorted[place]
}

// How many of sorted numbers are below a number: the guess, if it is right.
fn below_guessed(sorted: &[i64], guess: usize, number: &i64) -> usize
    requires order { IsSorted int_cmp sorted.now }
    requires inside { guess < length sorted.now }
    ensures { result ≡ below sorted.now number.now }
{
    if is_first_place(sorted, guess, number) {
        guess
    } else {
        below(sorted, number)
    }
}

// How many of sorted numbers are below a number, where so many are below the last one.
fn below_after(sorted: &[i64], last: &i64, place: usize, guess: usize, number: &i64) -> usize
    requires order { IsSorted int_cmp sorted.now }
    requires last { place ≡ below sorted.now last.now }
    requires inside { guess < length sorted.now }
    ensures { result ≡ below sorted.now number.now }
{
    if *number == *last {
        place
    } else {
        below_guessed(sorted, guess, number)
    }
}

// So many counts of 0.
fn no_counts(alloc: Global, count: usize) -> Result<Vec<u32>, AllocError>
    ensures { IfOk result (λ v. v.items ≡ replicate count 0) }
{
    vec![in alloc; 0u32; count]
}

// How often each number comes, at the place where it first stands among the sorted ones.
fn counts_in(alloc: Global, numbers: &[i64], sorted: &[i64]) -> Result<Vec<u32>, AllocError>
    requires few { length numbers.now ≤ 67108864 }
    requires permutation { IsPermutation numbers.now sorted.now }
    requires order { IsSorted int_cmp sorted.now }
    ensures { IfOk result (λ counts. AreCounts numbers.now numbers.now counts.items) }
{
    let mut counts = no_counts(alloc, sorted.len())?;
    let mut last = 0;
    let mut place = below(sorted, &last);
    for (at, n) in numbers.iter().enumerate() {
        place = below_after(sorted, &last, place, at, n);
        last = *n;
        counts[place] += 1;
    }
    Ok(counts)
}

// For each number how often it comes among the sorted ones.
fn totals_in(alloc: Global, numbers: &[i64], sorted: &[i64]) -> Result<Vec<u32>, AllocError>
    requires few { length numbers.now ≤ 67108864 }
    requires permutation { IsPermutation numbers.now sorted.now }
    requires order { IsSorted int_cmp sorted.now }
    ensures { IfOk result (λ ns. ns.items ≡ totals numbers.now) }
{
    let counts = counts_in(alloc, numbers, sorted)?;
    let mut totals = Vec::new(alloc);
    let mut last = 0;
    let mut place = below(sorted, &last);
    for (at, n) in numbers.iter().enumerate() {
        place = below_after(sorted, &last, place, at, n);
        last = *n;
        totals.push(counts[place])?;
    }
    Ok(totals)
}

// For each number how often it comes before. Each number is counted at the place where it first stands among the
// sorted ones.
fn ranks_in(alloc: Global, numbers: &[i64], sorted: &[i64]) -> Result<Vec<u32>, AllocError>
    requires few { length numbers.now ≤ 67108864 }
    requires permutation { IsPermutation numbers.now sorted.now }
    requires order { IsSorted int_cmp sorted.now }
    ensures { IfOk result (λ ns. ns.items ≡ ranks numbers.now) }
{
    let mut counts = no_counts(alloc, sorted.len())?;
    let mut ranks = Vec::new(alloc);
    let mut last = 0;
    let mut place = below(sorted, &last);
    for (at, n) in numbers.iter().enumerate() {
        place = below_after(sorted, &last, place, at, n);
        last = *n;
        ranks.push(counts[place])?;
        counts[place] += 1;
    }
    Ok(ranks)
}

/// For each number how often it comes.
pub fn totals(alloc: Global, numbers: &[i64]) -> Result<Vec<u32>, AllocError>
    requires { length numbers.now ≤ 67108864 }
    ensures { IfOk result (λ ns. ns.items ≡ totals numbers.now) }
{
    let sorted = in_order(alloc, numbers)?;
    totals_in(alloc, numbers, &sorted)
}

/// For each number how often it comes before.
pub fn ranks(alloc: Global, numbers: &[i64]) -> Result<Vec<u32>, AllocError>
    requires { length numbers.now ≤ 67108864 }
    ensures { IfOk result (λ ns. ns.items ≡ ranks numbers.now) }
{
    let sorted = in_order(alloc, numbers)?;
    ranks_in(alloc, numbers, &sorted)
}
