// Sorted triples, added up where they stand.
ghost use Rattle.std.specs.Prelude.{◌≡◌, ◌≢◌, ◌+◌, ◌<◌, ◌≤◌, ℕ, All, length, take, drop};
ghost use Rattle.std.specs.List.Sorted.{IsNonDecreasingBy};
ghost use Rattle.us_matrix.specs.Map.{IsSide, IsInShape, IsRisingFrom, AreEntries, place, value_at};
ghost use Rattle.us_matrix.specs.Sums.{sum_at, with_sum};

use crate::{Shape, Triple};

/// Adds up neighbours at one coordinate and leaves out what adds up to 0. The entries stand in front then; the answer
/// is how many there are.
pub fn merge_sorted(triples: &mut [Triple], shape: Shape) -> usize
    requires shape { IsSide shape.rows × IsSide shape.cols }
    requires inside { All (IsInShape shape.rows shape.cols) triples.old }
    requires order { IsNonDecreasingBy place triples.old }
    ensures rising { IsRisingFrom 0 (take result triples.new) }
    ensures entries { AreEntries shape.rows shape.cols (take result triples.new) }
    ensures values { (i j : ℕ) → value_at (take result triples.new) i j ≡ sum_at triples.old i j }
{
    let mut count = 0;
    let mut i = 0;
    let mut j = 0;
    let mut sum = 0u64;
    for k in 0..triples.len() {
        let t = triples[k];
        if t.i != i || t.j != j {
            count = put_sum(triples, count, i, j, sum);
            i = t.i;
            j = t.j;
            sum = 0;
        }
        sum = sum.wrapping_add(t.v.cast_unsigned());
    }
    put_sum(triples, count, i, j, sum)
}

// Writes a sum behind the first `count` entries, unless it is 0, and answers how many entries there are then.
fn put_sum(triples: &mut [Triple], count: usize, i: u32, j: u32, sum: u64) -> usize
    requires { sum ≢ 0 → count < length triples.old }
    ensures front { take result triples.new ≡ with_sum (take count triples.old) i j sum }
    ensures behind { (n : ℕ) → count < n → drop n triples.new ≡ drop n triples.old }
    ensures none { sum ≡ 0 → (result ≡ count) × (triples.new ≡ triples.old) }
    ensures one { result ≤ count + 1 }
{
    if sum == 0 {
        return count;
    }
    triples[count] = Triple {
        i,
        j,
        v: sum.cast_signed(),
    };
    count + 1
}
