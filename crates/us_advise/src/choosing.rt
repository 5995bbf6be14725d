//! The first of the least of some sizes.
ghost use Rattle.std.specs.Prelude.{MatchOption};
ghost use Rattle.us_advise.specs.Least.{AreAbove, IsLeastAt};

use us_build::LIMIT;

/// The first place of the least of these sizes, if one of them is within the limit of 67108864.
pub fn least_of(sizes: &[u64]) -> Option<usize>
    ensures { MatchOption result (AreAbove sizes.now) (IsLeastAt sizes.now) }
{
    let mut best = None;
    let mut least = LIMIT + 1;
    for (k, size) in sizes.iter().enumerate() {
        if *size < least {
            best = Some(k);
            least = *size;
        }
    }
    best
}
