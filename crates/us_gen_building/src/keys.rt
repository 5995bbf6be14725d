//! By which coordinates the entries of a part are put in order.

ghost use Rattle.std.specs.Prelude.{◌≡◌, ◌≤◌, length, MatchOption};
ghost use Rattle.us_gen_building.specs.Keys as keys;

use crate::levels::raised;
use crate::part::PartLevel;
use us_format::Kind;

/// Whether a level is listed.
fn has_listed(levels: &[PartLevel]) -> bool
    ensures { result ≡ keys.has_listed levels.now }
{
    match levels {
        [] => false,
        [level, rest @ ..] => match level.kind {
            Kind::Full => has_listed(rest),
            Kind::Compressed => has_listed(rest),
            Kind::Listed => true,
            Kind::Slot => has_listed(rest),
        },
    }
}

/// How many levels there are up to the last compressed or listed one.
fn node_count(levels: &[PartLevel]) -> usize
    ensures value { result ≡ keys.node_count levels.now }
    ensures few { result ≤ length levels.now }
{
    match levels {
        [] => 0,
        [level, rest @ ..] => {
            let behind = node_count(rest);
            match level.kind {
                Kind::Full => raised(behind),
                Kind::Compressed => behind + 1,
                Kind::Listed => behind + 1,
                Kind::Slot => raised(behind),
            }
        }
    }
}

/// How many first levels have the coordinates by which the entries of a part are put in order: all where a level is listed,
/// else those up to the last compressed one. Without such a level the entries may come in any order.
pub fn order_keys(levels: &[PartLevel]) -> Option<usize>
    ensures value { result ≡ keys.order_keys levels.now }
    ensures few { MatchOption result (Unit {0}) (λ k. k ≤ length levels.now) }
{
    if has_listed(levels) {
        Some(levels.len())
    } else {
        match node_count(levels) {
            0 => None,
            n => Some(n),
        }
    }
}
