//! The rules, one function each: the number of the first item that breaks it.
ghost use Rattle.std.specs.Prelude.{◌≡◌, ◌≤◌, ◌+◌, [], ◌∷◌, map, length, not, nat_lt, ◌&&◌};
ghost use Rattle.std.specs.List.{list_all};
ghost use Rattle.us_format.specs.Lists.{among, all_different};
ghost use Rattle.us_expr.specs.Tree.{tree};
ghost use Rattle.us_format.specs.Declaration.{query_of, argument, defines, defined};
ghost use Rattle.us_judge.specs.Acceptance.{unless, first_failing, first_level, first_trim, first_merge, defines_new, is_defined_once, has_lawful_lanes, is_count, bad_count, bad_name, bad_argument, bad_lanes, bad_sum, bad_whole, bad_number, bad_merge, bad_order};
ghost use Rattle.us_format.specs.Kinds.{is_loose};
ghost use Rattle.us_judge.specs.Variables.{bad_level, is_lawful_level};
ghost use Rattle.us_judge.specs.Views.{plain_part};
ghost use Rattle.us_judge.specs.Short.{IsShort};

use crate::variables::{Class, allows_all, has_lawful_argument, is_lawful_level, is_member};
use us_decl::Part;
use us_expr::{Expr, Query};

/// The item 0, unless the test holds.
pub fn unless(holds: bool) -> Option<u32>
    ensures { result ≡ unless holds }
{
    if holds { None } else { Some(0) }
}

/// One to six levels.
pub fn bad_count(part: &Part) -> Option<u32>
    ensures { result ≡ bad_count (plain_part part.now) }
{
    let count = part.levels.len();
    unless(count >= 1 && count <= 6)
}

fn argument(query: &Query) -> &Expr
    ensures { tree result.now ≡ argument (query_of query.now) }
{
    match query {
        Query::Sum { arg, .. }
        | Query::Enumerate { arg, .. }
        | Query::Reorder { arg, .. }
        | Query::Schedule { arg, .. } => arg,
    }
}

/// Whether a query defines no variable that is defined before, and none twice.
fn defines_new(before: &[Query], query: &Query) -> bool
    ensures { result ≡ defines_new (map query_of before.now) (query_of query.now) }
{
    match query {
        Query::Sum { var, .. } | Query::Enumerate { var, .. } | Query::Reorder { var, .. } => {
            !is_member(before, Class::Defined, *var)
        }
        Query::Schedule { lane, slot, .. } => {
            lane != slot
                && !is_member(before, Class::Defined, *lane)
                && !is_member(before, Class::Defined, *slot)
        }
    }
}

/// Whether a query uses only variables of the queries before it, and defines only new ones.
fn is_defined_once(before: &[Query], query: &Query) -> bool
    ensures { result ≡ is_defined_once (map query_of before.now) (query_of query.now) }
{
    allows_all(before, Class::Defined, argument(query)) && defines_new(before, query)
}

/// The first query that uses an undefined variable or defines one again.
pub fn first_misdefined(queries: &[Query]) -> Option<u32>
    requires { length queries.now ≤ 16 }
    ensures { result ≡ first_failing is_defined_once [] 0 (map query_of queries.now) }
{
    for (k, query) in queries.iter().enumerate() {
        if !is_defined_once(&queries[..k], query) {
            return Some(k as u32);
        }
    }
    None
}

fn has_lawful_lanes(query: &Query) -> bool
    ensures { result ≡ has_lawful_lanes (query_of query.now) }
{
    match query {
        Query::Schedule { lanes, .. } => *lanes >= 1 && *lanes <= 64,
        _ => true,
    }
}

/// The first schedule that has not 1 to 64 lanes.
pub fn bad_lanes(queries: &[Query]) -> Option<u32>
    requires { length queries.now ≤ 16 }
    ensures { result ≡ bad_lanes (map query_of queries.now) }
{
    for (k, query) in queries.iter().enumerate() {
        if !has_lawful_lanes(query) {
            return Some(k as u32);
        }
    }
    None
}

/// The first query whose argument is not lawful.
pub fn bad_argument(queries: &[Query]) -> Option<u32>
    requires { length queries.now ≤ 16 }
    ensures { result ≡ bad_argument (map query_of queries.now) }
{
    for (k, query) in queries.iter().enumerate() {
        if !has_lawful_argument(query) {
            return Some(k as u32);
        }
    }
    None
}

fn is_count(query: &Query) -> bool
    ensures { result ≡ is_count (query_of query.now) }
{
    matches!(query, Query::Sum { .. } | Query::Enumerate { .. })
}

/// The first query that is neither a sum nor an enumerate.
pub fn first_no_count(queries: &[Query]) -> Option<u32>
    requires { length queries.now ≤ 16 }
    ensures { result ≡ first_failing (λ _ q. is_count q) [] 0 (map query_of queries.now) }
{
    for (k, query) in queries.iter().enumerate() {
        if !is_count(query) {
            return Some(k as u32);
        }
    }
    None
}

/// The first level that is not lawful as to the variables of a class, the first level having the number `first`.
fn first_unlawful(levels: &[Expr], queries: &[Query], class: Class, first: usize) -> Option<u32>
    requires levels { length levels.now ≤ 16 }
    requires first { first ≤ 16 }
    ensures { result ≡ first_failing (λ _ e. is_lawful_level class (map query_of queries.now) e) [] first (map tree levels.now) }
{
    for (k, level) in levels.iter().enumerate() {
        if !is_lawful_level(queries, class, level) {
            return Some((first + k) as u32);
        }
    }
    None
}

/// The first level of a part that is not lawful as to the variables of a class.
fn unlawful_level(part: &Part, class: Class) -> Option<u32>
    requires { IsShort (plain_part part.now) }
    ensures { result ≡ bad_level class (plain_part part.now) }
{
    let queries = part.queries.as_slice();
    first_unlawful(part.levels.as_slice(), queries, class, queries.len())
}

/// The first query or level that uses an undefined variable or defines one again.
pub fn bad_name(part: &Part) -> Option<u32>
    requires { IsShort (plain_part part.now) }
    ensures { result ≡ bad_name (plain_part part.now) }
{
    match first_misdefined(part.queries.as_slice()) {
        Some(place) => Some(place),
        None => unlawful_level(part, Class::Defined),
    }
}

/// The first level in which a sum stands.
pub fn bad_sum(part: &Part) -> Option<u32>
    requires { IsShort (plain_part part.now) }
    ensures { result ≡ bad_sum (plain_part part.now) }
{
    unlawful_level(part, Class::Sums)
}

/// The first level of which a counter is only a part.
pub fn bad_whole(part: &Part) -> Option<u32>
    requires { IsShort (plain_part part.now) }
    ensures { result ≡ bad_whole (plain_part part.now) }
{
    unlawful_level(part, Class::Counters)
}

/// Whether a number is in a list.
pub fn contains(numbers: &[u32], number: usize) -> bool
    ensures { result ≡ among number numbers.now }
{
    numbers.iter().any(|n| number == *n as usize)
}

/// Whether a number is that of one of so many levels, and none of those before it.
fn is_new_level(before: &[u32], number: usize, levels: usize) -> bool
    ensures { result ≡ (nat_lt number levels && not (among number before.now)) }
{
    number < levels && !contains(before, number)
}

/// The first number that is no level's or stands twice, the first number having the place `first`.
fn first_bad_number(numbers: &[u32], levels: usize, first: usize) -> Option<u32>
    requires numbers { length numbers.now ≤ 16 }
    requires first { first ≤ 64 }
    ensures { result ≡ first_failing (λ before k. nat_lt k levels && not (among k before)) [] first numbers.now }
{
    for (k, number) in numbers.iter().enumerate() {
        if !is_new_level(&numbers[..k], *number as usize, levels) {
            return Some((first + k) as u32);
        }
    }
    None
}

/// The place of the first number after `trim`.
fn first_trim(part: &Part) -> usize
    requires { IsShort (plain_part part.now) }
    ensures { result ≡ first_trim (plain_part part.now) }
{
    part.queries.len() + part.levels.len()
}

/// The place of the first number after `merge`.
fn first_merge(part: &Part) -> usize
    requires { IsShort (plain_part part.now) }
    ensures { result ≡ first_merge (plain_part part.now) }
{
    first_trim(part) + part.trim.len()
}

/// The first number after `trim` or `merge` that is no level's or stands twice.
pub fn bad_number(part: &Part) -> Option<u32>
    requires { IsShort (plain_part part.now) }
    ensures { result ≡ bad_number (plain_part part.now) }
{
    let levels = part.levels.len();
    match first_bad_number(part.trim.as_slice(), levels, first_trim(part)) {
        Some(place) => Some(place),
        None => first_bad_number(part.merge.as_slice(), levels, first_merge(part)),
    }
}

/// The first number of `merge` that is not in `trim`, the first number having the place `first`.
fn first_untrimmed(merge: &[u32], trim: &[u32], first: usize) -> Option<u32>
    requires numbers { length merge.now ≤ 16 }
    requires first { first ≤ 64 }
    ensures { result ≡ first_failing (λ _ k. among k trim.now) [] first merge.now }
{
    for (k, number) in merge.iter().enumerate() {
        if !contains(trim, *number as usize) {
            return Some((first + k) as u32);
        }
    }
    None
}

/// The first merged level that is not trimmed.
pub fn bad_merge(part: &Part) -> Option<u32>
    requires { IsShort (plain_part part.now) }
    ensures { result ≡ bad_merge (plain_part part.now) }
{
    first_untrimmed(
        part.merge.as_slice(),
        part.trim.as_slice(),
        first_merge(part),
    )
}

/// Whether a level is trimmed and not merged.
pub fn is_loose(part: &Part, level: usize) -> bool
    ensures { result ≡ is_loose (plain_part part.now) level }
{
    contains(part.trim.as_slice(), level) && !contains(part.merge.as_slice(), level)
}

/// The first level behind a loose one that is not loose.
pub fn bad_order(part: &Part) -> Option<u32>
    requires { IsShort (plain_part part.now) }
    ensures { result ≡ bad_order (plain_part part.now) }
{
    let first = part.queries.len();
    let mut seen = false;
    for k in 0..part.levels.len() {
        let loose = is_loose(part, k);
        if seen && !loose {
            return Some((first + k) as u32);
        }
        seen |= loose;
    }
    None
}
