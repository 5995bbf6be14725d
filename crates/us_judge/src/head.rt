//! Judging a head.
ghost use Rattle.std.specs.Prelude.{◌≡◌, ◌≤◌, [], map, length};
ghost use Rattle.us_format.specs.Lists.{among};
ghost use Rattle.us_format.specs.Declaration.{query_of, defined};
ghost use Rattle.us_judge.specs.Acceptance.{first_failing, bad_condition, bad_head_name, head_refusal};
ghost use Rattle.us_judge.specs.Views.{plain_head};

use crate::part::Verdict;
use crate::refusal::Refusal;
use crate::rules::{bad_argument, bad_lanes, first_misdefined, first_no_count};
use crate::variables::{Class, is_member};
use us_decl::Head;
use us_expr::{Cond, Query};

/// The first condition whose variable is not defined, the first condition having the number `first`.
fn first_undefined(conds: &[Cond], queries: &[Query], first: usize) -> Option<u32>
    requires conds { length conds.now ≤ 3 }
    requires first { first ≤ 16 }
    ensures { result ≡ first_failing (λ _ c. among c.var (defined (map query_of queries.now))) [] first conds.now }
{
    for (k, cond) in conds.iter().enumerate() {
        if !is_member(queries, Class::Defined, cond.var) {
            return Some((first + k) as u32);
        }
    }
    None
}

/// The first condition of a head whose variable is not defined.
fn unknown_condition(head: &Head) -> Option<u32>
    requires queries { length head.now.queries ≤ 16 }
    requires conds { length head.now.conds ≤ 3 }
    ensures { result ≡ bad_condition (map query_of head.now.queries) head.now.conds }
{
    let queries = head.queries.as_slice();
    first_undefined(head.conds.as_slice(), queries, queries.len())
}

/// The first query that uses an undefined variable or defines one again, or the first condition that uses one.
fn bad_head_name(head: &Head) -> Option<u32>
    requires queries { length head.now.queries ≤ 16 }
    requires conds { length head.now.conds ≤ 3 }
    ensures { result ≡ bad_head_name (plain_head head.now) }
{
    match first_misdefined(head.queries.as_slice()) {
        Some(place) => Some(place),
        None => unknown_condition(head),
    }
}

/// The first refusal by the rules of a head. Without a condition there is no head.
pub fn head_refusal(head: &Head) -> Option<Refusal>
    requires queries { length head.now.queries ≤ 16 }
    requires conds { length head.now.conds ≤ 3 }
    ensures { result ≡ head_refusal (plain_head head.now) }
{
    if head.conds.is_empty() {
        return None;
    }
    let queries = head.queries.as_slice();
    let verdict = Verdict::on(0)
        .rule(2, bad_head_name(head))
        .rule(3, bad_argument(queries))
        .rule(4, bad_lanes(queries))
        .rule(13, first_no_count(queries));
    verdict.refusal
}
