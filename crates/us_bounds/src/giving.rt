//! The check of the `give` line.

ghost use Rattle.std.specs.Prelude.{◌≡◌, IfOk, [], ◌∷◌};
ghost use Rattle.us_code.specs.Typing.{sees_all, are_distinct};
ghost use Rattle.us_code.specs.Unbound.{broken, rule, in_phase};
ghost use Rattle.us_bounds.specs.Seen.{context_of};
ghost use Rattle.us_bounds.specs.Verdict.{verdict_at, IsVerdict};

use crate::fault::{Unbound, VerifyFault};
use crate::kinds::sees_new;
use crate::rules::judge;
use crate::stop::{Rule, Stop};
use crate::table::Table;
use std::alloc::{AllocError, Global};
use std::collections::BTreeSet;

/// Whether all of the new buffers are visible.
#[tactic(auto, using(crate::proofs::Lists::all))]
fn sees_all(table: &Table, bufs: &[u32]) -> bool
    ensures { result ≡ sees_all (context_of table.now) bufs.now }
{
    for buf in bufs {
        if !sees_new(table, *buf) {
            return false;
        }
    }
    true
}

/// Whether no number comes twice.
fn are_distinct(alloc: Global, numbers: &[u32]) -> Result<bool, AllocError>
    ensures { IfOk result (λ distinct. distinct ≡ are_distinct numbers.now) }
{
    let mut before = BTreeSet::new(alloc);
    let mut distinct = true;
    for number in numbers {
        let first = before.insert(*number)?;
        distinct = distinct && first;
    }
    Ok(distinct)
}

/// The answer for a phase, from that for its items.
pub fn at_phase(number: u64, step: Result<(), Stop>) -> Result<(), VerifyFault>
    ensures { result ≡ verdict_at number step }
{
    match step {
        Ok(()) => Ok(()),
        Err(Stop::Broken { item, rule }) => Err(VerifyFault::Unbound(Unbound {
            phase: number,
            stmt: item,
            rule,
        })),
        Err(Stop::Memory) => Err(VerifyFault::Memory),
    }
}

/// Checks the `give` line, the one item of phase `number`.
pub fn check_give(
    alloc: Global,
    table: &Table,
    number: u64,
    give: &[u32],
) -> Result<(), VerifyFault>
    ensures { let rules = rule 1 (sees_all (context_of table.now) give.now) ∷ rule 10 (are_distinct give.now) ∷ [] in
        IsVerdict result (in_phase number (broken 0 rules)) }
{
    let names = sees_all(table, give);
    let distinct = are_distinct(alloc, give)?;
    let step = judge(0, &[Rule(1, names), Rule(10, distinct)]);
    at_phase(number, step)
}
