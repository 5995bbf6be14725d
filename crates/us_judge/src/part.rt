//! Judging a head and a part.
ghost use Rattle.std.specs.Prelude.{◌≡◌, ◌≢◌, None, length, IfOk, OnOk, IfErr};
ghost use Rattle.us_expr.specs.Tree.{Tree, RowIndex, ColIndex};
ghost use Rattle.us_format.specs.Lists.{or_else};
ghost use Rattle.us_format.specs.Known.{has, is_known};
ghost use Rattle.us_judge.specs.Acceptance.{refusal_by, part_rules, head_rules};
ghost use Rattle.us_judge.specs.Causes.{Explains, by_rule, early_rules, known_rules, late_rules};
ghost use Rattle.us_judge.specs.Views.{plain_part};
ghost use Rattle.us_judge.specs.Kinds.{kinds_of};
ghost use Rattle.us_judge.specs.Short.{IsShort};

use crate::kinds::{Kinds, kinds_of};
use crate::packs::bad_pack;
use crate::refusal::{JudgeFault, Refusal};
use crate::rules::{
    bad_argument, bad_count, bad_lanes, bad_merge, bad_name, bad_number, bad_order, bad_sum,
    bad_whole, unless,
};
use std::alloc::Global;
use us_decl::Part;
use us_expr::Expr;
use us_known::{KnownSet, known};

/// What the rules that were asked say of a head or a part.
#[derive(Clone, Copy, Debug, PartialEq, Eq)]
pub struct Verdict {
    part: u8,
    pub refusal: Option<Refusal>,
}

impl Verdict {
    /// No rule was asked.
    pub fn on(part: u8) -> Verdict
        ensures { result ≡ record { part = part; refusal = None } }
    {
        Verdict {
            part,
            refusal: None,
        }
    }

    /// The verdict after one rule more, which is broken at `place`, if at all.
    pub fn rule(self, rule: u8, place: Option<u32>) -> Verdict
        ensures { result ≡ record { part = self.part; refusal = or_else self.refusal (by_rule rule self.part place) } }
    {
        let part = self.part;
        let refusal = match (self.refusal, place) {
            (None, Some(place)) => Some(Refusal { rule, part, place }),
            (refusal, _) => refusal,
        };
        Verdict { part, refusal }
    }
}

/// The first refusal by the rules that need no known levels.
fn early_refusal(part: &Part, number: u8) -> Option<Refusal>
    requires { IsShort (plain_part part.now) }
    ensures { result ≡ refusal_by early_rules number (plain_part part.now) }
{
    let queries = part.queries.as_slice();
    let verdict = Verdict::on(number)
        .rule(1, bad_count(part))
        .rule(2, bad_name(part))
        .rule(3, bad_argument(queries))
        .rule(4, bad_lanes(queries))
        .rule(5, bad_sum(part))
        .rule(6, bad_whole(part))
        .rule(7, bad_number(part))
        .rule(8, bad_merge(part))
        .rule(9, bad_order(part));
    verdict.refusal
}

/// The first refusal by the rules on what all levels make known.
fn known_refusal(part: &Part, set: &KnownSet, number: u8) -> Option<Refusal>
    requires { (e : Tree) → has set.now e ≡ is_known (plain_part part.now).levels (plain_part part.now).queries (length (plain_part part.now).levels) e }
    ensures { result ≡ refusal_by known_rules number (plain_part part.now) }
{
    let _ = part;
    let verdict = Verdict::on(number)
        .rule(10, unless(set.has(&Expr::I)))
        .rule(11, unless(set.has(&Expr::J)));
    verdict.refusal
}

/// The first refusal by the rules that need the kinds of the levels.
fn late_refusal(part: &Part, kinds: &Kinds, number: u8) -> Option<Refusal>
    requires short { IsShort (plain_part part.now) }
    requires kinds { kinds.now ≡ kinds_of (plain_part part.now) }
    ensures { result ≡ refusal_by late_rules number (plain_part part.now) }
{
    let verdict = Verdict::on(number).rule(12, bad_pack(part, kinds.as_slice()));
    verdict.refusal
}

/// Hands a refusal on as a fault.
pub fn refuse(refusal: Option<Refusal>) -> Result<(), JudgeFault>
    ensures ok { OnOk result (refusal ≡ None) }
    ensures err { IfErr result (λ fault. (fault ≢ JudgeFault.Memory) × Explains fault refusal) }
{
    match refusal {
        Some(refusal) => Err(JudgeFault::Refused(refusal)),
        None => Ok(()),
    }
}

/// The refusal by the rules on what all levels make known.
fn check_known(alloc: Global, part: &Part, number: u8) -> Result<(), JudgeFault>
    ensures ok { OnOk result (refusal_by known_rules number (plain_part part.now) ≡ None) }
    ensures err { IfErr result (λ fault. Explains fault (refusal_by known_rules number (plain_part part.now))) }
{
    let levels = part.levels.as_slice();
    let set = known(alloc, levels, levels.len(), part.queries.as_slice())?;
    refuse(known_refusal(part, &set, number))
}

/// The kinds of the levels of a part, if it breaks no rule.
pub fn judge_part(alloc: Global, part: &Part, number: u8) -> Result<Kinds, JudgeFault>
    requires { IsShort (plain_part part.now) }
    ensures kinds { IfOk result (λ kinds. kinds ≡ kinds_of (plain_part part.now)) }
    ensures accepted { OnOk result (refusal_by part_rules number (plain_part part.now) ≡ None) }
    ensures refused { IfErr result (λ fault. Explains fault (refusal_by part_rules number (plain_part part.now))) }
{
    refuse(early_refusal(part, number))?;
    check_known(alloc, part, number)?;
    let kinds = kinds_of(alloc, part)?;
    refuse(late_refusal(part, &kinds, number))?;
    Ok(kinds)
}
