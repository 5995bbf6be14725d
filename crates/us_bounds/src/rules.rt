//! The rules of an item, lowest first, and where a check stops.

ghost use Rattle.std.specs.Prelude.{◌≡◌, map, [], ◌∷◌};
ghost use Rattle.us_code.specs.Plain.{term_tree};
ghost use Rattle.us_code.specs.Unbound.{broken, rule, keeps_flats, keeps_nexts};
ghost use Rattle.us_bounds.specs.Seen.{context_of};
ghost use Rattle.us_bounds.specs.Steps.{IsStep, plain_rule, term_rules};

use crate::stop::{Rule, Stop};
use crate::table::Table;
use crate::terms::{keeps_flats, keeps_nexts};
use us_code::Term;

/// Stops at the first of the rules that isn't kept.
pub fn judge(item: u32, rules: &[Rule]) -> Result<(), Stop>
    ensures { IsStep result (broken item (map plain_rule rules.now)) }
{
    for rule in rules {
        if !rule.1 {
            let number = rule.0;
            return Err(Stop::Broken { item, rule: number });
        }
    }
    Ok(())
}

/// Judges an item of one term: whether its names may stand there, each `flat`, each `next` and `up`.
pub fn judge_term(table: &Table, item: u32, names: bool, value: &Term) -> Result<(), Stop>
    ensures { IsStep result (broken item (term_rules (context_of table.now) names (term_tree value.now))) }
{
    let flats = keeps_flats(table, value);
    let nexts = keeps_nexts(table, value);
    judge(item, &[Rule(1, names), Rule(5, flats), Rule(6, nexts)])
}
