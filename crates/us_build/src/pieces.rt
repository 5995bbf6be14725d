//! The buffers of the levels and of the values of one part, and their size.
ghost use Rattle.std.specs.Prelude.{◌≡◌, ◌<◌, ◌≤◌, ◌+◌, min, IfOk, IfErr};
ghost use Rattle.us_format.specs.Declaration.{Part};
ghost use Rattle.us_format.specs.Reading.{limit};
ghost use Rattle.us_build.specs.Pieces.{IsBuildable, IsPartOf, pieces_on, size_on};
ghost use Rattle.us_build.specs.declared.fault.BuildFault.TheVariants.{TooLarge};

use crate::fault::BuildFault;
use crate::passes::{LIMIT, measure, write};
use crate::rows::Rows;
use std::alloc::{AllocError, Global};
use us_expr::{Expr, Query};
use us_format::Kind;
use us_matrix::{Buffers, Shape, Triple};
use us_variables::Variables;

/// The buffers of the levels and of the values of a lawful part, which has these level expressions, kinds and queries, for
/// the matrix with these entries. The variables are those of the queries on the entries. Nothing is built where the size is
/// above the limit.
pub fn build_pieces(
    alloc: Global,
    levels: &[Expr],
    kinds: &[Kind],
    queries: &[Query],
    variables: &Variables,
    shape: Shape,
    entries: &[Triple],
) -> Result<Buffers, BuildFault>
    requires { IsBuildable levels.now kinds.now queries.now variables.now shape entries.now }
    ensures built { IfOk result (λ b. (p : Part) → IsPartOf p levels.now kinds.now queries.now variables.now → b ≡ pieces_on shape entries.now p) }
    ensures small { IfOk result (λ b. (p : Part) → IsPartOf p levels.now kinds.now queries.now variables.now → size_on shape entries.now p ≤ limit) }
    ensures large { IfErr result (λ fault. (p : Part) → IsPartOf p levels.now kinds.now queries.now variables.now → fault ≡ TooLarge → limit < size_on shape entries.now p) }
{
    let Rows { levels, mut items } = Rows::new(
        alloc, levels, kinds, queries, variables, shape, entries,
    )?;
    if measure(&mut items, &levels) > LIMIT {
        return Err(BuildFault::TooLarge);
    }
    let mut lists = Buffers::new(alloc);
    write(alloc, &mut lists, &mut items, &levels)?;
    Ok(lists)
}

/// The size of these buffers: their lengths and the numbers of positions behind each level, added up, or one more than
/// the limit where it is larger.
pub fn size_of_pieces(
    alloc: Global,
    levels: &[Expr],
    kinds: &[Kind],
    queries: &[Query],
    variables: &Variables,
    shape: Shape,
    entries: &[Triple],
) -> Result<u64, AllocError>
    requires { IsBuildable levels.now kinds.now queries.now variables.now shape entries.now }
    ensures { IfOk result (λ n. (p : Part) → IsPartOf p levels.now kinds.now queries.now variables.now → n ≡ min (size_on shape entries.now p) (limit + 1)) }
{
    let Rows { levels, mut items } = Rows::new(
        alloc, levels, kinds, queries, variables, shape, entries,
    )?;
    Ok(measure(&mut items, &levels))
}
