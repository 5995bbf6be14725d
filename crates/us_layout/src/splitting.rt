//! The entries of each part of a divided matrix.
ghost use Rattle.std.specs.Prelude.{◌≡◌, ◌≤◌, ◌<◌, ◌++◌, [], ◌∷◌, All, IfOk, OnOk, if◌then◌else◌, length, map, slice_index_or};
ghost use Rattle.std.specs.List.{position_or_len, range_with_len};
ghost use Rattle.us_matrix.specs.Map.{Map};
ghost use Rattle.us_format.specs.Buffers.{meets};
ghost use Rattle.us_format.specs.Declaration.{query_of};
ghost use Rattle.us_format.specs.Program.{shape_in};
ghost use Rattle.us_variables.specs.Counted.{IsCountable, value_in};
ghost use Rattle.us_layout.specs.Splitting.{AreShares, share_in, share_of};

use std::alloc::{AllocError, Global};
use std::marker::Model;
use us_expr::{Cond, Query};
use us_matrix::{Matrix, Triple};
use us_variables::Variables;

/// The matrices of the parts in order. Contracts see it as a list of matrices.
#[derive(Drop)]
pub struct Shares {
    matrices: Vec<Matrix>,
}

impl Model for Shares {
    ghost use Rattle.std.specs.Prelude.{List};
    ghost use Rattle.us_matrix.specs.Map.{Map};

    ghost Value = { List Map };

    ghost view = { λ s. s.matrices.items };
}

impl Shares {
    /// How many parts there are.
    pub fn count(&self) -> usize
        ensures { result ≡ length self.now }
    {
        self.matrices.len()
    }

    /// The matrix of the part with this number, counted from 0.
    pub fn at(&self, part: usize) -> &Matrix
        requires { part < length self.now }
        ensures { (d : Map) → result.now ≡ slice_index_or self.now part d }
    {
        &self.matrices[part]
    }
}

// Whether a condition holds at an entry.
fn holds(variables: &Variables, cond: Cond, entry: usize) -> bool
    ensures { result ≡ meets cond (value_in variables.now cond.var entry) }
{
    let value = variables.value(cond.var, entry);
    if cond.less {
        value < i64::from(cond.bound)
    } else {
        value >= i64::from(cond.bound)
    }
}

// The number of the first condition that holds at an entry, or the number of conditions.
fn part_of(variables: &Variables, conds: &[Cond], entry: usize) -> usize
    ensures { result ≡ position_or_len (λ c. meets c (value_in variables.now c.var entry)) conds.now }
{
    for (part, cond) in conds.iter().enumerate() {
        if holds(variables, *cond, entry) {
            return part;
        }
    }
    conds.len()
}

// The part of each of so many entries.
fn parts_of(
    alloc: Global,
    variables: &Variables,
    conds: &[Cond],
    count: usize,
) -> Result<Vec<usize>, AllocError>
    ensures { IfOk result (λ ns. ns.items ≡ map (λ k. position_or_len (λ c. meets c (value_in variables.now c.var k)) conds.now) (range_with_len 0 count)) }
{
    let mut parts = Vec::with_capacity(alloc, count)?;
    for entry in 0..count {
        parts.push(part_of(variables, conds, entry))?;
    }
    Ok(parts)
}

// Adds an entry, if it is wanted.
fn push_if(share: &mut Vec<Triple>, wanted: bool, t: Triple) -> Result<(), AllocError>
    ensures { OnOk result (share.new.items ≡ share.old.items ++ (if wanted then t ∷ [] else [])) }
{
    if wanted {
        share.push(t)?;
    }
    Ok(())
}

// The entries of a part.
fn share_of(
    alloc: Global,
    entries: &[Triple],
    parts: &[usize],
    part: usize,
) -> Result<Vec<Triple>, AllocError>
    requires { length parts.now ≡ length entries.now }
    ensures { IfOk result (λ v. v.items ≡ share_of part parts.now entries.now) }
{
    let mut share = Vec::new(alloc);
    for (k, t) in entries.iter().enumerate() {
        push_if(&mut share, parts[k] == part, *t)?;
    }
    Ok(share)
}

// The matrix of a part.
fn matrix_of(
    alloc: Global,
    matrix: &Matrix,
    parts: &[usize],
    part: usize,
) -> Result<Matrix, AllocError>
    requires { length parts.now ≡ length matrix.now.entries }
    ensures { IfOk result (λ m. m ≡ share_in matrix.now parts.now part) }
{
    let share = share_of(alloc, matrix.entries(), parts, part)?;
    Ok(Matrix::from_triples(matrix.shape(), share))
}

// The matrices of the parts.
fn matrices_of(
    alloc: Global,
    matrix: &Matrix,
    parts: &[usize],
    count: usize,
) -> Result<Vec<Matrix>, AllocError>
    requires { length parts.now ≡ length matrix.now.entries }
    ensures { IfOk result (λ ms. ms.items ≡ map (share_in matrix.now parts.now) (range_with_len 0 count)) }
{
    let mut matrices = Vec::with_capacity(alloc, count)?;
    for part in 0..count {
        matrices.push(matrix_of(alloc, matrix, parts, part)?)?;
    }
    Ok(matrices)
}

/// Divides the entries among one part more than there are conditions: an entry goes to the part of the first condition
/// that holds at it, and to the last part where none holds. The conditions are over variables of these queries, which
/// are counted over the whole matrix. Fails only where memory is wanting.
pub fn split(
    alloc: Global,
    matrix: &Matrix,
    queries: &[Query],
    conds: &[Cond],
) -> Result<Shares, AllocError>
    requires few { length matrix.now.entries ≤ 67108864 }
    requires countable { All (λ q. IsCountable (shape_in matrix.now) (query_of q)) queries.now }
    ensures { IfOk result (AreShares matrix.now (map query_of queries.now) conds.now) }
{
    let variables = Variables::new(alloc, matrix, queries, 0)?;
    let parts = parts_of(alloc, &variables, conds, matrix.entries().len())?;
    let matrices = matrices_of(alloc, matrix, &parts, conds.len() + 1)?;
    Ok(Shares { matrices })
}
