//! How the loops take the levels.

ghost use Rattle.std.specs.Prelude.{◌≡◌, ◌+◌, ◌*◌, ◌<◌, ◌≤◌, ◌^◌, length, IfOk, [], ◌∷◌, map};
ghost use Rattle.us_code.specs.Plain.{term_tree, line_tree};
ghost use Rattle.us_gen.specs.Levels.{size_term};
ghost use Rattle.us_gen_build.specs.Levels.{level_tree, level_trees, HaveNames};
ghost use Rattle.us_gen_building.specs.Levels as plain;

use crate::part::{Descent, PartLevel};
use sqlite_items::Items;
use std::alloc::{AllocError, Global};
use us_code::{Dim, DimLine, DimLines, Term, add};
use us_format::Kind;
use us_gen_build::{BuildLevel, Role};

/// Whether all levels are slot levels.
pub fn are_last(levels: &[PartLevel]) -> bool
    ensures { result ≡ plain.are_last levels.now }
{
    match levels {
        [] => true,
        [level, rest @ ..] => match level.kind {
            Kind::Full => false,
            Kind::Compressed => false,
            Kind::Listed => false,
            Kind::Slot => are_last(rest),
        },
    }
}

/// The columns of coordinates, in order. It fails only for want of memory.
pub fn columns_of(alloc: Global, levels: &[PartLevel]) -> Result<Vec<u32>, AllocError>
    ensures { IfOk result (λ v. v.items ≡ plain.columns levels.now) }
{
    levels.iter().map(|level| level.column).collect(alloc)
}

/// A dim as a term.
fn dim_term(dim: Dim) -> Term
    ensures { term_tree result ≡ size_term dim }
{
    match dim {
        Dim::Number(n) => Term::Number(n),
        Dim::Name(d) => Term::Size(Dim::Name(d)),
        Dim::Len(k) => Term::Size(Dim::Len(k)),
    }
}

/// Whether the positions of a level are the ranks of the entries.
fn ranks_below(kind: Kind, last: bool, ranked: bool) -> bool
    ensures { result ≡ plain.ranks_below kind last ranked }
{
    match kind {
        Kind::Full => false,
        Kind::Compressed => last,
        Kind::Listed => true,
        Kind::Slot => ranked,
    }
}

/// How many positions a level has.
fn positions(kind: Kind, last: bool, count: u32, above: Dim, name: u32) -> Dim
    ensures { result ≡ plain.positions kind last count above name }
{
    match kind {
        Kind::Full => Dim::Name(name),
        Kind::Compressed => Dim::Name(if last { count } else { name }),
        Kind::Listed => Dim::Name(count),
        Kind::Slot => above,
    }
}

/// One more than the positions above.
fn starts(is_top: bool, name: u32) -> Dim
    ensures { result ≡ plain.starts is_top name }
{
    if is_top {
        Dim::Number(2)
    } else {
        Dim::Name(name)
    }
}

/// One level down. Only slot levels follow where `last` says so.
pub fn deeper(count: u32, level: PartLevel, last: bool, at: Descent) -> Descent
    requires dims { at.dims + 2 < 2 ^ 32 }
    requires first { at.first + 4 < 2 ^ 32 }
    requires register { at.register + 1 < 2 ^ 32 }
    ensures { result ≡ plain.deeper count level last at }
{
    Descent {
        is_top: false,
        is_rank: ranks_below(level.kind, last, at.is_rank),
        above: positions(level.kind, last, count, at.above, at.dims + 1),
        dims: at.dims + 2,
        first: at.first + 4,
        register: at.register + 1,
    }
}

/// The role of a slot level or of the values.
fn slot_role(ranked: bool) -> Role
    ensures { result ≡ plain.slot_role ranked }
{
    if ranked {
        Role::AtRank
    } else {
        Role::AtPosition
    }
}

/// The role of a level in the loop that builds.
fn role_of(kind: Kind, last: bool, ranked: bool) -> Role
    ensures { result ≡ plain.role_of kind last ranked }
{
    match kind {
        Kind::Full => Role::Full,
        Kind::Compressed => { if last { Role::Single } else { Role::Shared } }
        Kind::Listed => Role::Single,
        Kind::Slot => slot_role(ranked),
    }
}

/// A level in the loop that builds.
pub fn built_level(count: u32, level: PartLevel, last: bool, at: Descent) -> BuildLevel
    requires { at.dims + 2 < 2 ^ 32 }
    ensures { level_tree result ≡ plain.built_level count level last at }
{
    BuildLevel {
        role: role_of(level.kind, last, at.is_rank),
        is_top: at.is_top,
        first: at.first,
        size: dim_term(level.size),
        coord: Term::Reg(at.register),
        pos_length: starts(at.is_top, at.dims),
        crd_length: positions(level.kind, last, count, at.above, at.dims + 1),
    }
}

/// The values in the loop that builds.
pub fn built_values(at: Descent) -> BuildLevel
    ensures { level_tree result ≡ plain.built_values at }
{
    BuildLevel {
        role: slot_role(at.is_rank),
        is_top: false,
        first: at.first,
        size: Term::Number(0),
        coord: Term::Reg(at.register),
        pos_length: Dim::Number(0),
        crd_length: at.above,
    }
}

/// A level in front of others. It fails only for want of memory.
pub fn in_front(
    alloc: Global,
    level: BuildLevel,
    mut rest: Vec<BuildLevel>,
) -> Result<Vec<BuildLevel>, AllocError>
    ensures trees { IfOk result (λ v. level_trees v.items ≡ level_tree level ∷ level_trees rest.items) }
    ensures names { IfOk result (λ v. level.first + 4 < 2 ^ 32 → HaveNames rest.items → HaveNames v.items) }
    ensures number { IfOk result (λ v. length v.items ≡ length rest.items + 1) }
{
    let mut levels = Vec::new(alloc);
    levels.push(level)?;
    levels.append(&mut rest)?;
    Ok(levels)
}

/// The levels in the loop that builds, and the values behind them. It fails only for want of memory.
pub fn built_levels(
    alloc: Global,
    count: u32,
    levels: &[PartLevel],
    at: Descent,
) -> Result<Vec<BuildLevel>, AllocError>
    requires dims { at.dims + 2 * length levels.now + 2 < 2 ^ 32 }
    requires first { at.first + 4 * length levels.now + 4 < 2 ^ 32 }
    requires register { at.register + length levels.now + 1 < 2 ^ 32 }
    ensures trees { IfOk result (λ v. level_trees v.items ≡ plain.built_levels count levels.now at) }
    ensures names { IfOk result (λ v. HaveNames v.items) }
    ensures number { IfOk result (λ v. length v.items ≡ length levels.now + 1) }
{
    match levels {
        [] => in_front(alloc, built_values(at), Vec::new(alloc)),
        [level, rest @ ..] => {
            let last = are_last(rest);
            let below = built_levels(alloc, count, rest, deeper(count, *level, last, at))?;
            in_front(alloc, built_level(count, *level, last, at), below)
        }
    }
}

/// One more than the number of levels behind, if there are any.
pub fn raised(behind: usize) -> usize
    requires { behind + 1 < 2 ^ 64 }
    ensures { result ≡ plain.raised behind }
{
    match behind {
        0 => 0,
        n => n + 1,
    }
}

/// How many levels there are up to the last one whose nodes are counted.
pub fn group_count(levels: &[PartLevel]) -> usize
    ensures value { result ≡ plain.group_count levels.now }
    ensures few { result ≤ length levels.now }
{
    match levels {
        [] => 0,
        [level, rest @ ..] => {
            let behind = group_count(rest);
            match level.kind {
                Kind::Full => raised(behind),
                Kind::Compressed => { if are_last(rest) { 0 } else { behind + 1 } }
                Kind::Listed => 0,
                Kind::Slot => 0,
            }
        }
    }
}

/// The role of a level in the loop that counts.
fn counting_role(kind: Kind) -> Role
    ensures { result ≡ plain.counting_role kind }
{
    match kind {
        Kind::Full => Role::Full,
        Kind::Compressed => Role::Counted,
        Kind::Listed => Role::Counted,
        Kind::Slot => Role::Counted,
    }
}

/// A level in the loop that counts.
fn counted_level(level: PartLevel, first: u32, register: u32) -> BuildLevel
    ensures { level_tree result ≡ plain.counted_level level first register }
{
    BuildLevel {
        role: counting_role(level.kind),
        is_top: false,
        first,
        size: dim_term(level.size),
        coord: Term::Reg(register),
        pos_length: Dim::Number(0),
        crd_length: Dim::Number(0),
    }
}

/// The levels in the loop that counts. It fails only for want of memory.
pub fn counted_levels(
    alloc: Global,
    levels: &[PartLevel],
    first: u32,
    register: u32,
) -> Result<Vec<BuildLevel>, AllocError>
    requires first { first + 4 * length levels.now < 2 ^ 32 }
    requires register { register + length levels.now < 2 ^ 32 }
    ensures trees { IfOk result (λ v. level_trees v.items ≡ plain.counted_levels levels.now first register) }
    ensures names { IfOk result (λ v. HaveNames v.items) }
    ensures number { IfOk result (λ v. length v.items ≡ length levels.now) }
{
    match levels {
        [] => Ok(Vec::new(alloc)),
        [level, rest @ ..] => {
            let below = counted_levels(alloc, rest, first + 4, register + 1)?;
            in_front(alloc, counted_level(*level, first, register), below)
        }
    }
}

/// The dim that is one more than the positions above, if a level has need of it.
fn start_line(alloc: Global, at: Descent) -> Result<DimLines, AllocError>
    ensures { IfOk result (λ ls. map line_tree ls ≡ plain.start_line at.is_top at []) }
{
    let mut lines = Items::new(alloc);
    if !at.is_top {
        lines.push(DimLine::Next {
            dim: at.dims,
            of: at.above,
        })?;
    }
    Ok(lines)
}

/// The dims of a level whose nodes were counted.
fn group_lines(alloc: Global, at: Descent) -> Result<DimLines, AllocError>
    requires dims { at.dims + 1 < 2 ^ 32 }
    requires first { at.first + 1 < 2 ^ 32 }
    ensures { IfOk result (λ ls. map line_tree ls ≡ plain.group_lines at []) }
{
    let mut lines = start_line(alloc, at)?;
    lines.push(DimLine::Of {
        dim: at.dims + 1,
        value: add(alloc, Term::Reg(at.first + 1), Term::Number(1))?,
    })?;
    Ok(lines)
}

/// The dims of a level.
fn level_lines(
    alloc: Global,
    level: PartLevel,
    last: bool,
    at: Descent,
) -> Result<DimLines, AllocError>
    requires dims { at.dims + 1 < 2 ^ 32 }
    requires first { at.first + 1 < 2 ^ 32 }
    ensures { IfOk result (λ ls. map line_tree ls ≡ plain.level_lines level.kind last level.size at []) }
{
    match level.kind {
        Kind::Full => {
            let mut lines = Items::new(alloc);
            lines.push(DimLine::Product {
                dim: at.dims + 1,
                left: at.above,
                right: level.size,
            })?;
            Ok(lines)
        }
        Kind::Compressed => {
            if last {
                start_line(alloc, at)
            } else {
                group_lines(alloc, at)
            }
        }
        Kind::Listed => start_line(alloc, at),
        Kind::Slot => Ok(Items::new(alloc)),
    }
}

/// The dims of the levels, the outermost level first. It fails only for want of memory.
pub fn dim_lines(
    alloc: Global,
    count: u32,
    levels: &[PartLevel],
    at: Descent,
) -> Result<DimLines, AllocError>
    requires dims { at.dims + 2 * length levels.now < 2 ^ 32 }
    requires first { at.first + 4 * length levels.now < 2 ^ 32 }
    requires register { at.register + length levels.now < 2 ^ 32 }
    ensures { IfOk result (λ ls. map line_tree ls ≡ plain.dim_lines count levels.now at) }
{
    match levels {
        [] => Ok(Items::new(alloc)),
        [level, rest @ ..] => {
            let last = are_last(rest);
            let mut lines = level_lines(alloc, *level, last, at)?;
            let others = dim_lines(alloc, count, rest, deeper(count, *level, last, at))?;
            lines.append(others)?;
            Ok(lines)
        }
    }
}
