//! How the loop takes the levels of a part with packs, and its packs.

ghost use Rattle.std.specs.Prelude.{◌≡◌, ◌+◌, ◌*◌, ◌<◌, ◌≤◌, ◌^◌, length, IfOk, [], ◌∷◌, map};
ghost use Rattle.us_code.specs.Plain.{line_tree};
ghost use Rattle.us_gen_build.specs.Levels.{level_tree, level_trees, HaveNames};
ghost use Rattle.us_gen_packs.specs.Packs.{pack_tree, pack_trees, trees, HavePlaces};
ghost use Rattle.us_gen_pack_building.specs.Levels as plain;

use crate::part::PackRun;
use sqlite_items::Items;
use std::alloc::{AllocError, Global};
use us_code::{DimLines, Numbers, Term};
use us_format::Kind;
use us_gen_build::{BuildLevel, Role};
use us_gen_building::{Descent, PartLevel, are_last, built_level, built_values, deeper, in_front};
use us_gen_packs::{PackWriter, Terms, pack_line};

/// Whether a pack has a column.
fn has(run: PackRun, column: u32) -> bool
    ensures { result ≡ plain.has run column }
{
    run.first <= column && column < run.end
}

/// Whether a column is in one of the packs.
fn is_packed(packs: &[PackRun], column: u32) -> bool
    ensures { result ≡ plain.is_packed packs.now column }
{
    match packs {
        [] => false,
        [run, rest @ ..] => has(*run, column) || is_packed(rest, column),
    }
}

/// The role of a level in the loop, which leaves the coordinates out where they are in a pack.
fn packed_role(packed: bool, kind: Kind, last: bool, role: Role) -> Role
    ensures { result ≡ plain.packed_role packed kind last role }
{
    if packed {
        match kind {
            Kind::Full => role,
            Kind::Compressed => { if last { Role::Marked } else { role } }
            Kind::Listed => Role::Marked,
            Kind::Slot => Role::Kept,
        }
    } else {
        role
    }
}

/// A level of the loop in another role.
fn in_role(level: BuildLevel, role: Role) -> BuildLevel
    ensures { level_tree result ≡ plain.in_role role (level_tree level) }
{
    BuildLevel {
        role,
        is_top: level.is_top,
        first: level.first,
        size: level.size,
        coord: level.coord,
        pos_length: level.pos_length,
        crd_length: level.crd_length,
    }
}

/// A level in the loop.
fn packed_level(count: u32, packed: bool, level: PartLevel, last: bool, at: Descent) -> BuildLevel
    requires { at.dims + 2 < 2 ^ 32 }
    ensures { level_tree result ≡ plain.packed_level count packed level last at }
{
    let built = built_level(count, level, last, at);
    let role = packed_role(packed, level.kind, last, built.role);
    in_role(built, role)
}

/// The values in the loop, unless they are in a pack.
fn value_levels(alloc: Global, packed: bool, at: Descent) -> Result<Vec<BuildLevel>, AllocError>
    requires { at.first + 4 < 2 ^ 32 }
    ensures trees { IfOk result (λ v. level_trees v.items ≡ plain.value_levels packed at) }
    ensures names { IfOk result (λ v. HaveNames v.items) }
    ensures number { IfOk result (λ v. length v.items ≤ 1) }
{
    if packed {
        Ok(Vec::new(alloc))
    } else {
        in_front(alloc, built_values(at), Vec::new(alloc))
    }
}

/// The levels in the loop, numbered from `number` on, and the values behind them unless they are in a pack. It fails only for
/// want of memory.
pub fn packed_levels(
    alloc: Global,
    count: u32,
    packs: &[PackRun],
    number: u32,
    levels: &[PartLevel],
    at: Descent,
) -> Result<Vec<BuildLevel>, AllocError>
    requires number { number + length levels.now < 2 ^ 32 }
    requires dims { at.dims + 2 * length levels.now + 2 < 2 ^ 32 }
    requires first { at.first + 4 * length levels.now + 4 < 2 ^ 32 }
    requires register { at.register + length levels.now + 1 < 2 ^ 32 }
    ensures trees { IfOk result (λ v. level_trees v.items ≡ plain.packed_levels count packs.now number levels.now at) }
    ensures names { IfOk result (λ v. HaveNames v.items) }
    ensures number { IfOk result (λ v. length v.items ≤ length levels.now + 1) }
{
    match levels {
        [] => value_levels(alloc, is_packed(packs, number), at),
        [level, rest @ ..] => {
            let last = are_last(rest);
            let below = deeper(count, *level, last, at);
            let others = packed_levels(alloc, count, packs, number + 1, rest, below)?;
            let packed = is_packed(packs, number);
            in_front(alloc, packed_level(count, packed, *level, last, at), others)
        }
    }
}

/// Below all levels.
pub fn bottom(count: u32, levels: &[PartLevel], at: Descent) -> Descent
    requires dims { at.dims + 2 * length levels.now + 2 < 2 ^ 32 }
    requires first { at.first + 4 * length levels.now + 4 < 2 ^ 32 }
    requires register { at.register + length levels.now + 1 < 2 ^ 32 }
    ensures { result ≡ plain.bottom count levels.now at }
{
    match levels {
        [] => at,
        [level, rest @ ..] => bottom(count, rest, deeper(count, *level, are_last(rest), at)),
    }
}

/// The numbers in registers from `register` on, of which there are so many.
fn column_terms(alloc: Global, register: u32, number: u32) -> Result<Terms, AllocError>
    requires { register + number < 2 ^ 32 }
    ensures terms { IfOk result (λ es. trees es ≡ plain.column_terms register number) }
    ensures number { IfOk result (λ es. length es ≡ number) }
{
    match number {
        0 => Ok(Items::new(alloc)),
        n => {
            let mut terms = Items::new(alloc);
            terms.push(Term::Reg(register))?;
            terms.append(column_terms(alloc, register + 1, n - 1)?)?;
            Ok(terms)
        }
    }
}

/// A pack in the loop: its buffer, its register and its dim have one number, and the columns stand in registers from
/// `register` on.
fn writer(
    alloc: Global,
    run: PackRun,
    name: u32,
    register: u32,
    at: Descent,
) -> Result<PackWriter, AllocError>
    requires order { run.first < run.end }
    requires registers { register + run.end < 2 ^ 32 }
    ensures tree { IfOk result (λ w. pack_tree w ≡ plain.writer run name register at) }
    ensures name { IfOk result (λ w. w.first ≡ name) }
    ensures number { IfOk result (λ w. length w.columns < 2 ^ 32) }
{
    let columns = column_terms(alloc, register + run.first, run.end - run.first)?;
    Ok(PackWriter {
        first: name,
        cells: name,
        length: at.above,
        at_rank: at.is_rank,
        columns,
    })
}

/// The packs in the loop, with numbers from `name` on. It fails only for want of memory.
pub fn writers(
    alloc: Global,
    packs: &[PackRun],
    name: u32,
    register: u32,
    end: u32,
    at: Descent,
) -> Result<Vec<PackWriter>, AllocError>
    requires runs { plain.FitRuns end packs.now }
    requires names { name + length packs.now < 2 ^ 32 }
    requires registers { register + end < 2 ^ 32 }
    ensures trees { IfOk result (λ v. pack_trees v.items ≡ plain.writers packs.now name register at) }
    ensures places { IfOk result (λ v. HavePlaces v.items) }
{
    match packs {
        [] => Ok(Vec::new(alloc)),
        [run, rest @ ..] => {
            let mut made = Vec::new(alloc);
            made.push(writer(alloc, *run, name, register, at)?)?;
            let mut others = writers(alloc, rest, name + 1, register, end, at)?;
            made.append(&mut others)?;
            Ok(made)
        }
    }
}

/// The dims of the packs' cells. It fails only for want of memory.
pub fn pack_lines(alloc: Global, packs: &[PackWriter]) -> Result<DimLines, AllocError>
    requires { HavePlaces packs.now }
    ensures { IfOk result (λ ls. map line_tree ls ≡ plain.pack_lines (pack_trees packs.now)) }
{
    match packs {
        [] => Ok(Items::new(alloc)),
        [pack, rest @ ..] => {
            let mut lines = Items::new(alloc);
            lines.push(pack_line(pack))?;
            lines.append(pack_lines(alloc, rest)?)?;
            Ok(lines)
        }
    }
}

/// The buffers of the packs. It fails only for want of memory.
pub fn pack_buffers(alloc: Global, packs: &[PackWriter]) -> Result<Numbers, AllocError>
    ensures { IfOk result (λ bs. bs ≡ plain.pack_buffers (pack_trees packs.now)) }
{
    match packs {
        [] => Ok(Items::new(alloc)),
        [pack, rest @ ..] => {
            let mut buffers = Items::new(alloc);
            buffers.push(pack.first)?;
            buffers.append(pack_buffers(alloc, rest)?)?;
            Ok(buffers)
        }
    }
}
