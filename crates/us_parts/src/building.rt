//! The size and the buffers of a part.
ghost use Rattle.std.specs.Prelude.{◌≡◌, ◌+◌, ◌-◌, ◌<◌, ◌≤◌, ◌^◌, ◌++◌, All, IfOk, IsErrOf, OnOk, length, map, min};
ghost use Rattle.us_format.specs.Buffers.{level_buffers, part_buffers};
ghost use Rattle.us_format.specs.Declaration.{query_of};
ghost use Rattle.us_format.specs.Laws.{unpacked_size};
ghost use Rattle.us_format.specs.Packs.{packed, written};
ghost use Rattle.us_format.specs.Program.{entries_in, shape_in};
ghost use Rattle.us_format.specs.Reading.{limit};
ghost use Rattle.us_judge.specs.Kinds.{kinds_of};
ghost use Rattle.us_judge.specs.Views.{plain_part};
ghost use Rattle.us_variables.specs.Counted.{AreVariables, IsCountable, tables_in};
ghost use Rattle.us_build.specs.declared.fault.BuildFault.TheVariants.{TooLarge};
ghost use Rattle.us_build.specs.Items.{rows_at, rows_first};
ghost use Rattle.us_build.specs.Ready.{AreReady, size_from};
ghost use Rattle.us_build.specs.Sizes.{plain_levels};
ghost use Rattle.us_parts.specs.Cells.{extent_lists, table_lists};
ghost use Rattle.us_parts.specs.Storable.{AreStored, IsStorable};

use crate::queries::{has_some_long_axis, push_extents, push_tables, queries_cells};
use std::alloc::{AllocError, Global};
use us_build::{BuildFault, Item, LIMIT, Level, Rows, measure, size_of_pieces, write};
use us_decl::Part;
use us_expr::Query;
use us_format::Kind;
use us_layout::arrange;
use us_matrix::{Buffers, Matrix};
use us_variables::Variables;

/// The variables of a part on its entries. Fails only where memory is wanting.
pub fn variables_of(alloc: Global, part: &Part, matrix: &Matrix) -> Result<Variables, AllocError>
    requires countable { All (λ q. IsCountable (shape_in matrix.now) (query_of q)) part.now.queries }
    requires few { length matrix.now.entries ≤ limit }
    ensures { IfOk result (AreVariables (entries_in matrix.now) (shape_in matrix.now) (map query_of part.now.queries) (length part.now.names)) }
{
    Variables::new(alloc, matrix, part.queries.as_slice(), part.names.len())
}

/// The size of a part on its entries: the lengths of all its buffers and the numbers of positions after each level, added
/// up; 67108865 where it is above the limit of 67108864. No buffer is written.
pub fn size_of_part(
    alloc: Global,
    part: &Part,
    kinds: &[Kind],
    matrix: &Matrix,
) -> Result<u64, AllocError>
    requires kinds { kinds.now ≡ kinds_of (plain_part part.now) }
    requires storable { IsStorable (plain_part part.now) }
    requires few { length matrix.now.entries ≤ limit }
    ensures { IfOk result (λ n. n ≡ min (unpacked_size (shape_in matrix.now) (plain_part part.now) (entries_in matrix.now)) (limit + 1)) }
{
    let queries = part.queries.as_slice();
    let levels = part.levels.as_slice();
    let shape = matrix.shape();
    let entries = matrix.entries();
    if has_some_long_axis(queries, shape) {
        return Ok(LIMIT + 1);
    }
    let variables = variables_of(alloc, part, matrix)?;
    let cells = queries_cells(queries, variables.extents(), shape);
    let pieces = size_of_pieces(alloc, levels, kinds, queries, &variables, shape, entries)?;
    Ok((cells + pieces).min(LIMIT + 1))
}

/// Adds the extents of a part's queries, and then their tables.
fn push_queries(
    alloc: Global,
    lists: &mut Buffers,
    queries: &[Query],
    variables: &Variables,
) -> Result<(), AllocError>
    requires extents { length variables.now.extents.items ≡ length queries.now }
    requires small { All (λ n. n ≤ limit) variables.now.extents.items }
    requires tables { length (tables_in variables.now) ≡ length queries.now }
    requires short { All (λ cells. length cells ≤ limit) (tables_in variables.now) }
    ensures { OnOk result (let qs = map query_of queries.now in
        lists.new ≡ lists.old ++ extent_lists qs variables.now.extents.items ++ table_lists qs (tables_in variables.now)) }
{
    push_extents(alloc, lists, queries, variables.extents())?;
    push_tables(alloc, lists, queries, variables)?;
    Ok(())
}

/// Adds copies of lists.
fn append(alloc: Global, lists: &mut Buffers, more: &Buffers) -> Result<(), AllocError>
    ensures { OnOk result (lists.new ≡ lists.old ++ more.now) }
{
    for k in 0..more.count() {
        lists.push(Vec::from_slice(alloc, more.list(k))?)?;
    }
    Ok(())
}

/// Adds the buffers of the levels, the values and the packs of a part, whose items are above the first level.
fn push_stored(
    alloc: Global,
    lists: &mut Buffers,
    part: &Part,
    kinds: &[Kind],
    items: &mut [Item],
    levels: &[Level],
) -> Result<(), AllocError>
    requires kinds { kinds.now ≡ kinds_of (plain_part part.now) }
    requires levels { length levels.now ≤ 6 }
    requires sizes { All (λ l. l.size < 2 ^ 38) levels.now }
    requires few { length items.old ≤ limit }
    requires ready { AreReady (plain_levels levels.now) 1 (rows_at (6 - length levels.now) items.old) }
    requires small { size_from (plain_levels levels.now) 1 (rows_at (6 - length levels.now) items.old) ≤ limit }
    requires stored { AreStored (plain_part part.now) (level_buffers (plain_levels levels.now) 1 (rows_at (6 - length levels.now) items.old)) }
    ensures { OnOk result (let pieces = level_buffers (plain_levels levels.now) 1 (rows_at (6 - length levels.now) items.old) in
        lists.new ≡ lists.old ++ map written (packed (plain_part part.now) pieces)) }
{
    if part.packs.is_empty() {
        return write(alloc, lists, items, levels);
    }
    let mut pieces = Buffers::new(alloc);
    write(alloc, &mut pieces, items, levels)?;
    let arranged = arrange(alloc, part, kinds, &pieces)?;
    append(alloc, lists, &arranged)
}

/// Adds the buffers of a part whose items are above the first level, and answers the size so far. So much is used before,
/// with the cells of the part's queries; nothing is added where the size so far is above the limit.
fn build_rows(
    alloc: Global,
    lists: &mut Buffers,
    part: &Part,
    kinds: &[Kind],
    variables: &Variables,
    used: u64,
    items: &mut [Item],
    levels: &[Level],
) -> Result<u64, BuildFault>
    requires kinds { kinds.now ≡ kinds_of (plain_part part.now) }
    requires extents { length variables.now.extents.items ≡ length part.now.queries }
    requires narrow { All (λ n. n ≤ limit) variables.now.extents.items }
    requires tables { length (tables_in variables.now) ≡ length part.now.queries }
    requires short { All (λ cells. length cells ≤ limit) (tables_in variables.now) }
    requires used { used ≤ limit }
    requires levels { length levels.now ≤ 6 }
    requires sizes { All (λ l. l.size < 2 ^ 38) levels.now }
    requires few { length items.old ≤ limit }
    requires ready { AreReady (plain_levels levels.now) 1 (rows_at (6 - length levels.now) items.old) }
    requires unmoved { rows_at (6 - length levels.now) items.old ≡ rows_first (6 - length levels.now) items.old }
    requires stored { AreStored (plain_part part.now) (level_buffers (plain_levels levels.now) 1 (rows_at (6 - length levels.now) items.old)) }
    ensures built { OnOk result (let qs = map query_of part.now.queries in
        lists.new ≡ lists.old ++ extent_lists qs variables.now.extents.items ++ table_lists qs (tables_in variables.now)
        ++ map written (packed (plain_part part.now) (level_buffers (plain_levels levels.now) 1 (rows_at (6 - length levels.now) items.old)))) }
    ensures used { IfOk result (λ n. n ≡ used + size_from (plain_levels levels.now) 1 (rows_at (6 - length levels.now) items.old)) }
    ensures small { IfOk result (λ n. n ≤ limit) }
    ensures large { IsErrOf result TooLarge → limit < used + size_from (plain_levels levels.now) 1 (rows_at (6 - length levels.now) items.old) }
{
    let size = used + measure(items, levels);
    if size > LIMIT {
        return Err(BuildFault::TooLarge);
    }
    push_queries(alloc, lists, part.queries.as_slice(), variables)?;
    push_stored(alloc, lists, part, kinds, items, levels)?;
    Ok(size)
}

/// Adds the buffers of a part on its entries behind those of the parts before it, which have the size `used`, and answers
/// the size of all of them. They are too large exactly where this is above the limit of 67108864; the part is measured
/// before any of its buffers is added.
pub fn build_part(
    alloc: Global,
    lists: &mut Buffers,
    part: &Part,
    kinds: &[Kind],
    matrix: &Matrix,
    used: u64,
) -> Result<u64, BuildFault>
    requires kinds { kinds.now ≡ kinds_of (plain_part part.now) }
    requires storable { IsStorable (plain_part part.now) }
    requires few { length matrix.now.entries ≤ limit }
    requires used { used ≤ limit }
    ensures built { OnOk result (lists.new ≡ lists.old ++ map written (part_buffers (shape_in matrix.now) (plain_part part.now) (entries_in matrix.now))) }
    ensures used { IfOk result (λ n. n ≡ used + unpacked_size (shape_in matrix.now) (plain_part part.now) (entries_in matrix.now)) }
    ensures small { IfOk result (λ n. n ≤ limit) }
    ensures large { IsErrOf result TooLarge → limit < used + unpacked_size (shape_in matrix.now) (plain_part part.now) (entries_in matrix.now) }
{
    let queries = part.queries.as_slice();
    let levels = part.levels.as_slice();
    let shape = matrix.shape();
    let entries = matrix.entries();
    if has_some_long_axis(queries, shape) {
        return Err(BuildFault::TooLarge);
    }
    let variables = variables_of(alloc, part, matrix)?;
    let cells = queries_cells(queries, variables.extents(), shape);
    let taken = used + cells;
    if taken > LIMIT {
        return Err(BuildFault::TooLarge);
    }
    let Rows {
        levels: made,
        mut items,
    } = Rows::new(alloc, levels, kinds, queries, &variables, shape, entries)?;
    build_rows(
        alloc, lists, part, kinds, &variables, taken, &mut items, &made,
    )
}
