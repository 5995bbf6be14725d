// The tables of queries.
ghost use Rattle.std.specs.Prelude.{◌≡◌, ◌<◌, ◌≤◌, All, IfOk, length, map, pos};
ghost use Rattle.std.proofs.Common.{replicate};
ghost use Rattle.us_variables.specs.declared.tables.Table.TheVariants.{Scheduled};
ghost use Rattle.us_variables.specs.Tables.{IsInverse, cells_of};

use std::alloc::{AllocError, Global};
use us_query::LaneTable;

// The table of a query.
#[derive(Drop)]
pub enum Table {
    Absent,
    Order(Vec<u32>),
    Scheduled(LaneTable),
}

// The numbers as cells.
fn signed(alloc: Global, numbers: &[u32]) -> Result<Vec<i64>, AllocError>
    ensures { IfOk result (λ v. v.items ≡ map pos numbers.now) }
{
    let mut cells = Vec::with_capacity(alloc, numbers.len())?;
    for n in numbers {
        cells.push(i64::from(*n))?;
    }
    Ok(cells)
}

// The cells of the lanes.
fn lane_cells(alloc: Global, table: &LaneTable) -> Result<Vec<i64>, AllocError>
    requires { length (cells_of (Scheduled table.now)) ≤ 67108864 }
    ensures { IfOk result (λ v. v.items ≡ cells_of (Scheduled table.now)) }
{
    let rows = table.rows(alloc)?;
    signed(alloc, &rows)
}

/// The cells of a table.
pub fn cells(alloc: Global, table: &Table) -> Result<Vec<i64>, AllocError>
    requires { length (cells_of table.now) ≤ 67108864 }
    ensures { IfOk result (λ v. v.items ≡ cells_of table.now) }
{
    match table {
        Table::Absent => Ok(Vec::new(alloc)),
        Table::Order(numbers) => signed(alloc, numbers),
        Table::Scheduled(table) => lane_cells(alloc, table),
    }
}

// So many zeros.
fn zeros(alloc: Global, count: usize) -> Result<Vec<u32>, AllocError>
    ensures { IfOk result (λ v. v.items ≡ replicate count 0) }
{
    vec![in alloc; 0u32; count]
}

/// The place of each number in a list of the numbers below its length, each of which stands there once.
pub fn inverse(alloc: Global, order: &[u32]) -> Result<Vec<u32>, AllocError>
    requires below { All (λ a. a < length order.now) order.now }
    requires few { length order.now ≤ 67108864 }
    ensures { IfOk result (λ ns. IsInverse order.now (length order.now) ns.items) }
{
    let mut places = zeros(alloc, order.len())?;
    for (place, number) in order.iter().enumerate() {
        places[*number as usize] = place as u32;
    }
    Ok(places)
}
