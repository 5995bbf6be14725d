//! The variables of a part at the entries of its matrix.
ghost use Rattle.std.specs.Prelude.{◌≡◌, ◌<◌, ◌≤◌, All, IfOk, length, map};
ghost use Rattle.us_format.specs.Declaration.{query_of};
ghost use Rattle.us_format.specs.Lists.{nth};
ghost use Rattle.us_format.specs.Program.{entries_in, shape_in};
ghost use Rattle.us_variables.specs.Counted.{AreVariables, IsCountable, tables_in, value_in, values_in};

use crate::columns::{Column, value_in};
use crate::queries::{Counted, count};
use crate::tables::{Table, cells};
use arrayvec::ArrayVec;
use std::alloc::{AllocError, Global};
use us_expr::Query;
use us_matrix::Matrix;

/// The values of the variables of a part at each of its entries, and the extents and the tables of its queries.
#[derive(Drop)]
pub struct Variables {
    names: usize,
    columns: Vec<Column>,
    extents: Vec<u64>,
    tables: Vec<Table>,
}

impl Variables {
    /// Counts the queries of a part with so many names on the matrix of its entries. The arguments of sums and
    /// enumerations are valid and have no variables; the axis of an order or a schedule has at most 67108864 indices.
    /// Fails only where memory is wanting.
    pub fn new(
        alloc: Global,
        matrix: &Matrix,
        queries: &[Query],
        names: usize,
    ) -> Result<Variables, AllocError>
        requires few { length matrix.now.entries ≤ 67108864 }
        requires countable { All (λ q. IsCountable (shape_in matrix.now) (query_of q)) queries.now }
        ensures { IfOk result (AreVariables (entries_in matrix.now) (shape_in matrix.now) (map query_of queries.now) names) }
    {
        let mut columns = Vec::new(alloc);
        let mut extents = Vec::new(alloc);
        let mut tables = Vec::new(alloc);
        for query in queries {
            let Counted { extent, table } = count(alloc, matrix, query, &mut columns)?;
            extents.push(extent)?;
            tables.push(table)?;
        }
        Ok(Variables {
            names,
            columns,
            extents,
            tables,
        })
    }

    /// The extent of each query, 0 of one that has none.
    pub fn extents(&self) -> &[u64]
        ensures { result.now ≡ self.now.extents.items }
    {
        &self.extents
    }

    /// The value of a variable at the entry with this number.
    pub fn value(&self, var: u32, entry: usize) -> i64
        ensures { result ≡ value_in self.now var entry }
    {
        value_in(&self.columns, var, entry)
    }

    /// The values of all variables at the entry with this number.
    pub fn values(&self, entry: usize) -> ArrayVec<i64, 32>
        requires { self.now.names ≤ 32 }
        ensures { result.items ≡ values_in self.now entry }
    {
        let mut values = ArrayVec::new();
        for var in 0..self.names {
            values.push(value_in(&self.columns, var as u32, entry));
        }
        values
    }

    /// The cells of the table of a query, none where it has no table. Fails only where memory is wanting.
    pub fn table(&self, alloc: Global, query: usize) -> Result<Vec<i64>, AllocError>
        requires inside { query < length (tables_in self.now) }
        requires few { length (nth (tables_in self.now) query) ≤ 67108864 }
        ensures { IfOk result (λ v. v.items ≡ nth (tables_in self.now) query) }
    {
        cells(alloc, &self.tables[query])
    }
}
