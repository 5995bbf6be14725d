// A matrix with a cell at each coordinate.
ghost use Rattle.std.specs.Prelude.{◌≡◌, ◌<◌, ◌*◌, length};
ghost use Rattle.us_matrix.specs.Grid.{cell_at};

use std::marker::Model;

/// Rows, columns, and the cells column after column.
#[derive(Drop)]
pub struct Dense {
    rows: u32,
    cols: u32,
    cells: Vec<i64>,
}

impl Model for Dense {
    ghost use Rattle.std.specs.Prelude.{◌≡◌, ◌*◌, length};
    ghost use Rattle.us_matrix.specs.Grid.{Grid};

    ghost Value = { Grid };

    ghost view = { λ d. record { rows = d.rows; cols = d.cols; cells = d.cells.items } };

    ghost invariant = { λ d. length d.cells.items ≡ d.rows * d.cols };
}

impl Dense {
    /// The matrix of these cells, column after column.
    pub fn new(rows: u32, cols: u32, cells: Vec<i64>) -> Dense
        requires { length cells.items ≡ rows * cols }
        ensures { result ≡ record { rows = rows; cols = cols; cells = cells.items } }
    {
        Dense { rows, cols, cells }
    }

    /// How many rows there are.
    pub fn rows(&self) -> u32
        ensures { result ≡ self.now.rows }
    {
        self.rows
    }

    /// How many columns there are.
    pub fn cols(&self) -> u32
        ensures { result ≡ self.now.cols }
    {
        self.cols
    }

    /// The cell at a row and a column, both numbered from 0.
    #[tactic(auto, using(crate::proofs::GridLemmas::in_columns))]
    pub fn at(&self, i: u32, k: u32) -> i64
        requires row { i < self.now.rows }
        requires col { k < self.now.cols }
        ensures { result ≡ cell_at self.now i k }
    {
        self.cells[k as usize * self.rows as usize + i as usize]
    }

    /// The cells, column after column.
    pub fn cells(&self) -> &[i64]
        ensures value { result.now ≡ self.now.cells }
        ensures count { length self.now.cells ≡ self.now.rows * self.now.cols }
    {
        &self.cells
    }
}
