// How many rows and columns a matrix has.
ghost use Rattle.std.specs.Prelude.{◌≡◌, ◌↔◌, IfSome, IsSome};
ghost use Rattle.us_matrix.specs.Map.{IsSide};

/// The most rows, and the most columns, of a matrix: 2^31 - 1.
pub const LONGEST_SIDE: u32 = 2147483647;

/// The rows and columns of a matrix, 1 to 2147483647 each where a call takes or answers one.
#[derive(Clone, Copy, Debug, PartialEq, Eq)]
pub struct Shape {
    pub rows: u32,
    pub cols: u32,
}

impl Shape {
    /// The shape with these sides, or none where one of them is 0 or above 2147483647.
    pub fn new(rows: u32, cols: u32) -> Option<Shape>
        ensures range { IsSome result ↔ (IsSide rows × IsSide cols) }
        ensures value { IfSome result (λ shape. (shape.rows ≡ rows) × (shape.cols ≡ cols)) }
    {
        if rows == 0 || cols == 0 || rows > LONGEST_SIDE || cols > LONGEST_SIDE {
            return None;
        }
        Some(Shape { rows, cols })
    }
}
