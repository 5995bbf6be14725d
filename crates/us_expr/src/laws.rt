//! Laws of the definitions, each on a function without code.
ghost use Rattle.us_expr.specs.Laws.{ValueLiesInRange, TreeTellsExpression};

/// The value of an expression lies in its range, where the indices and variables lie in theirs.
pub fn value_lies_in_range()
    ensures { ValueLiesInRange }
{}

/// Two expressions with one tree are one expression.
pub fn tree_tells_expression()
    ensures { TreeTellsExpression }
{}
