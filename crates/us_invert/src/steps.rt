//! What gives a value: over the nodes of a table, and over the steps of a plan.

/// What gives a step of a recovery its value. Operands are the numbers of earlier steps.
#[derive(Clone, Copy, Debug, PartialEq, Eq)]
pub enum PlanStep {
    /// A constant.
    Const {
        value: u32,
    },
    /// The coordinate of a level plus the low end of its range.
    Level {
        level: u32,
    },
    /// The sum of two values.
    Add {
        a: u32,
        b: u32,
    },
    /// The difference of two values.
    Sub {
        a: u32,
        b: u32,
    },
    /// The quotient times `k`, plus the remainder.
    Join {
        quotient: u32,
        remainder: u32,
        k: u32,
    },
    /// The floor quotient by `k`.
    Div {
        a: u32,
        k: u32,
    },
    /// The remainder by `k`.
    Rem {
        a: u32,
        k: u32,
    },
    /// The index at a rank, in the table of a query.
    Order {
        query: u32,
        rank: u32,
    },
    /// The index at a lane and a slot, in the table of a query.
    Rows {
        query: u32,
        lane: u32,
        slot: u32,
    },
}

/// What gives a node its value. Operands are numbers of nodes.
#[derive(Clone, Copy, Debug, PartialEq, Eq)]
pub enum Source {
    Constant(u32),
    Level(u32),
    Total(usize, usize),
    Less(usize, usize),
    Joined(usize, usize, u32),
    Over(usize, u32),
    Rest(usize, u32),
    Order(u32, usize),
    Rows(u32, usize, usize),
}

/// The ways in which a node gives the value of another, in the order in which they are tried.
#[derive(Clone, Copy, Debug, PartialEq, Eq)]
pub enum Way {
    Sum,
    Difference,
    Quotient,
    Reorder,
    Schedule,
}
