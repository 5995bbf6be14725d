//! The variables of queries and expressions.
ghost use Rattle.std.specs.Prelude.{◌≡◌, [], ◌∷◌, map};
ghost use Rattle.std.specs.List.{list_any, list_all};
ghost use Rattle.us_expr.specs.Tree.{tree};
ghost use Rattle.us_format.specs.Lists.{among};
ghost use Rattle.us_format.specs.Declaration.{query_of, defines};
ghost use Rattle.us_format.specs.Rules.{has_variable, is_index, has_lawful_argument};
ghost use Rattle.us_judge.specs.Acceptance.{variables, is_variable, uses_only};
ghost use Rattle.us_judge.specs.Variables.{members, allows, is_lawful_level};

use us_expr::{Expr, Query};

/// A class of variables.
#[derive(Clone, Copy, Debug, PartialEq, Eq)]
pub enum Class {
    /// All that a query defines.
    Defined,
    /// Those that are sums.
    Sums,
    /// Those that count up: of an enumerate, and the slots of a schedule.
    Counters,
}

/// Whether a query defines a variable.
pub fn defines(query: &Query, v: u32) -> bool
    ensures { result ≡ among v (defines (query_of query.now)) }
{
    match query {
        Query::Sum { var, .. } | Query::Enumerate { var, .. } | Query::Reorder { var, .. } => {
            v == *var
        }
        Query::Schedule { lane, slot, .. } => v == *lane || v == *slot,
    }
}

fn is_sum(query: &Query, v: u32) -> bool
    ensures { result ≡ among v (members Class.Sums (query_of query.now ∷ [])) }
{
    match query {
        Query::Sum { var, .. } => v == *var,
        _ => false,
    }
}

fn is_counter(query: &Query, v: u32) -> bool
    ensures { result ≡ among v (members Class.Counters (query_of query.now ∷ [])) }
{
    match query {
        Query::Enumerate { var, .. } => v == *var,
        Query::Schedule { slot, .. } => v == *slot,
        _ => false,
    }
}

/// Whether a query defines a variable as one of a class.
fn defines_as(query: &Query, class: Class, v: u32) -> bool
    ensures { result ≡ among v (members class (query_of query.now ∷ [])) }
{
    match class {
        Class::Defined => defines(query, v),
        Class::Sums => is_sum(query, v),
        Class::Counters => is_counter(query, v),
    }
}

fn some_defines(queries: &[Query], class: Class, v: u32) -> bool
    ensures { result ≡ list_any (λ q. among v (members class (query_of q ∷ []))) queries.now }
{
    queries.iter().any(|query| defines_as(query, class, v))
}

/// Whether some query defines a variable as one of a class.
pub fn is_member(queries: &[Query], class: Class, v: u32) -> bool
    ensures { result ≡ among v (members class (map query_of queries.now)) }
{
    some_defines(queries, class, v)
}

/// Whether an expression may use a variable: one that is defined, or none of the class.
fn allows(queries: &[Query], class: Class, v: u32) -> bool
    ensures { result ≡ allows class (map query_of queries.now) v }
{
    match class {
        Class::Defined => is_member(queries, Class::Defined, v),
        Class::Sums => !is_member(queries, Class::Sums, v),
        Class::Counters => !is_member(queries, Class::Counters, v),
    }
}

/// Whether an expression may use all variables that stand in it.
pub fn allows_all(queries: &[Query], class: Class, e: &Expr) -> bool
    ensures { result ≡ list_all (allows class (map query_of queries.now)) (variables (tree e.now)) }
{
    match e {
        Expr::I | Expr::J | Expr::Const(_) => true,
        Expr::Var(v) => allows(queries, class, *v),
        Expr::Add(a, b) | Expr::Sub(a, b) => {
            allows_all(queries, class, a.get()) && allows_all(queries, class, b.get())
        }
        Expr::Div(a, _) | Expr::Rem(a, _) => allows_all(queries, class, a.get()),
    }
}

fn is_variable(e: &Expr) -> bool
    ensures { result ≡ is_variable (tree e.now) }
{
    matches!(e, Expr::Var(_))
}

/// Whether an expression may be a level, as to the variables of a class.
pub fn is_lawful_level(queries: &[Query], class: Class, e: &Expr) -> bool
    ensures { result ≡ is_lawful_level class (map query_of queries.now) (tree e.now) }
{
    match class {
        Class::Defined => allows_all(queries, Class::Defined, e),
        Class::Sums => allows_all(queries, Class::Sums, e),
        Class::Counters => is_variable(e) || allows_all(queries, Class::Counters, e),
    }
}

/// Whether a variable stands in an expression.
fn has_variable(e: &Expr) -> bool
    ensures { result ≡ has_variable (tree e.now) }
{
    match e {
        Expr::I | Expr::J | Expr::Const(_) => false,
        Expr::Var(_) => true,
        Expr::Add(a, b) | Expr::Sub(a, b) => has_variable(a.get()) || has_variable(b.get()),
        Expr::Div(a, _) | Expr::Rem(a, _) => has_variable(a.get()),
    }
}

fn is_index(e: &Expr) -> bool
    ensures { result ≡ is_index (tree e.now) }
{
    matches!(e, Expr::I | Expr::J)
}

/// Whether the argument of a query is lawful.
pub fn has_lawful_argument(query: &Query) -> bool
    ensures { result ≡ has_lawful_argument (query_of query.now) }
{
    match query {
        Query::Sum { arg, .. } | Query::Enumerate { arg, .. } => !has_variable(arg),
        Query::Reorder { arg, .. } | Query::Schedule { arg, .. } => is_index(arg),
    }
}
