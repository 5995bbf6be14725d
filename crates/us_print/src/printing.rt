//! The canonical text of a declaration.

ghost use Rattle.std.specs.Prelude.{◌≡◌, ◌++◌, ◌∷◌, [], OnOk, IfOk, codes, length, map, drop};
ghost use Rattle.std.specs.Fmt.{decimal};
ghost use Rattle.std.specs.List.{join_by, flat_map};
ghost use Rattle.us_expr.specs.Tree.{tree};
ghost use Rattle.us_decl.specs.Declares.{Divided};
ghost use Rattle.us_decl.specs.Views.{query_view, part_view, head_view, body_view, decl_view};
ghost use Rattle.us_print.specs.Canon.{comma, name_text, is_sum, parenthesized, expr_text, asked_text, query_text, column_text, indent, line, numbers_line, queries_lines, pack_text, map_text, storage_lines, part_lines, sign_text, condition_text, opening_line, block_lines, blocks_lines, body_lines, decl_text};

use itoa::Buffer;
use std::alloc::{AllocError, Global};
use us_decl::{Body, Column, Decl, Head, Name, Pack, Part};
use us_expr::{Cond, Expr, Query};

/// The canonical text of a declaration.
pub fn print_decl(alloc: Global, decl: &Decl) -> Result<Vec<u8>, AllocError>
    ensures { IfOk result (λ text. text.items ≡ decl_text (decl_view decl.now)) }
{
    let mut out = Vec::new(alloc);
    out.extend_from_slice(b"format ")?;
    out.extend_from_slice(decl.name.as_str().as_bytes())?;
    out.extend_from_slice(b" {\n")?;
    push_body(&mut out, &decl.body)?;
    out.extend_from_slice(b"}\n")?;
    Ok(out)
}

fn push_number(out: &mut Vec<u8>, n: u32) -> Result<(), AllocError>
    ensures { OnOk result (out.new.items ≡ out.old.items ++ decimal n) }
{
    out.extend_from_slice(Buffer::new().format(n).as_bytes())
}

/// The name with this number.
fn push_name(out: &mut Vec<u8>, names: &[Name], number: u32) -> Result<(), AllocError>
    ensures { OnOk result (out.new.items ≡ out.old.items ++ name_text names.now number) }
{
    match names.get(number as usize) {
        Some(name) => out.extend_from_slice(name.as_str().as_bytes()),
        None => Ok(()),
    }
}

#[cycle(print)]
fn push_expr(out: &mut Vec<u8>, names: &[Name], e: &Expr) -> Result<(), AllocError>
    ensures { OnOk result (out.new.items ≡ out.old.items ++ expr_text names.now (tree e.now)) }
{
    match e {
        Expr::I => out.extend_from_slice(b"i"),
        Expr::J => out.extend_from_slice(b"j"),
        Expr::Const(n) => push_number(out, *n),
        Expr::Var(n) => push_name(out, names, *n),
        Expr::Add(a, b) => {
            push_expr(out, names, a.get())?;
            out.extend_from_slice(b" + ")?;
            push_operand(out, names, b.get())
        }
        Expr::Sub(a, b) => {
            push_expr(out, names, a.get())?;
            out.extend_from_slice(b" - ")?;
            push_operand(out, names, b.get())
        }
        Expr::Div(a, k) => {
            push_operand(out, names, a.get())?;
            out.extend_from_slice(b" / ")?;
            push_number(out, *k)
        }
        Expr::Rem(a, k) => {
            push_operand(out, names, a.get())?;
            out.extend_from_slice(b" % ")?;
            push_number(out, *k)
        }
    }
}

/// In parentheses where it is a sum or a difference.
#[cycle(print)]
fn push_operand(out: &mut Vec<u8>, names: &[Name], e: &Expr) -> Result<(), AllocError>
    ensures { OnOk result (out.new.items ≡ out.old.items ++ parenthesized (is_sum (tree e.now)) (expr_text names.now (tree e.now))) }
{
    if matches!(e, Expr::Add(_, _) | Expr::Sub(_, _)) {
        out.extend_from_slice(b"(")?;
        push_expr(out, names, e)?;
        out.extend_from_slice(b")")
    } else {
        push_expr(out, names, e)
    }
}

/// A query of one variable behind `let`: its name, the word, and the argument.
fn push_asked(
    out: &mut Vec<u8>,
    names: &[Name],
    var: u32,
    word: &[u8],
    arg: &Expr,
) -> Result<(), AllocError>
    ensures { OnOk result (out.new.items ≡ out.old.items ++ asked_text names.now var word.now (tree arg.now)) }
{
    push_name(out, names, var)?;
    out.extend_from_slice(word)?;
    push_expr(out, names, arg)?;
    out.extend_from_slice(b")")
}

fn push_query(out: &mut Vec<u8>, names: &[Name], query: &Query) -> Result<(), AllocError>
    ensures { OnOk result (out.new.items ≡ out.old.items ++ query_text names.now (query_view query.now)) }
{
    out.extend_from_slice(b"let ")?;
    match query {
        Query::Sum { var, arg } => push_asked(out, names, *var, b" = sum(", arg),
        Query::Enumerate { var, arg } => push_asked(out, names, *var, b" = enumerate(", arg),
        Query::Reorder { var, arg } => push_asked(out, names, *var, b" = reorder(", arg),
        Query::Schedule {
            lane,
            slot,
            arg,
            lanes,
        } => {
            push_name(out, names, *lane)?;
            out.extend_from_slice(b", ")?;
            push_asked(out, names, *slot, b" = schedule(", arg)?;
            push_lanes(out, *lanes)
        }
    }
}

fn push_lanes(out: &mut Vec<u8>, lanes: u32) -> Result<(), AllocError>
    ensures { OnOk result (out.new.items ≡ out.old.items ++ (codes " into " ++ decimal lanes)) }
{
    out.extend_from_slice(b" into ")?;
    push_number(out, lanes)
}

/// Two spaces for each open brace.
fn push_indent(out: &mut Vec<u8>, depth: u32) -> Result<(), AllocError>
    ensures { OnOk result (out.new.items ≡ out.old.items ++ indent depth) }
{
    for _ in 0..depth {
        out.extend_from_slice(b"  ")?;
    }
    Ok(())
}

fn push_queries(
    out: &mut Vec<u8>,
    depth: u32,
    names: &[Name],
    queries: &[Query],
) -> Result<(), AllocError>
    ensures { OnOk result (out.new.items ≡ out.old.items ++ queries_lines depth names.now (map query_view queries.now)) }
{
    for query in queries {
        push_indent(out, depth)?;
        push_query(out, names, query)?;
        out.extend_from_slice(b"\n")?;
    }
    Ok(())
}

fn push_levels(out: &mut Vec<u8>, names: &[Name], levels: &[Expr]) -> Result<(), AllocError>
    ensures { OnOk result (out.new.items ≡ out.old.items ++ join_by (expr_text names.now) comma (map tree levels.now)) }
{
    match levels {
        [first, rest @ ..] => {
            push_expr(out, names, first)?;
            push_more_levels(out, names, rest)
        }
        [] => Ok(()),
    }
}

/// Levels behind another one.
fn push_more_levels(out: &mut Vec<u8>, names: &[Name], levels: &[Expr]) -> Result<(), AllocError>
    ensures { OnOk result (out.new.items ≡ out.old.items ++ flat_map (λ e. comma ++ expr_text names.now e) (map tree levels.now)) }
{
    for level in levels {
        out.extend_from_slice(b", ")?;
        push_expr(out, names, level)?;
    }
    Ok(())
}

fn push_numbers(out: &mut Vec<u8>, numbers: &[u32]) -> Result<(), AllocError>
    ensures { OnOk result (out.new.items ≡ out.old.items ++ join_by decimal comma numbers.now) }
{
    match numbers {
        [first, rest @ ..] => {
            push_number(out, *first)?;
            push_more_numbers(out, rest)
        }
        [] => Ok(()),
    }
}

/// Numbers behind another one.
fn push_more_numbers(out: &mut Vec<u8>, numbers: &[u32]) -> Result<(), AllocError>
    ensures { OnOk result (out.new.items ≡ out.old.items ++ flat_map (λ n. comma ++ decimal n) numbers.now) }
{
    for number in numbers {
        out.extend_from_slice(b", ")?;
        push_number(out, *number)?;
    }
    Ok(())
}

fn push_column(out: &mut Vec<u8>, column: Column) -> Result<(), AllocError>
    ensures { OnOk result (out.new.items ≡ out.old.items ++ column_text column) }
{
    match column {
        Column::Level(level) => push_number(out, level),
        Column::Val => out.extend_from_slice(b"val"),
    }
}

fn push_columns(out: &mut Vec<u8>, columns: &[Column]) -> Result<(), AllocError>
    ensures { OnOk result (out.new.items ≡ out.old.items ++ join_by column_text comma columns.now) }
{
    match columns {
        [first, rest @ ..] => {
            push_column(out, *first)?;
            push_more_columns(out, rest)
        }
        [] => Ok(()),
    }
}

/// Columns behind another one.
fn push_more_columns(out: &mut Vec<u8>, columns: &[Column]) -> Result<(), AllocError>
    ensures { OnOk result (out.new.items ≡ out.old.items ++ flat_map (λ c. comma ++ column_text c) columns.now) }
{
    for column in columns {
        out.extend_from_slice(b", ")?;
        push_column(out, *column)?;
    }
    Ok(())
}

/// A line with a word and its numbers, where there are any.
fn push_numbers_line(
    out: &mut Vec<u8>,
    depth: u32,
    word: &[u8],
    numbers: &[u32],
) -> Result<(), AllocError>
    ensures { OnOk result (out.new.items ≡ out.old.items ++ numbers_line depth word.now numbers.now) }
{
    if numbers.is_empty() {
        return Ok(());
    }
    push_indent(out, depth)?;
    out.extend_from_slice(word)?;
    push_numbers(out, numbers)?;
    out.extend_from_slice(b"\n")
}

fn push_packs(out: &mut Vec<u8>, depth: u32, packs: &[Pack]) -> Result<(), AllocError>
    ensures { OnOk result (out.new.items ≡ out.old.items ++ flat_map (λ cs. line depth (pack_text cs)) packs.now) }
{
    for pack in packs {
        push_indent(out, depth)?;
        out.extend_from_slice(b"pack (")?;
        push_columns(out, pack.as_slice())?;
        out.extend_from_slice(b")\n")?;
    }
    Ok(())
}

fn push_map(
    out: &mut Vec<u8>,
    depth: u32,
    names: &[Name],
    levels: &[Expr],
) -> Result<(), AllocError>
    ensures { OnOk result (out.new.items ≡ out.old.items ++ line depth (map_text names.now (map tree levels.now))) }
{
    push_indent(out, depth)?;
    out.extend_from_slice(b"map (")?;
    push_levels(out, names, levels)?;
    out.extend_from_slice(b")\n")
}

/// The numbers of levels, and the packs.
fn push_storage(out: &mut Vec<u8>, depth: u32, part: &Part) -> Result<(), AllocError>
    ensures { OnOk result (out.new.items ≡ out.old.items ++ storage_lines depth (part_view part.now)) }
{
    push_numbers_line(out, depth, b"trim ", part.trim.as_slice())?;
    push_numbers_line(out, depth, b"merge ", part.merge.as_slice())?;
    push_packs(out, depth, part.packs.as_slice())
}

fn push_part(out: &mut Vec<u8>, depth: u32, part: &Part) -> Result<(), AllocError>
    ensures { OnOk result (out.new.items ≡ out.old.items ++ part_lines depth (part_view part.now)) }
{
    let names = part.names.as_slice();
    push_queries(out, depth, names, part.queries.as_slice())?;
    push_map(out, depth, names, part.levels.as_slice())?;
    push_storage(out, depth, part)
}

/// The name of the condition and what it is compared with.
fn push_condition(out: &mut Vec<u8>, names: &[Name], cond: Cond) -> Result<(), AllocError>
    ensures { OnOk result (out.new.items ≡ out.old.items ++ condition_text names.now cond) }
{
    push_name(out, names, cond.var)?;
    push_sign(out, cond.less)?;
    push_number(out, cond.bound)
}

fn push_sign(out: &mut Vec<u8>, less: bool) -> Result<(), AllocError>
    ensures { OnOk result (out.new.items ≡ out.old.items ++ sign_text less) }
{
    if less {
        out.extend_from_slice(b" < ")
    } else {
        out.extend_from_slice(b" >= ")
    }
}

fn push_when(out: &mut Vec<u8>, names: &[Name], cond: Cond) -> Result<(), AllocError>
    ensures { OnOk result (out.new.items ≡ out.old.items ++ opening_line names.now (cond ∷ [])) }
{
    out.extend_from_slice(b"  part when ")?;
    push_condition(out, names, cond)?;
    out.extend_from_slice(b" {\n")
}

/// The line that opens a part, by its place: that of its condition, or that of the rest.
fn push_opening(
    out: &mut Vec<u8>,
    names: &[Name],
    conds: &[Cond],
    place: usize,
) -> Result<(), AllocError>
    ensures { OnOk result (out.new.items ≡ out.old.items ++ opening_line names.now (drop place conds.now)) }
{
    match conds.get(place) {
        Some(cond) => push_when(out, names, *cond),
        None => out.extend_from_slice(b"  rest {\n"),
    }
}

/// A part behind its opening line.
fn push_block(out: &mut Vec<u8>, part: &Part) -> Result<(), AllocError>
    ensures { OnOk result (out.new.items ≡ out.old.items ++ block_lines (part_view part.now)) }
{
    push_part(out, 2, part)?;
    out.extend_from_slice(b"  }\n")
}

/// A part for each condition, and the part of the rest.
fn push_blocks(
    out: &mut Vec<u8>,
    names: &[Name],
    conds: &[Cond],
    parts: &[Part],
) -> Result<(), AllocError>
    ensures { OnOk result (out.new.items ≡ out.old.items ++ blocks_lines names.now conds.now (map part_view parts.now)) }
{
    for (place, part) in parts.iter().enumerate() {
        push_opening(out, names, conds, place)?;
        push_block(out, part)?;
    }
    Ok(())
}

fn push_divided(out: &mut Vec<u8>, head: &Head, parts: &[Part]) -> Result<(), AllocError>
    ensures { OnOk result (out.new.items ≡ out.old.items ++ body_lines (Divided (head_view head.now) (map part_view parts.now))) }
{
    let names = head.names.as_slice();
    push_queries(out, 1, names, head.queries.as_slice())?;
    push_blocks(out, names, head.conds.as_slice(), parts)
}

fn push_body(out: &mut Vec<u8>, body: &Body) -> Result<(), AllocError>
    ensures { OnOk result (out.new.items ≡ out.old.items ++ body_lines (body_view body.now)) }
{
    match body {
        Body::One(part) => push_part(out, 1, part),
        Body::Split { head, parts } => push_divided(out, head, parts.as_slice()),
    }
}
