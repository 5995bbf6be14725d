//! The numbers of the names in a program are numbers of 32 bits, so that its text names what the program names.
ghost use Rattle.std.specs.Prelude.{◌<◌, ◌^◌, map};
ghost use Rattle.us_code.specs.Plain.{term_tree, tree_of, alone, other_tree, was_given, phase_tree, line_tree, program_tree};
ghost use Rattle.us_code_print.specs.ReadBack.{GivenElse, IsNamed, Named, NamedBuf, NamedBufs, NamedLine, NamedLines, NamedMakes, NamedNumbers, NamedPhases, NamedTerm};

use us_code::{Block, Buf, DimLine, Make, Phase, Program, Stmt, Term};

/// The numbers of the names in a program are numbers of 32 bits, so that its text names what the program names.
pub fn program_is_named(program: &Program)
    ensures { IsNamed (program_tree program.now) }
{
    phases_are_named(program.phases.as_slice());
    numbers_are_small(program.give.as_slice());
}

fn number_is_small(number: u32)
    ensures { number < 2 ^ 32 }
{
    let _ = number;
}

fn numbers_are_small(numbers: &[u32])
    ensures { NamedNumbers numbers.now }
{
    for number in numbers {
        number_is_small(*number);
    }
}

fn buffer_is_named(buf: Buf)
    ensures { NamedBuf buf }
{
    match buf {
        Buf::New(number) | Buf::Source(number) => number_is_small(number),
    }
}

fn buffers_are_named(bufs: &[Buf])
    ensures { NamedBufs bufs.now }
{
    for buf in bufs {
        buffer_is_named(*buf);
    }
}

fn term_is_named(term: &Term)
    ensures { NamedTerm (term_tree term.now) }
{
    match term {
        Term::Number(_) | Term::Size(_) => (),
        Term::Reg(reg) => number_is_small(*reg),
        Term::Flat(dim, place, digit) => {
            number_is_small(*dim);
            term_is_named(place);
            term_is_named(digit);
        }
        Term::Next(dim, value) | Term::Up(dim, value) => {
            number_is_small(*dim);
            term_is_named(value);
        }
        Term::Add(left, right) | Term::Sub(left, right) | Term::Mul(left, right) => {
            term_is_named(left);
            term_is_named(right);
        }
        Term::Div(left, _) | Term::Rem(left, _) => term_is_named(left),
    }
}

#[cycle(block)]
fn block_is_named(block: &Block)
    ensures { Named (tree_of block.now) }
{
    for stmt in block.stmts.as_slice() {
        statement_is_named(stmt);
    }
}

/// The block behind `else`, where there is one.
#[cycle(block)]
fn other_is_named(other: &Option<Block>)
    ensures named { Named (other_tree other.now) }
    ensures given { GivenElse (was_given other.now) (other_tree other.now) }
{
    match other {
        Some(block) => block_is_named(block),
        None => (),
    }
}

#[cycle(block)]
#[tactic(auto, using(crate::proofs::Named::statements))]
fn statement_is_named(stmt: &Stmt)
    ensures { Named (alone stmt.now) }
{
    match stmt {
        Stmt::Let { reg, value } | Stmt::Var { reg, value } | Stmt::Put { reg, value } => {
            number_is_small(*reg);
            term_is_named(value);
        }
        Stmt::Load { reg, buf, at } => {
            number_is_small(*reg);
            buffer_is_named(*buf);
            term_is_named(at);
        }
        Stmt::Set { buf, at, value } => {
            buffer_is_named(*buf);
            term_is_named(at);
            term_is_named(value);
        }
        Stmt::For {
            reg,
            below: _,
            body,
        } => {
            number_is_small(*reg);
            block_is_named(body);
        }
        Stmt::Span {
            reg,
            first,
            end,
            below: _,
            body,
        } => {
            number_is_small(*reg);
            term_is_named(first);
            term_is_named(end);
            block_is_named(body);
        }
        Stmt::If {
            left,
            equal: _,
            right,
            body,
            other,
        } => {
            term_is_named(left);
            term_is_named(right);
            block_is_named(body);
            other_is_named(other);
        }
        Stmt::When {
            value,
            below: _,
            reg,
            body,
            other,
        } => {
            term_is_named(value);
            number_is_small(*reg);
            block_is_named(body);
            other_is_named(other);
        }
        Stmt::Order { buf, keys } => {
            buffer_is_named(*buf);
            buffers_are_named(keys.as_slice());
        }
    }
}

fn makes_are_named(makes: &[Make])
    ensures { NamedMakes makes.now }
{
    for make in makes {
        number_is_small(make.buf);
    }
}

fn line_is_named(line: &DimLine)
    ensures { NamedLine (line_tree line.now) }
{
    match line {
        DimLine::Of { dim, value } => {
            number_is_small(*dim);
            term_is_named(value);
        }
        DimLine::Product {
            dim,
            left: _,
            right: _,
        } => number_is_small(*dim),
        DimLine::Next { dim, of: _ } => number_is_small(*dim),
    }
}

fn lines_are_named(lines: &[DimLine])
    ensures { NamedLines (map line_tree lines.now) }
{
    for line in lines {
        line_is_named(line);
    }
}

fn phases_are_named(phases: &[Phase])
    ensures { NamedPhases (map phase_tree phases.now) }
{
    for phase in phases {
        makes_are_named(phase.makes.as_slice());
        block_is_named(&phase.body);
        lines_are_named(phase.dims.as_slice());
    }
}
