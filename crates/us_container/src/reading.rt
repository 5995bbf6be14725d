//! Reading a container.
ghost use Rattle.std.specs.Prelude.{◌≡◌, ◌+◌, ◌^◌, ◌<◌, length, IfOk, OnOk};
ghost use Rattle.us_matrix.specs.Map.{IsSide};
ghost use Rattle.us_format.specs.Program.{plain_shape};
ghost use Rattle.us_decl.specs.Declares.{IsValid};
ghost use Rattle.us_decl.specs.Views.{decl_view};
ghost use Rattle.us_judge.specs.Acceptance.{first_refusal};
ghost use Rattle.us_judge.specs.Views.{declaration_of};
ghost use Rattle.us_container.specs.Contained.{TellsContained, contained_in, all_buffers, held_in, buffers_in, with_magic, version, declaration_at, declaration, accepted, side, shape_at, behind_text, right_count, at_end};
ghost use Rattle.us_container.specs.Text.{declaration_in};
ghost use Rattle.us_container.specs.Answers.{Answers};

use crate::fault::ContainerFault;
use crate::fields::{buffers, field, number, place};
use crate::text::{TextFault, declaration_in};
use std::alloc::Global;
use us_check::{Held, check};
use us_decl::Decl;
use us_judge::{Format, JudgeFault, judge};
use us_matrix::{Buffers, Shape};

/// The most rows, and the most columns.
const LONGEST_SIDE: u64 = 2147483647;

/// The bytes behind the magic.
fn with_magic(bytes: &[u8]) -> Result<&[u8], ContainerFault>
    ensures { Answers (λ x. x.now) (with_magic bytes.now) result }
{
    match bytes.strip_prefix(b"USPARSE") {
        Some(behind) => Ok(behind),
        None => Err(ContainerFault::Magic),
    }
}

/// The bytes behind the version.
fn version(len: usize, rest: &[u8]) -> Result<&[u8], ContainerFault>
    ensures { Answers (λ x. x.now) (version len rest.now) result }
{
    let (bytes, behind) = field(len, 1, rest)?;
    if bytes[0] == 1 {
        Ok(behind)
    } else {
        Err(ContainerFault::Version {
            n: u64::from(bytes[0]),
        })
    }
}

/// The declaration of the text that begins at a place.
fn declaration_at(alloc: Global, at: u64, text: &[u8]) -> Result<Decl, ContainerFault>
    requires { at + length text.now < 2 ^ 64 }
    ensures is { Answers decl_view (declaration_at at (declaration_in text.now)) result }
    ensures valid { IfOk result (λ d. IsValid (decl_view d)) }
{
    match declaration_in(alloc, text) {
        Ok(decl) => Ok(decl),
        Err(TextFault::Place(place)) => Err(ContainerFault::DeclText { at: at + place }),
        Err(TextFault::Memory) => Err(ContainerFault::Memory),
    }
}

/// The declaration of the text, and what stands behind it.
fn declaration(alloc: Global, len: usize, rest: &[u8]) -> Result<(Decl, &[u8]), ContainerFault>
    ensures is { Answers (λ x. (decl_view x.0, x.1.now)) (declaration len rest.now) result }
    ensures valid { IfOk result (λ x. IsValid (decl_view x.0)) }
{
    let (n, rest) = number(len, rest)?;
    let at = place(len, rest);
    let (text, behind) = field(len, n, rest)?;
    let decl = declaration_at(alloc, at, text)?;
    Ok((decl, behind))
}

/// The format of a declaration that breaks no rule.
fn accepted(alloc: Global, decl: Decl) -> Result<Format, ContainerFault>
    requires { IsValid (decl_view decl) }
    ensures is { Answers (λ _. tt) (accepted (first_refusal (declaration_of (decl_view decl)))) result }
    ensures same { IfOk result (λ f. f ≡ decl_view decl) }
{
    match judge(alloc, decl) {
        Ok(format) => Ok(format),
        Err(JudgeFault::Refused(refusal)) => Err(ContainerFault::Refused(refusal)),
        Err(JudgeFault::Memory) => Err(ContainerFault::Memory),
    }
}

/// Rows or columns, and what stands behind them.
fn side(len: usize, rest: &[u8]) -> Result<(u32, &[u8]), ContainerFault>
    ensures is { Answers (λ x. (x.0, x.1.now)) (side len rest.now) result }
    ensures side { IfOk result (λ x. IsSide x.0) }
{
    let (n, behind) = number(len, rest)?;
    if n < 1 || n > LONGEST_SIDE {
        return Err(ContainerFault::Shape);
    }
    Ok((n as u32, behind))
}

/// Rows and columns, and what stands behind them.
fn shape_at(len: usize, rest: &[u8]) -> Result<(Shape, &[u8]), ContainerFault>
    ensures is { Answers (λ x. (plain_shape x.0, x.1.now)) (shape_at len rest.now) result }
    ensures rows { IfOk result (λ x. IsSide x.0.rows) }
    ensures cols { IfOk result (λ x. IsSide x.0.cols) }
{
    let (rows, rest) = side(len, rest)?;
    let (cols, rest) = side(len, rest)?;
    Ok((Shape { rows, cols }, rest))
}

/// The number of buffers is the one that is wanted.
fn right_count(count: u64, wanted: usize) -> Result<(), ContainerFault>
    ensures is { Answers (λ _. tt) (right_count count wanted) result }
    ensures same { OnOk result (count ≡ wanted) }
{
    if count != wanted as u64 {
        return Err(ContainerFault::Lengths {
            buffer: count.min(wanted as u64),
        });
    }
    Ok(())
}

/// Nothing is left.
fn at_end(len: usize, rest: &[u8]) -> Result<(), ContainerFault>
    ensures { Answers (λ _. tt) (at_end len rest.now) result }
{
    if rest.is_empty() {
        Ok(())
    } else {
        Err(ContainerFault::Trailing {
            at: place(len, rest),
        })
    }
}

/// As many buffers as are wanted, with nothing behind them.
fn all_buffers(
    alloc: Global,
    len: usize,
    wanted: usize,
    rest: &[u8],
) -> Result<Buffers, ContainerFault>
    ensures { Answers (λ bufs. bufs) (all_buffers len wanted rest.now) result }
{
    let (count, rest) = number(len, rest)?;
    right_count(count, wanted)?;
    let (found, rest) = buffers(alloc, len, wanted, rest)?;
    at_end(len, rest)?;
    Ok(found)
}

/// The matrix of a format and a shape that these buffers mean, if they are well-formed.
fn held_in(
    alloc: Global,
    format: Format,
    shape: Shape,
    buffers: Buffers,
) -> Result<Held, ContainerFault>
    requires rows { IsSide shape.rows }
    requires cols { IsSide shape.cols }
    ensures { TellsContained (held_in format (plain_shape shape) buffers) result }
{
    match check(alloc, format, shape, buffers) {
        Ok(held) => Ok(held),
        Err(broken) => Err(ContainerFault::from(broken)),
    }
}

/// The matrix of a format and a shape whose buffers stand in the rest of the file.
fn buffers_in(
    alloc: Global,
    len: usize,
    format: Format,
    shape: Shape,
    rest: &[u8],
) -> Result<Held, ContainerFault>
    requires rows { IsSide shape.rows }
    requires cols { IsSide shape.cols }
    ensures { TellsContained (buffers_in len format (plain_shape shape) rest.now) result }
{
    let wanted = format.buffers();
    match all_buffers(alloc, len, wanted, rest) {
        Ok(found) => held_in(alloc, format, shape, found),
        Err(fault) => Err(fault),
    }
}

/// The matrix of a format whose shape and buffers stand in the rest of the file.
fn behind_text(
    alloc: Global,
    len: usize,
    format: Format,
    rest: &[u8],
) -> Result<Held, ContainerFault>
    ensures { TellsContained (behind_text len format rest.now) result }
{
    match shape_at(len, rest) {
        Ok((shape, rest)) => buffers_in(alloc, len, format, shape, rest),
        Err(fault) => Err(fault),
    }
}

/// The matrix that a container holds, with its format and buffers; else the first fault, each field being tested as soon as it is
/// there. No more memory is asked for than the file's own length gives reason for.
pub fn read_container(alloc: Global, bytes: &[u8]) -> Result<Held, ContainerFault>
    ensures { TellsContained (contained_in bytes.now) result }
{
    let len = bytes.len();
    let rest = with_magic(bytes)?;
    let rest = version(len, rest)?;
    let (decl, rest) = declaration(alloc, len, rest)?;
    let format = accepted(alloc, decl)?;
    behind_text(alloc, len, format, rest)
}
