//! What `check` prints.
ghost use Rattle.std.specs.Prelude.{◌≡◌, ◌<◌, ◌≤◌, ◌-◌, ◌^◌, ◌++◌, All, IfOk, None, OnOk, length, map};
ghost use Rattle.us_format.specs.Kinds.{kind};
ghost use Rattle.us_decl.specs.Declares.{IsValid};
ghost use Rattle.us_decl.specs.Views.{decl_view};
ghost use Rattle.us_judge.specs.Acceptance.{first_refusal};
ghost use Rattle.us_judge.specs.Format.{part_at};
ghost use Rattle.us_judge.specs.Views.{declaration_of};
ghost use Rattle.us_top.specs.Report.{report, declaration_line, verdict_text, refusal_text, parts_text, part_text, level_text, bounds_text, end_text, kind_word};
ghost use Rattle.us_top.specs.Views.{shape_view};

use itoa::Buffer;
use std::alloc::{AllocError, Global};
use us_decl::{Decl, Library};
use us_judge::{Format, JudgeFault, Kind, LevelBounds, Refusal, judge};
use us_matrix::Shape;

/// A line for each declaration of a library: its kinds and ranges of levels for matrices of the shape, or its refusal.
pub fn report(alloc: Global, library: &Library, shape: Shape) -> Result<Vec<u8>, AllocError>
    requires valid { All (λ d. IsValid (decl_view d)) library.now }
    requires rows { shape.rows < 2 ^ 31 }
    requires cols { shape.cols < 2 ^ 31 }
    ensures { IfOk result (λ v. v.items ≡ report (shape_view shape) (map decl_view library.now)) }
{
    let mut out = Vec::new(alloc);
    for k in 0..library.count() {
        push_line(alloc, &mut out, library.at(k), shape)?;
    }
    Ok(out)
}

fn push_line(alloc: Global, out: &mut Vec<u8>, decl: &Decl, shape: Shape) -> Result<(), AllocError>
    requires valid { IsValid (decl_view decl.now) }
    requires rows { shape.rows < 2 ^ 31 }
    requires cols { shape.cols < 2 ^ 31 }
    ensures { OnOk result (out.new.items ≡ out.old.items ++ declaration_line (shape_view shape) (decl_view decl.now)) }
{
    out.extend_from_slice(decl.name.as_str().as_bytes())?;
    push_verdict(alloc, out, decl, shape)?;
    out.push(b'\n')?;
    Ok(())
}

fn push_verdict(
    alloc: Global,
    out: &mut Vec<u8>,
    decl: &Decl,
    shape: Shape,
) -> Result<(), AllocError>
    requires valid { IsValid (decl_view decl.now) }
    requires rows { shape.rows < 2 ^ 31 }
    requires cols { shape.cols < 2 ^ 31 }
    ensures { OnOk result (out.new.items ≡ out.old.items
        ++ verdict_text (shape_view shape) (declaration_of (decl_view decl.now)) (first_refusal (declaration_of (decl_view decl.now)))) }
{
    let copy = decl.copy(alloc)?;
    match judge(alloc, copy) {
        Ok(format) => push_accepted(out, &format, shape),
        Err(JudgeFault::Refused(refusal)) => push_refusal(out, refusal),
        Err(JudgeFault::Memory) => Err(AllocError),
    }
}

fn push_accepted(out: &mut Vec<u8>, format: &Format, shape: Shape) -> Result<(), AllocError>
    requires rows { shape.rows < 2 ^ 31 }
    requires cols { shape.cols < 2 ^ 31 }
    ensures { OnOk result (out.new.items ≡ out.old.items ++ verdict_text (shape_view shape) (declaration_of format.now) None) }
{
    out.extend_from_slice(b" accepted")?;
    push_first(out, format, shape)?;
    for part in 1..format.parts() {
        out.extend_from_slice(b" |")?;
        push_part(out, format, part + 1, shape)?;
    }
    Ok(())
}

// The first part, which each format has.
fn push_first(out: &mut Vec<u8>, format: &Format, shape: Shape) -> Result<(), AllocError>
    requires rows { shape.rows < 2 ^ 31 }
    requires cols { shape.cols < 2 ^ 31 }
    ensures { OnOk result (out.new.items ≡ out.old.items ++ part_text (shape_view shape) (part_at (declaration_of format.now) 0)) }
{
    let _ = format.first_part();
    push_part(out, format, 1, shape)
}

fn push_part(
    out: &mut Vec<u8>,
    format: &Format,
    part: usize,
    shape: Shape,
) -> Result<(), AllocError>
    requires from_one { 1 ≤ part }
    requires part { part ≤ length (declaration_of format.now).parts }
    requires rows { shape.rows < 2 ^ 31 }
    requires cols { shape.cols < 2 ^ 31 }
    ensures { OnOk result (out.new.items ≡ out.old.items ++ part_text (shape_view shape) (part_at (declaration_of format.now) (part - 1))) }
{
    for level in 0..format.levels(part) {
        let kind = format.kind(part, level);
        let bounds = format.level_bounds(part, level, shape.rows, shape.cols);
        push_level(out, kind, bounds)?;
    }
    Ok(())
}

fn push_level(out: &mut Vec<u8>, kind: Kind, bounds: LevelBounds) -> Result<(), AllocError>
    ensures { OnOk result (out.new.items ≡ out.old.items ++ level_text kind bounds) }
{
    out.extend_from_slice(b" ")?;
    out.extend_from_slice(word_of(kind).as_bytes())?;
    push_bounds(out, bounds)
}

fn push_bounds(out: &mut Vec<u8>, bounds: LevelBounds) -> Result<(), AllocError>
    ensures { OnOk result (out.new.items ≡ out.old.items ++ bounds_text bounds) }
{
    let mut buffer = Buffer::new();
    out.extend_from_slice(b"[")?;
    out.extend_from_slice(buffer.format(bounds.lo).as_bytes())?;
    out.extend_from_slice(b",")?;
    push_end(out, bounds.hi)?;
    out.extend_from_slice(b"]")
}

// The upper end of a range, if the shape tells it.
fn push_end(out: &mut Vec<u8>, hi: Option<i64>) -> Result<(), AllocError>
    ensures { OnOk result (out.new.items ≡ out.old.items ++ end_text hi) }
{
    let mut buffer = Buffer::new();
    match hi {
        Some(hi) => out.extend_from_slice(buffer.format(hi).as_bytes()),
        None => out.extend_from_slice(b"?"),
    }
}

fn word_of(kind: Kind) -> &'static str
    ensures { result.now ≡ kind_word kind }
{
    match kind {
        Kind::Full => "full",
        Kind::Compressed => "compressed",
        Kind::Listed => "listed",
        Kind::Slot => "slot",
    }
}

fn push_refusal(out: &mut Vec<u8>, refusal: Refusal) -> Result<(), AllocError>
    ensures { OnOk result (out.new.items ≡ out.old.items ++ refusal_text refusal) }
{
    let mut buffer = Buffer::new();
    out.extend_from_slice(b" refused J")?;
    out.extend_from_slice(buffer.format(refusal.rule).as_bytes())?;
    out.extend_from_slice(b" part ")?;
    out.extend_from_slice(buffer.format(refusal.part).as_bytes())?;
    out.extend_from_slice(b" place ")?;
    out.extend_from_slice(buffer.format(refusal.place).as_bytes())
}
