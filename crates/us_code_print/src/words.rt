//! Numbers, names, and what holds them.

ghost use Rattle.std.specs.Prelude.{◌≡◌, ◌++◌, OnOk, codes};
ghost use Rattle.std.specs.Fmt.{decimal};
ghost use Rattle.std.specs.List.{flat_map, join_by};
ghost use Rattle.us_code_print.specs.Canon.{name_text, new_text, buf_text, dim_text, kind_text};

use itoa::Buffer;
use std::alloc::AllocError;
use us_code::{Buf, CellKind, Dim};

pub fn push_number(out: &mut Vec<u8>, n: u64) -> Result<(), AllocError>
    ensures { OnOk result (out.new.items ≡ out.old.items ++ decimal n) }
{
    out.extend_from_slice(Buffer::new().format(n).as_bytes())
}

/// A letter or word, and a number at once behind it.
pub fn push_name(out: &mut Vec<u8>, word: &[u8], number: u32) -> Result<(), AllocError>
    ensures { OnOk result (out.new.items ≡ out.old.items ++ name_text word.now number) }
{
    out.extend_from_slice(word)?;
    push_number(out, number as u64)
}

pub fn push_buf(out: &mut Vec<u8>, buf: Buf) -> Result<(), AllocError>
    ensures { OnOk result (out.new.items ≡ out.old.items ++ buf_text buf) }
{
    match buf {
        Buf::New(number) => push_name(out, b"b", number),
        Buf::Source(number) => push_name(out, b"s", number),
    }
}

pub fn push_dim(out: &mut Vec<u8>, dim: Dim) -> Result<(), AllocError>
    ensures { OnOk result (out.new.items ≡ out.old.items ++ dim_text dim) }
{
    match dim {
        Dim::Number(n) => push_number(out, n),
        Dim::Name(number) => push_name(out, b"d", number),
        Dim::Len(number) => push_name(out, b"len", number),
    }
}

/// What the cells of a new buffer hold, to the end of the line.
pub fn push_kind(out: &mut Vec<u8>, kind: CellKind) -> Result<(), AllocError>
    ensures { OnOk result (out.new.items ≡ out.old.items ++ kind_text kind) }
{
    match kind {
        CellKind::Word => out.extend_from_slice(b" word\n"),
        CellKind::Below(dim) => {
            out.extend_from_slice(b" below ")?;
            push_dim(out, dim)?;
            out.extend_from_slice(b"\n")
        }
    }
}

pub fn push_bufs(out: &mut Vec<u8>, bufs: &[Buf]) -> Result<(), AllocError>
    ensures { OnOk result (out.new.items ≡ out.old.items ++ join_by buf_text (codes ", ") bufs.now) }
{
    match bufs {
        [first, rest @ ..] => {
            push_buf(out, *first)?;
            push_more_bufs(out, rest)
        }
        [] => Ok(()),
    }
}

/// Buffers behind another one.
fn push_more_bufs(out: &mut Vec<u8>, bufs: &[Buf]) -> Result<(), AllocError>
    ensures { OnOk result (out.new.items ≡ out.old.items ++ flat_map (λ b. codes ", " ++ buf_text b) bufs.now) }
{
    for buf in bufs {
        out.extend_from_slice(b", ")?;
        push_buf(out, *buf)?;
    }
    Ok(())
}

/// The names of new buffers with these numbers.
pub fn push_new_bufs(out: &mut Vec<u8>, numbers: &[u32]) -> Result<(), AllocError>
    ensures { OnOk result (out.new.items ≡ out.old.items ++ join_by new_text (codes ", ") numbers.now) }
{
    match numbers {
        [first, rest @ ..] => {
            push_name(out, b"b", *first)?;
            push_more_new_bufs(out, rest)
        }
        [] => Ok(()),
    }
}

/// New buffers behind another one.
fn push_more_new_bufs(out: &mut Vec<u8>, numbers: &[u32]) -> Result<(), AllocError>
    ensures { OnOk result (out.new.items ≡ out.old.items ++ flat_map (λ b. codes ", " ++ new_text b) numbers.now) }
{
    for number in numbers {
        out.extend_from_slice(b", ")?;
        push_name(out, b"b", *number)?;
    }
    Ok(())
}
