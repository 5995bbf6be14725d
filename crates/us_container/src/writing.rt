//! Writing a container.
ghost use Rattle.std.specs.Prelude.{◌≡◌, ◌+◌, ◌++◌, ◌∷◌, length, IfOk, IfSome, OnOk};
ghost use Rattle.std.specs.List.{flat_map};
ghost use Rattle.us_container.specs.Bytes.{magic, number_bytes, cell_bytes, buffer_bytes, text_bytes, container_bytes};

use byteorder::{ByteOrder, LittleEndian};
use std::alloc::{AllocError, Global};
use us_check::Held;
use us_matrix::{Buffers, Shape};
use us_print::print_decl;

/// The bytes of the container of a held matrix.
pub fn write_container(alloc: Global, held: &Held) -> Result<Vec<u8>, AllocError>
    ensures { IfOk result (λ v. v.items ≡ container_bytes held.now.declared held.now.matrix.rows held.now.matrix.cols held.now.buffers) }
{
    let text = print_decl(alloc, held.format().decl())?;
    let room = room_for(&text, held.buffers()).ok_or(AllocError)?;
    let mut out = Vec::with_capacity(alloc, room)?;
    push_head(&mut out, &text, held.shape())?;
    push_buffers(&mut out, held.buffers())?;
    Ok(out)
}

/// How many bytes a buffer takes, if a `usize` counts them.
#[tactic(auto, using(crate::proofs::Lengths::length_buffer))]
fn buffer_room(cells: &[i64]) -> Option<usize>
    ensures { IfSome result (λ n. n ≡ length (buffer_bytes cells.now)) }
{
    cells.len().checked_add(1)?.checked_mul(8)
}

/// How many bytes a container takes that has this text, if a `usize` counts them.
fn room_for(text: &[u8], buffers: &Buffers) -> Option<usize>
    ensures { IfSome result (λ n. n ≡ 40 + length text.now + length (flat_map buffer_bytes buffers.now)) }
{
    let mut room = text.len().checked_add(40)?;
    for b in 0..buffers.count() {
        let more = buffer_room(buffers.list(b))?;
        room = room.checked_add(more)?;
    }
    Some(room)
}

#[tactic(auto, unfolding(crate::specs::Bytes::number_bytes))]
fn push_number(out: &mut Vec<u8>, n: u64) -> Result<(), AllocError>
    ensures { OnOk result (out.new.items ≡ out.old.items ++ number_bytes n) }
{
    let mut bytes = [0u8; 8];
    LittleEndian::write_u64(&mut bytes, n);
    out.extend_from_slice(&bytes)
}

#[tactic(auto, unfolding(crate::specs::Bytes::cell_bytes))]
fn push_cell(out: &mut Vec<u8>, cell: i64) -> Result<(), AllocError>
    ensures { OnOk result (out.new.items ≡ out.old.items ++ cell_bytes cell) }
{
    let mut bytes = [0u8; 8];
    LittleEndian::write_i64(&mut bytes, cell);
    out.extend_from_slice(&bytes)
}

/// What stands before the number of buffers.
fn push_head(out: &mut Vec<u8>, text: &[u8], shape: Shape) -> Result<(), AllocError>
    ensures { OnOk result (out.new.items ≡ out.old.items ++ (magic ++ (1 ∷ (text_bytes text.now ++ (number_bytes shape.rows ++ number_bytes shape.cols))))) }
{
    out.extend_from_slice(b"USPARSE\x01")?;
    push_number(out, text.len() as u64)?;
    out.extend_from_slice(text)?;
    push_number(out, u64::from(shape.rows))?;
    push_number(out, u64::from(shape.cols))
}

fn push_cells(out: &mut Vec<u8>, cells: &[i64]) -> Result<(), AllocError>
    ensures { OnOk result (out.new.items ≡ out.old.items ++ flat_map cell_bytes cells.now) }
{
    for cell in cells {
        push_cell(out, *cell)?;
    }
    Ok(())
}

fn push_buffer(out: &mut Vec<u8>, cells: &[i64]) -> Result<(), AllocError>
    ensures { OnOk result (out.new.items ≡ out.old.items ++ buffer_bytes cells.now) }
{
    push_number(out, cells.len() as u64)?;
    push_cells(out, cells)
}

/// The number of buffers, and the buffers.
fn push_buffers(out: &mut Vec<u8>, buffers: &Buffers) -> Result<(), AllocError>
    ensures { OnOk result (out.new.items ≡ out.old.items ++ (number_bytes (length buffers.now) ++ flat_map buffer_bytes buffers.now)) }
{
    push_number(out, buffers.count() as u64)?;
    for b in 0..buffers.count() {
        push_buffer(out, buffers.list(b))?;
    }
    Ok(())
}
