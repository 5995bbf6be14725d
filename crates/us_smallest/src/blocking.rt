//! The command that finds the blocks in which a matrix is smallest.
ghost use Rattle.std.specs.Prelude.{◌≡◌, ℕ, ◌<◌, ◌++◌, Err, IfErr, IfOk, OnOk, Some, codes, length, map};
ghost use Rattle.std.specs.List.{flat_map, slice_get};
ghost use Rattle.us_advise.specs.Blocks.{IsBlockSide, block};
ghost use Rattle.us_advise.specs.Least.{told as told_size};
ghost use Rattle.us_decl.specs.Declares.{IsValid};
ghost use Rattle.us_print.specs.Canon.{decl_text};
ghost use Rattle.us_status.specs.Answers.{IsInnerRefusal, IsStep};
ghost use Rattle.us_status.specs.Runs.{IsRunOf, told};
ghost use Rattle.us_smallest.specs.Blocking.{Blocked, all_sides, best_sides, block_size, blocked, blocks_task, blocks_text, sides_text};
ghost use Rattle.us_smallest.specs.Tables.{ending, line};
ghost use Rattle.us_smallest.specs.Views.{IsBest};
ghost use Rattle.us_smallest.specs.declared.sides.Sides.{Sides};

use crate::sides::{Sides, push_sides, sides_at};
use crate::table::push_ending;
use std::alloc::{AllocError, Global};
use us_advise::{block, blocks as block_sizes};
use us_inputs::read_input;
use us_matrix::Matrix;
use us_outside::Outside;
use us_print::{canonical_text_reads_back, print_decl};
use us_status::{Slot, Status, Store, finish};

/// Stores the declaration of the blocks in which the input's matrix is smallest, and prints its size in the blocks of 1 to
/// 8 rows and 1 to 8 columns, or `over` where it is above the limit.
pub fn blocks<O: Outside>(alloc: Global, outside: &mut O, input: &str, output: &str) -> Status
    ensures { IsRunOf (blocks_task input.now output.now)
        (told (O.files outside.old) (O.printed outside.old) (O.faults outside.old))
        (told (O.files outside.new) (O.printed outside.new) (O.faults outside.new)) result }
{
    canonical_text_reads_back();
    let input = match read_input(alloc, outside, Slot::Input, input) {
        Ok(input) => input,
        Err(status) => return status,
    };
    match best_of(alloc, input.matrix()) {
        Ok(best) => finish(
            outside,
            &[Store::output(output, &best.text)],
            Some(&best.lines),
        ),
        Err(status) => status,
    }
}

/// What is stored and printed.
#[derive(Drop)]
struct Best {
    text: Vec<u8>,
    lines: Vec<u8>,
}

// The declaration of the smallest blocks, and the lines of all.
fn best_of(alloc: Global, matrix: &Matrix) -> Result<Best, Status>
    ensures best { IfOk result (λ b. IsBest matrix.now b.text.items b.lines.items) }
    ensures large { IfErr result (λ s. IsStep {A = Blocked} (blocked matrix.now (best_sides matrix.now)) (Err s)) }
    ensures refusal { IfErr result IsInnerRefusal }
{
    let advice = block_sizes(alloc, matrix)?;
    let Some(place) = advice.best else {
        return Err(Status::TooLarge { hop: 1 });
    };
    let lines = block_lines(alloc, advice.sizes.as_slice(), place)?;
    let text = block_text(alloc, sides_at(place))?;
    Ok(Best { text, lines })
}

// The canonical text of the declaration of blocks.
fn block_text(alloc: Global, sides: Sides) -> Result<Vec<u8>, AllocError>
    requires rows { IsBlockSide sides.rows }
    requires cols { IsBlockSide sides.cols }
    ensures text { IfOk result (λ v. v.items ≡ decl_text (block sides.rows sides.cols)) }
    ensures valid { OnOk result (IsValid (block sides.rows sides.cols)) }
{
    let format = block(alloc, sides.rows, sides.cols)?;
    print_decl(alloc, format.decl())
}

// The lines of all blocks, whose sizes are told, and of those at a place.
fn block_lines(alloc: Global, sizes: &[u64], best: usize) -> Result<Vec<u8>, AllocError>
    requires count { length sizes.now ≡ 64 }
    requires best { best < 64 }
    ensures { IfOk result (λ v. (size : Sides → ℕ) (s : Sides) → sizes.now ≡ map (λ s. told_size (size s)) all_sides → slice_get all_sides best ≡ Some s
        → v.items ≡ flat_map (line sides_text size) all_sides ++ (codes "best " ++ line sides_text size s)) }
{
    let mut out = Vec::new(alloc);
    for (place, size) in sizes.iter().enumerate() {
        push_block(&mut out, sides_at(place), *size)?;
    }
    out.extend_from_slice(b"best ")?;
    push_block(&mut out, sides_at(best), sizes[best])?;
    Ok(out)
}

// The line of blocks: their sides and their size.
fn push_block(out: &mut Vec<u8>, sides: Sides, size: u64) -> Result<(), AllocError>
    ensures { OnOk result (out.new.items ≡ out.old.items ++ (sides_text sides ++ ending size)) }
{
    push_sides(out, sides)?;
    push_ending(out, size)
}
