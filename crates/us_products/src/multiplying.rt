//! What a product stores, prints and lists.
ghost use Rattle.std.specs.Prelude.{◌≡◌, ◌≤◌, ◌*◌, ◌++◌, All, Err, FitsSigned, IfErr, IfOk, List, Ok, OnOk, length};
ghost use Rattle.std.specs.Int.{w64};
ghost use Rattle.us_code.specs.Limits.{KeepsLimits};
ghost use Rattle.us_code.specs.Plain.{program_tree};
ghost use Rattle.us_dense_unit.specs.Listing.{IsDenseListing};
ghost use Rattle.us_matrix.specs.Map.{IsSide};
ghost use Rattle.us_mm.specs.Laws.{IsGrid};
ghost use Rattle.us_mm.specs.Text.{array_text};
ghost use Rattle.us_status.specs.declared.status.Status.TheVariants.{Memory};
ghost use Rattle.us_status.specs.Answers.{IsInnerRefusal, IsStep};
ghost use Rattle.us_unit.specs.Listing.{IsListing};
ghost use Rattle.us_unit.specs.Units.{PlainUnit};
ghost use Rattle.us_inputs.specs.Steps.{map_of};
ghost use Rattle.us_inputs.specs.Views.{contained_of, input_view};
ghost use Rattle.us_journeys.specs.Hops.{line_of};
ghost use Rattle.us_products.specs.Factors.{few_cells, product_step, sizes_step};
ghost use Rattle.us_products.specs.Multiplying.{EndsAt, IsKernelRun, IsMultipliedBy, ListsKernel, unit_of_run};
ghost use Rattle.us_products.specs.Products.{product_word};
ghost use Rattle.us_products.specs.Views.{IsMadeOf, IsMultiplied};

use crate::operand::check_sides;
use itoa::Buffer;
use std::alloc::{AllocError, Global};
use us_check::Held;
use us_dense_unit::push_dense_unit;
use us_inputs::{Input, hold};
use us_journeys::{Journey, go_along};
use us_judge::Format;
use us_matrix::Dense;
use us_mm::write_array;
use us_multiply::{KernelFault, KernelRun, kernel};
use us_status::Status;

/// What a product stores, prints and lists.
#[derive(Drop)]
pub struct Multiplied {
    pub bytes: Vec<u8>,
    pub lines: Vec<u8>,
    pub listing: Vec<u8>,
}

/// The product of an input and an operand: the input is held, the sides are compared, the input goes through the formats,
/// each of which has to be within the limit, and it is multiplied in the last one.
pub fn multiply_input(
    alloc: Global,
    formats: &[Format],
    input: Input,
    x: &Dense,
    vector: bool,
    listed: bool,
) -> Result<Multiplied, Status>
    requires formats { length formats.now ≤ 64 }
    requires cols { IsSide x.now.cols }
    requires few { length x.now.cells ≤ 33554432 }
    ensures made { IfOk result (IsMadeOf vector listed (record { formats = formats.now; input = input_view input; operand = x.now })) }
    ensures within { OnOk result (product_step vector (map_of (input_view input)) formats.now x.now ≡ Ok tt) }
    ensures plain { IfErr result (EndsAt vector formats.now (input_view input) x.now) }
    ensures refusal { IfErr result IsInnerRefusal }
{
    match hold(alloc, input) {
        Ok(held) => multiply_held(alloc, formats, held, x, vector, listed),
        Err(status) => Err(status),
    }
}

// The product of a held matrix and an operand.
fn multiply_held(
    alloc: Global,
    formats: &[Format],
    held: Held,
    x: &Dense,
    vector: bool,
    listed: bool,
) -> Result<Multiplied, Status>
    requires formats { length formats.now ≤ 64 }
    requires cols { IsSide x.now.cols }
    requires few { length x.now.cells ≤ 33554432 }
    ensures made { IfOk result (IsMultiplied vector held.matrix (contained_of held) listed formats.now x.now) }
    ensures within { OnOk result (product_step vector held.matrix formats.now x.now ≡ Ok tt) }
    ensures plain { IfErr result (λ s. IsStep (product_step vector held.matrix formats.now x.now) (Err s)) }
    ensures refusal { IfErr result IsInnerRefusal }
{
    let cols = held.shape().cols;
    match check_sides(vector, cols, x) {
        Ok(()) => multiply_along(alloc, formats, held, x, vector, listed),
        Err(status) => Err(status),
    }
}

// The product of a held matrix and an operand whose sides fit.
fn multiply_along(
    alloc: Global,
    formats: &[Format],
    held: Held,
    x: &Dense,
    vector: bool,
    listed: bool,
) -> Result<Multiplied, Status>
    requires formats { length formats.now ≤ 64 }
    requires rows { x.now.rows ≡ held.matrix.cols }
    requires cols { IsSide x.now.cols }
    requires few { length x.now.cells ≤ 33554432 }
    ensures made { IfOk result (IsMultiplied vector held.matrix (contained_of held) listed formats.now x.now) }
    ensures within { OnOk result (sizes_step held.matrix formats.now x.now ≡ Ok tt) }
    ensures plain { IfErr result (λ s. IsStep (sizes_step held.matrix formats.now x.now) (Err s)) }
    ensures refusal { IfErr result IsInnerRefusal }
{
    let mut journey = Journey {
        held,
        lines: Vec::new(alloc),
        listing: Vec::new(alloc),
    };
    match go_along(alloc, &mut journey, formats, listed) {
        Ok(()) => multiply_last(alloc, journey, formats.len(), x, vector, listed),
        Err(status) => Err(status),
    }
}

// The product behind so many hops.
fn multiply_last(
    alloc: Global,
    journey: Journey,
    hops: usize,
    x: &Dense,
    vector: bool,
    listed: bool,
) -> Result<Multiplied, Status>
    requires hops { hops ≤ 64 }
    requires rows { x.now.rows ≡ journey.held.matrix.cols }
    requires cols { IsSide x.now.cols }
    requires few { length x.now.cells ≤ 33554432 }
    ensures made { IfOk result (IsMultipliedBy vector listed journey.held.matrix (contained_of journey.held) x.now journey.lines.items journey.listing.items) }
    ensures within { OnOk result (few_cells hops (journey.held.matrix.rows * x.now.cols) ≡ Ok tt) }
    ensures plain { IfErr result (λ s. IsStep (few_cells hops (journey.held.matrix.rows * x.now.cols)) (Err s)) }
    ensures refusal { IfErr result IsInnerRefusal }
{
    match kernel(alloc, &journey.held, x) {
        Ok(run) => finished(alloc, journey, run, x, vector, listed),
        Err(KernelFault::TooLarge) => Err(Status::TooLarge {
            hop: hops as u32 + 1,
        }),
        Err(KernelFault::Operand { .. }) => unreachable!(),
        Err(KernelFault::Memory) => Err(Status::Memory),
    }
}

// What is stored, printed and listed of a run.
fn finished(
    alloc: Global,
    journey: Journey,
    run: KernelRun,
    x: &Dense,
    vector: bool,
    listed: bool,
) -> Result<Multiplied, Status>
    requires run { IsKernelRun journey.held x.now run }
    requires cols { IsSide x.now.cols }
    ensures made { IfOk result (IsMultipliedBy vector listed journey.held.matrix (contained_of journey.held) x.now journey.lines.items journey.listing.items) }
    ensures memory { IfErr result (λ s. s ≡ Memory) }
{
    let mut journey = journey;
    // so its rows are a side
    journey.held.matrix().shape();
    match tell(alloc, &mut journey, &run, vector, listed) {
        Ok(()) => written(alloc, journey, &run.dense),
        Err(_) => Err(Status::Memory),
    }
}

// The text of a product, behind what was told of it.
fn written(alloc: Global, journey: Journey, dense: &Dense) -> Result<Multiplied, Status>
    requires rows { IsSide dense.now.rows }
    requires cols { IsSide dense.now.cols }
    requires few { dense.now.rows * dense.now.cols ≤ 33554432 }
    ensures bytes { IfOk result (λ made. made.bytes.items ≡ array_text dense.now) }
    ensures grid { IfOk result (λ made. IsGrid dense.now) }
    ensures lines { IfOk result (λ made. made.lines.items ≡ journey.lines.items) }
    ensures listing { IfOk result (λ made. made.listing.items ≡ journey.listing.items) }
    ensures memory { IfErr result (λ s. s ≡ Memory) }
{
    cells_fit(dense.cells());
    match write_array(alloc, dense) {
        Ok(bytes) => {
            let Journey { lines, listing, .. } = journey;
            Ok(Multiplied {
                bytes,
                lines,
                listing,
            })
        }
        Err(_) => Err(Status::Memory),
    }
}

// The line of a product, and its unit where it is to be listed.
fn tell(
    alloc: Global,
    journey: &mut Journey,
    run: &KernelRun,
    vector: bool,
    listed: bool,
) -> Result<(), AllocError>
    requires { KeepsLimits (program_tree run.now.code) }
    ensures lines { OnOk result (journey.new.lines.items ≡ journey.old.lines.items ++ line_of (product_word vector) (length run.now.dense.cells) run.now.steps) }
    ensures lists { OnOk result (ListsKernel listed (unit_of_run run.now) journey.old.listing.items journey.new.listing.items) }
    ensures held { journey.new.held ≡ journey.old.held }
{
    push_line(&mut journey.lines, vector, run)?;
    if !listed {
        return Ok(());
    }
    list(alloc, &mut journey.listing, run)
}

// The unit of a kernel.
fn list(alloc: Global, listing: &mut Vec<u8>, run: &KernelRun) -> Result<(), AllocError>
    requires { KeepsLimits (program_tree run.now.code) }
    ensures { OnOk result ((us : List PlainUnit) → IsListing us listing.old.items → IsDenseListing us (unit_of_run run.now) listing.new.items) }
{
    let rows = run.dense.rows();
    let columns = run.dense.cols();
    push_dense_unit(alloc, listing, rows, columns, run.code.program())
}

// The command, the number of cells, and the steps.
fn push_line(lines: &mut Vec<u8>, vector: bool, run: &KernelRun) -> Result<(), AllocError>
    ensures { OnOk result (lines.new.items ≡ lines.old.items ++ line_of (product_word vector) (length run.now.dense.cells) run.now.steps) }
{
    let mut buffer = Buffer::new();
    let cells = run.dense.cells().len();
    lines.extend_from_slice(word_of(vector).as_bytes())?;
    lines.push(b' ')?;
    lines.extend_from_slice(buffer.format(cells).as_bytes())?;
    lines.push(b' ')?;
    lines.extend_from_slice(buffer.format(run.steps).as_bytes())?;
    lines.push(b'\n')?;
    Ok(())
}

fn word_of(vector: bool) -> &'static str
    ensures { result.now ≡ product_word vector }
{
    if vector { "spmv" } else { "spmm" }
}

// Only a cell that was read is known to be of 64 bits.
fn cells_fit(cells: &[i64])
    ensures { All (FitsSigned w64) cells.now }
{
    for cell in cells {
        cell_fits(cell);
    }
}

fn cell_fits(cell: &i64)
    ensures { FitsSigned w64 cell.now }
{
    let _value = *cell;
}
