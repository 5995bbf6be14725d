//! What a container keeps is read back from its bytes.
ghost use Rattle.std.specs.Prelude.{◌≡◌, ◌<◌, ◌^◌, All, FitsSigned, Ok, length};
ghost use Rattle.std.specs.Int.{w64};
ghost use Rattle.us_container.specs.Bytes.{container_bytes};
ghost use Rattle.us_container.specs.Contained.{contained_in};
ghost use Rattle.us_inputs.specs.Views.{contained_of};

use us_check::{Held, checked_buffers_are_well_formed};
use us_container::written_reads_back;
use us_matrix::Buffers;

/// By the definition of containers, the bytes of the container of what is held hold it again. It reads each cell once, since
/// only a cell that was read is known to be of 64 bits.
pub fn reads_back(held: &Held)
    ensures { contained_in (container_bytes held.now.declared held.now.matrix.rows held.now.matrix.cols held.now.buffers) ≡ Ok (contained_of held.now) }
{
    cells_of_all_fit(held.buffers());
    held.format().decl();
    held.matrix().shape();
    written_reads_back();
    checked_buffers_are_well_formed();
}

fn cells_of_all_fit(buffers: &Buffers)
    ensures cells { All (All (FitsSigned w64)) buffers.now }
    ensures lengths { All (λ cells. length cells < 2 ^ 61) buffers.now }
{
    for b in 0..buffers.count() {
        cells_fit(buffers.list(b));
    }
}

fn cells_fit(cells: &[i64])
    ensures cells { All (FitsSigned w64) cells.now }
    ensures len { length cells.now < 2 ^ 61 }
{
    for cell in cells {
        cell_fits(cell);
    }
}

fn cell_fits(cell: &i64)
    ensures { FitsSigned w64 cell.now }
{
    let _value = *cell;
}
