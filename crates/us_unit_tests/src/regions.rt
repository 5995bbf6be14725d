//! Lists of cells in one region.

ghost use Rattle.std.specs.Prelude.{◌≡◌, ◌≤◌, ◌^◌, ◌-◌, IfOk, [], ◌∷◌, length, pos, negsuc};
ghost use Rattle.us_raw.specs.declared.width.Width.TheVariants.{W1, W2, W4, W8};

use std::alloc::{AllocError, Global};
use std::test::Fail;
use us_raw::{Region, Segment, Width};

#[test]
fn widths_for_numbers_below_a_bound(rt: HostRuntime) {
    assert_eq!(rt; Width::for_below(0), Width::W1);
    assert_eq!(rt; Width::for_below(256), Width::W1);
    assert_eq!(rt; Width::for_below(257), Width::W2);
    assert_eq!(rt; Width::for_below(65536), Width::W2);
    assert_eq!(rt; Width::for_below(65537), Width::W4);
    assert_eq!(rt; Width::for_below(4294967296), Width::W4);
    assert_eq!(rt; Width::for_below(4294967297), Width::W8);
}

#[test]
fn least_widths_of_cells(rt: HostRuntime) {
    assert_eq!(rt; Width::least(&[]), Width::W1);
    assert_eq!(rt; Width::least(&[0, 2, 2, 3]), Width::W1);
    assert_eq!(rt; Width::least(&[5, 2, -7]), Width::W8);
    assert_eq!(rt; Width::least(&[255]), Width::W1);
    assert_eq!(rt; Width::least(&[0, 256]), Width::W2);
    assert_eq!(rt; Width::least(&[4294967295, 1]), Width::W4);
    assert_eq!(rt; Width::least(&[4294967296]), Width::W8);
}

/// A list of three cells of one byte, one of two of four bytes, and one of one of two bytes.
fn three_lists(alloc: Global) -> Result<Region, AllocError>
    ensures { IfOk result (λ r. (r.lists ≡ (pos 0 ∷ pos 0 ∷ pos 0 ∷ []) ∷ (pos 0 ∷ pos 0 ∷ []) ∷ (pos 0 ∷ []) ∷ []) × (r.widths ≡ W1 ∷ W4 ∷ W2 ∷ [])) }
{
    Region::new(
        alloc,
        &[
            Segment {
                len: 3,
                width: Width::W1,
            },
            Segment {
                len: 2,
                width: Width::W4,
            },
            Segment {
                len: 1,
                width: Width::W2,
            },
        ],
    )
}

#[test]
fn a_cell_is_set_and_no_other(rt: HostRuntime) -> Result<(), Fail> {
    let mut region = three_lists(rt.alloc())?;
    region.set(0, 1, 255);
    assert_eq!(rt; region.get(0, 0), 0);
    assert_eq!(rt; region.get(0, 1), 255);
    assert_eq!(rt; region.get(0, 2), 0);
    assert_eq!(rt; region.get(1, 0), 0);
    assert_eq!(rt; region.get(1, 1), 0);
    assert_eq!(rt; region.get(2, 0), 0);
    Ok(())
}

/// So many empty lists.
fn empty_lists(alloc: Global, count: usize) -> Result<Region, AllocError>
    requires { count ≤ 131072 }
    ensures { IfOk result (λ r. length r.lists ≡ count) }
{
    let empty = Segment {
        len: 0,
        width: Width::W8,
    };
    let plan = vec![in alloc; empty; count]?;
    Region::new(alloc, &plan)
}

#[test]
fn as_many_lists_as_may_be(rt: HostRuntime) -> Result<(), Fail> {
    let _region = empty_lists(rt.alloc(), 131072)?;
    Ok(())
}

/// Two cells of each width.
fn each_width(alloc: Global) -> Result<Region, AllocError>
    ensures { IfOk result (λ r. (r.lists ≡ (pos 0 ∷ pos 0 ∷ []) ∷ (pos 0 ∷ pos 0 ∷ []) ∷ (pos 0 ∷ pos 0 ∷ []) ∷ (pos 0 ∷ pos 0 ∷ []) ∷ []) × (r.widths ≡ W1 ∷ W2 ∷ W4 ∷ W8 ∷ [])) }
{
    Region::new(
        alloc,
        &[
            Segment {
                len: 2,
                width: Width::W1,
            },
            Segment {
                len: 2,
                width: Width::W2,
            },
            Segment {
                len: 2,
                width: Width::W4,
            },
            Segment {
                len: 2,
                width: Width::W8,
            },
        ],
    )
}

/// Sets the last cell of each list to the greatest value of its width, and the last of the words to the least.
fn fill_last(region: &mut Region)
    requires lists { region.old.lists ≡ (pos 0 ∷ pos 0 ∷ []) ∷ (pos 0 ∷ pos 0 ∷ []) ∷ (pos 0 ∷ pos 0 ∷ []) ∷ (pos 0 ∷ pos 0 ∷ []) ∷ [] }
    requires widths { region.old.widths ≡ W1 ∷ W2 ∷ W4 ∷ W8 ∷ [] }
    ensures { region.new.lists ≡ (pos 0 ∷ pos 255 ∷ []) ∷ (pos 0 ∷ pos 65535 ∷ []) ∷ (pos 0 ∷ pos 4294967295 ∷ []) ∷ (pos 0 ∷ negsuc (2 ^ 63 - 1) ∷ []) ∷ [] }
{
    region.set(0, 1, 255);
    region.set(1, 1, 65535);
    region.set(2, 1, 4294967295);
    region.set(3, 1, i64::MIN);
}

/// The last cell of the list that is lent, and those of the others.
fn last_cells(region: &mut Region) -> (i64, i64, i64, i64)
    requires { region.old.lists ≡ (pos 0 ∷ pos 255 ∷ []) ∷ (pos 0 ∷ pos 65535 ∷ []) ∷ (pos 0 ∷ pos 4294967295 ∷ []) ∷ (pos 0 ∷ negsuc (2 ^ 63 - 1) ∷ []) ∷ [] }
{
    let parts = region.window(2);
    let others = parts.others;
    (
        others.get(0, 1),
        others.get(1, 1),
        parts.cells.get(1),
        others.get(3, 1),
    )
}

#[test]
fn cells_of_each_width(rt: HostRuntime) -> Result<(), Fail> {
    let mut region = each_width(rt.alloc())?;
    fill_last(&mut region);
    assert_eq!(rt; region.get(3, 0), 0);
    assert_eq!(rt; last_cells(&mut region), (255, 65535, 4294967295, i64::MIN));
    Ok(())
}
