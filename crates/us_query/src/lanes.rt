//! The rows or the columns of a matrix, spread evenly over lanes.
ghost use Rattle.std.specs.Prelude.{◌≡◌, ◌+◌, ◌*◌, ◌^◌, ◌<◌, ◌≤◌, [], ◌∷◌, ◌++◌, All, IfOk, OnOk, List, length, map, nat_lt, slice_get, slice_index_or, slice_set, sum, ℕ};
ghost use Rattle.std.proofs.Common.{replicate};
ghost use Rattle.std.specs.List.{IsFirstBest, range_with_len};
ghost use Rattle.us_expr.specs.declared.queries.Axis.{Axis};
ghost use Rattle.us_format.specs.Lists.{nth};
ghost use Rattle.us_format.specs.Matrix.{Entry, indices};
ghost use Rattle.us_format.specs.Program.{entries_in, shape_in};
ghost use Rattle.us_format.specs.Queries.{empty_lanes, plus_one};
ghost use Rattle.us_query.specs.Lanes.{AreWeights, IsPlaced, IsTableOf, cell_in, extent_in, lane_in, lanes_after, numbers_in, slot_in, spread, with_index};

use crate::weights::{weights, zeros};
use std::alloc::{AllocError, Global};
use std::marker::Model;
use us_expr::Axis;
use us_matrix::Matrix;

// The lane of an index, and how many indices stand before it there.
#[derive(Clone, Copy)]
struct Place {
    lane: u32,
    slot: u32,
}

/// The rows or the columns of a matrix in lanes. Contracts see the list of indices of each lane, and how many indices
/// there are.
#[derive(Drop)]
pub struct LaneTable {
    lanes: Vec<Vec<u32>>,
    places: Vec<Place>,
    extent: u32,
}

impl Model for LaneTable {
    ghost use Rattle.std.specs.Prelude.{◌≡◌, length};
    ghost use Rattle.us_query.specs.Lanes.{IsPlaced, Lanes, extent_in, numbers_in};

    ghost Value = { Lanes };

    ghost view = { λ t. record { lanes = numbers_in t.lanes.items; count = length t.places.items } };

    ghost invariant = { λ t. IsPlaced (numbers_in t.lanes.items) t.places.items × (t.extent ≡ extent_in (numbers_in t.lanes.items)) };
}

impl LaneTable {
    /// The greatest number of indices in a lane.
    pub fn extent(&self) -> u32
        ensures { result ≡ extent_in self.now.lanes }
    {
        self.extent
    }

    /// The lane of an index.
    pub fn lane(&self, at: u32) -> u32
        requires { at < self.now.count }
        ensures { result ≡ lane_in self.now.lanes at }
    {
        self.places[at as usize].lane
    }

    /// How many indices stand before an index in its lane.
    pub fn slot(&self, at: u32) -> u32
        requires { at < self.now.count }
        ensures { result ≡ slot_in self.now.lanes at }
    {
        self.places[at as usize].slot
    }

    /// For each lane so many cells as the extent says: at each slot its index plus 1, and 0 where there is none. Fails
    /// only where memory is wanting.
    pub fn rows(&self, alloc: Global) -> Result<Vec<u32>, AllocError>
        requires { length self.now.lanes * extent_in self.now.lanes ≤ 67108864 }
        ensures { IfOk result (λ cells. cells.items ≡ map (cell_in self.now.lanes) (range_with_len 0 (length self.now.lanes * extent_in self.now.lanes))) }
    {
        cells(alloc, &self.lanes, self.extent as usize)
    }
}

// The index at a slot of a lane plus 1, or 0.
fn cell(lane: &[u32], slot: usize) -> u32
    requires { All (λ a. a < 67108864) lane.now }
    ensures { result ≡ plus_one (slice_get lane.now slot) }
{
    match lane.get(slot) {
        Some(index) => *index + 1,
        None => 0,
    }
}

// The cells of all lanes.
fn cells(alloc: Global, lanes: &[Vec<u32>], extent: usize) -> Result<Vec<u32>, AllocError>
    requires extent { extent ≡ extent_in (numbers_in lanes.now) }
    requires few { length lanes.now * extent ≤ 67108864 }
    requires below { All (λ lane. All (λ a. a < 67108864) lane) (numbers_in lanes.now) }
    ensures { IfOk result (λ cells. cells.items ≡ map (cell_in (numbers_in lanes.now)) (range_with_len 0 (length lanes.now * extent))) }
{
    let mut cells = Vec::new(alloc);
    for x in 0..lanes.len() * extent {
        cells.push(cell(&lanes[x / extent], x % extent))?;
    }
    Ok(cells)
}

// The first lane of least load.
fn lightest(loads: &[usize]) -> usize
    requires { 0 < length loads.now }
    ensures { IsFirstBest nat_lt loads.now (length loads.now) result }
{
    let mut best = 0;
    for lane in 1..loads.len() {
        if loads[lane] < loads[best] {
            best = lane;
        }
    }
    best
}

// How many indices a lane has.
fn length_of(lanes: &[Vec<u32>], lane: usize) -> usize
    requires { lane < length lanes.now }
    ensures { result ≡ length (nth (numbers_in lanes.now) lane) }
{
    lanes[lane].len()
}

// Adds an index at the end of a lane.
fn add(lanes: &mut [Vec<u32>], lane: usize, index: u32) -> Result<(), AllocError>
    requires { lane < length lanes.old }
    ensures { OnOk result (numbers_in lanes.new ≡ with_index (numbers_in lanes.old) lane index) }
{
    let indices = &mut lanes[lane];
    indices.push(index)?;
    Ok(())
}

// Puts an index into the first lane of least load.
fn put(
    lanes: &mut [Vec<u32>],
    loads: &mut [usize],
    index: u32,
    weight: usize,
) -> Result<Place, AllocError>
    requires some { 0 < length loads.old }
    requires equal { length lanes.old ≡ length loads.old }
    requires narrow { length lanes.old ≤ 64 }
    requires short { All (λ lane. length lane < 2 ^ 32) (numbers_in lanes.old) }
    requires total { sum loads.old + weight < 2 ^ 64 }
    ensures lightest { IfOk result (λ p. IsFirstBest nat_lt loads.old (length loads.old) p.lane) }
    ensures slot { IfOk result (λ p. p.slot ≡ length (nth (numbers_in lanes.old) p.lane)) }
    ensures lanes { IfOk result (λ p. numbers_in lanes.new ≡ with_index (numbers_in lanes.old) p.lane index) }
    ensures loads { IfOk result (λ p. loads.new ≡ slice_set loads.old p.lane (slice_index_or loads.old p.lane 0 + weight)) }
{
    let lane = lightest(loads);
    let slot = length_of(lanes, lane) as u32;
    add(lanes, lane, index)?;
    loads[lane] += weight;
    Ok(Place {
        lane: lane as u32,
        slot,
    })
}

// Puts all indices in turn into lanes that are empty.
fn fill(
    alloc: Global,
    lanes: &mut [Vec<u32>],
    loads: &mut [usize],
    weights: &[usize],
) -> Result<Vec<Place>, AllocError>
    requires some { 0 < length lanes.old }
    requires narrow { length lanes.old ≤ 64 }
    requires empty { numbers_in lanes.old ≡ empty_lanes (length lanes.old) }
    requires loads { loads.old ≡ replicate (length lanes.old) 0 }
    requires few { length weights.now ≤ 67108864 }
    requires total { sum weights.now < 2 ^ 64 }
    ensures count { IfOk result (λ ps. length ps.items ≡ length weights.now) }
    ensures placed { IfOk result (λ ps. IsPlaced (numbers_in lanes.new) ps.items) }
    ensures lanes { OnOk result ((m : List Entry) (axis : Axis) → AreWeights m axis weights.now → numbers_in lanes.new ≡ lanes_after m axis (length lanes.old) (length weights.now)) }
{
    let mut places = Vec::with_capacity(alloc, weights.len())?;
    for (index, weight) in weights.iter().enumerate() {
        let place = put(lanes, loads, index as u32, *weight)?;
        places.push(place)?;
    }
    Ok(places)
}

// So many lanes without an index.
fn empty(alloc: Global, count: usize) -> Result<Vec<Vec<u32>>, AllocError>
    ensures { IfOk result (λ v. numbers_in v.items ≡ empty_lanes count) }
{
    let mut lanes = Vec::new(alloc);
    for _ in 0..count {
        lanes.push(Vec::new(alloc))?;
    }
    Ok(lanes)
}

// The greatest number of indices in a lane.
fn longest(lanes: &[Vec<u32>]) -> u32
    requires { All (λ lane. length lane < 2 ^ 32) (numbers_in lanes.now) }
    ensures { result ≡ extent_in (numbers_in lanes.now) }
{
    let mut most = 0;
    for lane in 0..lanes.len() {
        most = most.max(length_of(lanes, lane) as u32);
    }
    most
}

// The table of indices with these weights.
fn table(alloc: Global, weights: &[usize], lanes: usize) -> Result<LaneTable, AllocError>
    requires some { (0 < lanes) × (lanes ≤ 64) }
    requires few { length weights.now ≤ 67108864 }
    requires total { sum weights.now < 2 ^ 64 }
    ensures { IfOk result (IsTableOf weights.now lanes) }
{
    let mut lists = empty(alloc, lanes)?;
    let mut loads = zeros(alloc, lanes)?;
    let places = fill(alloc, &mut lists, &mut loads, weights)?;
    let extent = longest(&lists);
    Ok(LaneTable {
        lanes: lists,
        places,
        extent,
    })
}

/// The rows, or the columns, in lanes: each in turn goes to the end of the first lane of least load, where the load of
/// a lane is how many entries its indices have. Fails only where memory is wanting.
pub fn schedule(
    alloc: Global,
    matrix: &Matrix,
    axis: Axis,
    lanes: u32,
) -> Result<LaneTable, AllocError>
    requires few { indices axis (shape_in matrix.now) ≤ 67108864 }
    requires lanes { (0 < lanes) × (lanes ≤ 64) }
    ensures { IfOk result (λ t. t ≡ spread (entries_in matrix.now) (shape_in matrix.now) axis lanes) }
{
    let weights = weights(alloc, matrix, axis)?;
    table(alloc, &weights, lanes as usize)
}
