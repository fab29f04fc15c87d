// The pixel at a point between the cells of a lens table. It is ours: the Rust's works in f32, with other bits.
#![tactic(auto)]

ghost use Rattle.std.specs.Prelude.{◌≡◌, ◌+◌, ◌*◌, ◌<◌, length, ◌==◌};
ghost use Rattle.region.specs.Size.{Sized};
ghost use Rattle.lookup.specs.Lookup.{index, outside, neighbour, spot, between, blended, cell, number_at, pixel_at, looked_up, spread, admitted, lookup};
ghost use Rattle.lookup.specs.Asked.{Number, Inside, Reaches, Whole, Taken};

use lens::{Pixel, Point, Refusal};
use region::Region;

// Where an index lies, across or down: the cell of its whole part, that cell's neighbour, and how far it is from the
// one to the other.
#[derive(Clone, Copy)]
struct Spot {
    first: usize,
    second: usize,
    part: f64,
}

// How many increments x lies from the lower edge.
fn index(x: f64, lower: f64, by: f64) -> f64
    ensures { result ≡ index x lower by }
{
    (x - lower) / by
}

// Whether an index lies below the first of so many cells or above the last.
fn outside(i: f64, cells: usize) -> bool
    requires { 0 < cells }
    ensures { result ≡ outside i cells }
{
    i < 0.0 || region::float(cells - 1) < i
}

// The cell after cell n; after the last one that cell itself.
fn neighbour(n: usize, cells: usize) -> usize
    requires { n < cells }
    ensures { result ≡ neighbour n cells }
{
    if n + 1 < cells { n + 1 } else { cells - 1 }
}

// An index that isn't outside, taken apart.
fn spot_of(i: f64, cells: usize) -> Spot
    requires { Inside i cells }
    ensures { result ≡ spot i cells }
{
    let first = std::num::truncating_f64_to_u64(i) as usize;
    Spot {
        first,
        second: neighbour(first, cells),
        part: i - region::float(first),
    }
}

// From c to d by the fraction a.
fn between(c: f64, d: f64, a: f64) -> f64
    ensures { result ≡ between c d a }
{
    c + a * (d - c)
}

// Among four numbers: across in each row, and from what the upper row gives to what the lower does.
fn blended(c00: f64, c10: f64, c01: f64, c11: f64, a: f64, b: f64) -> f64
    ensures { result ≡ blended c00 c10 c01 c11 a b }
{
    between(between(c00, c10, a), between(c01, c11, a), b)
}

// Number k of cell (u, v), 0 or 1, as an f64.
fn cell(table: &[f32], width: usize, k: usize, u: usize, v: usize) -> f64
    requires { 2 * (v * width + u) + k < length table.now }
    ensures { result ≡ cell table.now width k u v }
{
    std::num::f32_to_f64_with_nan(table[2 * (v * width + u) + k])
}

// Number k of the pixel at two spots.
fn number_at(table: &[f32], width: usize, k: usize, across: Spot, down: Spot) -> f64
    requires { (k < 2) × Reaches (length table.now) width across down }
    ensures { result ≡ number_at table.now width k across down }
{
    blended(
        cell(table, width, k, across.first, down.first),
        cell(table, width, k, across.second, down.first),
        cell(table, width, k, across.first, down.second),
        cell(table, width, k, across.second, down.second),
        across.part,
        down.part,
    )
}

// The pixel at two spots.
fn pixel_at(table: &[f32], width: usize, across: Spot, down: Spot) -> Pixel
    requires { Reaches (length table.now) width across down }
    ensures { result ≡ pixel_at table.now width across down }
{
    Pixel(
        number_at(table, width, 0, across, down),
        number_at(table, width, 1, across, down),
    )
}

// 9 for an index outside; else the pixel, or 11.
fn looked_up(table: &[f32], width: usize, height: usize, i: f64, j: f64) -> Result<Pixel, Refusal>
    requires { Whole (length table.now) width height × Number i × Number j }
    ensures { result ≡ looked_up table.now width height i j }
{
    if outside(i, width) || outside(j, height) {
        return Err(Refusal::OutsideTable);
    }
    lens::finite_pixel(pixel_at(table, width, spot_of(i, width), spot_of(j, height)))
}

// 8 or 11 for the increments, which are worked out once; then by the indices.
fn spread(
    table: &[f32],
    region: Region,
    width: usize,
    height: usize,
    point: Point,
) -> Result<Pixel, Refusal>
    requires { Taken (length table.now) region width height point }
    ensures { result ≡ spread table.now region width height point }
{
    let by = region::increments_of(region, width, height);
    region::wrong(by)?;
    looked_up(
        table,
        width,
        height,
        index(point.0, region.left, by.0),
        index(point.1, region.top, by.1),
    )
}

// 7, of a size that is taken.
fn measured(places: usize, width: usize, height: usize) -> bool
    requires { Sized width height }
    ensures { result ≡ (places == 2 * (width * height)) }
{
    places == 2 * (width * height)
}

// 4, then 6, then 7.
fn admitted(
    places: usize,
    region: Region,
    width: usize,
    height: usize,
    point: Point,
) -> Result<(), Refusal>
    ensures { result ≡ admitted places region width height point }
{
    if !region::finite_region(region) || !lens::both_finite(point.0, point.1) {
        return Err(Refusal::NotFinite);
    }
    if !region::sized(width, height) {
        return Err(Refusal::WrongSize);
    }
    if measured(places, width, height) {
        Ok(())
    } else {
        Err(Refusal::WrongLength)
    }
}

// The pixel at a point, between the four cells around it.
pub fn lookup(
    table: &[f32],
    region: Region,
    width: usize,
    height: usize,
    point: Point,
) -> Result<Pixel, Refusal>
    ensures { result ≡ lookup table.now region width height point }
{
    admitted(table.len(), region, width, height, point)?;
    spread(table, region, width, height, point)
}
