// The box that a table covers on the z=1 plane, its size in cells and how far apart their points lie: what building a
// table and reading one share.
#![tactic(auto)]

ghost use Rattle.std.specs.Prelude.{◌≡◌, ◌-◌};
ghost use Rattle.lens.specs.Finite.{all_finite};
ghost use Rattle.lens.specs.Judgement.{verdict};
ghost use Rattle.region.specs.Region.{four, increments, flat, wrong};
ghost use Rattle.region.specs.Size.{float, within, sized};

use lens::Refusal;

// The least and the largest width and height.
pub const LEAST: usize = 2;

pub const MOST: usize = 4096;

// A box on the z=1 plane: lower and upper x are left and right, lower and upper y top and bottom.
#[derive(Clone, Copy)]
pub struct Region {
    pub left: f64,
    pub top: f64,
    pub right: f64,
    pub bottom: f64,
}

// How far apart two cells' points are, across and down.
#[derive(Clone, Copy)]
pub struct Increments(pub f64, pub f64);

// A count as an f64. One that a table has is cast: rounding two halves, as a larger one needs, costs three times as
// much.
pub fn float(n: usize) -> f64
    ensures { result ≡ float n }
{
    if n <= MOST {
        return n as f64;
    }
    std::num::nearest_u64_to_f64(n as u64)
}

// Whether a width or a height is taken.
fn within(n: usize) -> bool
    ensures { result ≡ within n }
{
    LEAST <= n && n <= MOST
}

// Whether a width and a height are taken.
pub fn sized(width: usize, height: usize) -> bool
    ensures { result ≡ sized width height }
{
    within(width) && within(height)
}

// Whether all four edges are finite.
pub fn finite_region(region: Region) -> bool
    ensures { result ≡ all_finite (four region) }
{
    lens::all_finite(&[region.left, region.top, region.right, region.bottom])
}

// The steps from the first of n cells to the last. Of no cell there are none, so that every size has increments, though
// only sizes that are taken are asked about.
fn steps(n: usize) -> usize
    ensures { result ≡ n - 1 }
{
    if n == 0 { 0 } else { n - 1 }
}

// The increments of a region over so many cells.
pub fn increments_of(region: Region, width: usize, height: usize) -> Increments
    ensures { result ≡ increments region width height }
{
    Increments(
        (region.right - region.left) / float(steps(width)),
        (region.bottom - region.top) / float(steps(height)),
    )
}

// Whether an increment is a number that isn't above 0.
fn flat(x: f64) -> bool
    ensures { result ≡ flat x }
{
    exact::is_finite(x) && x <= 0.0
}

// What is wrong with increments: 8, then 11.
pub fn wrong(by: Increments) -> Result<(), Refusal>
    ensures { result ≡ wrong by }
{
    if flat(by.0) || flat(by.1) {
        return Err(Refusal::IncrementNotPositive);
    }
    if lens::both_finite(by.0, by.1) {
        Ok(())
    } else {
        Err(Refusal::AnswerNotFinite)
    }
}
