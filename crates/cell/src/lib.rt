// What one cell of a table holds: the pixel of its point, as two f32 or as two numbers of sixteen bits,
// or why there is none.
#![tactic(auto)]

ghost use Rattle.std.specs.Prelude.{◌≡◌, cond, ◌&&◌};
ghost use Rattle.std.specs.Float.Ieee.Scale.{finite};
ghost use Rattle.lens.specs.Distorted.{finite_pixel};
ghost use Rattle.engine.specs.Engine.{distort};
ghost use Rattle.cell.specs.Cell.{cell_point, of_pixel, cell_by, told};
ghost use Rattle.cell.specs.Kind.{Kind, f32s, i16s};

use camera::Camera;
use lens::{Pixel, Point, Refusal};
use region::{Increments, Region};

// A type of number that the cells of a table may hold two of, with its kind of cell.
pub trait CellNumber: Copy {
    ghost kind: { Kind Self };

    // A pixel as a cell of such numbers.
    fn from_pixel(pixel: Pixel) -> Result<(Self, Self), Refusal>
        ensures { told result ≡ of_pixel kind.holds (finite_pixel pixel) };
}

// Two f32s, each the nearest: 12 if one is infinite.
impl CellNumber for f32 {
    ghost kind = { f32s };

    fn from_pixel(pixel: Pixel) -> Result<(f32, f32), Refusal> {
        let a = narrow::narrow(pixel.0);
        let b = narrow::narrow(pixel.1);
        if both_finite32(a, b) {
            return Ok((a, b));
        }
        Err(refusal_of(pixel, Refusal::CellInfinite))
    }
}

// Two numbers of thirty-seconds of a pixel, each the nearest: 19 if one is too far for sixteen bits.
impl CellNumber for i16 {
    ghost kind = { i16s };

    fn from_pixel(pixel: Pixel) -> Result<(i16, i16), Refusal> {
        let (Some(i), Some(j)) = (
            thirty_seconds::thirty_seconds(pixel.0),
            thirty_seconds::thirty_seconds(pixel.1),
        ) else {
            return Err(refusal_of(pixel, Refusal::TooFar));
        };
        Ok((i, j))
    }
}

// Whether two f32s are numbers, and neither NaNs nor infinities: x - x is 0.0 then, and a NaN else, and the two share
// one comparison.
fn both_finite32(a: f32, b: f32) -> bool
    ensures { result ≡ (finite a && finite b) }
{
    let sum = (a - a) + (b - b);
    sum == sum
}

// Why a pixel is in no cell: 11 if it isn't finite, and else what its kind of cell says. Neither kind holds a pixel
// that isn't finite, so that only a refusal asks for that.
fn refusal_of(pixel: Pixel, kind: Refusal) -> Refusal
    ensures { result ≡ cond (finite pixel.0 && finite pixel.1) kind Refusal.AnswerNotFinite }
{
    if lens::both_finite(pixel.0, pixel.1) {
        return kind;
    }
    Refusal::AnswerNotFinite
}

// The point of the cell in column u and row v.
fn point_at(region: Region, by: Increments, u: usize, v: usize) -> Point
    ensures { result ≡ cell_point region by u v }
{
    Point(
        region.left + region::float(u) * by.0,
        region.top + region::float(v) * by.1,
    )
}

// The cell in column u and row v, of either kind.
pub fn cell_at<N: CellNumber>(
    camera: Camera,
    short: bool,
    region: Region,
    by: Increments,
    u: usize,
    v: usize,
) -> Result<(N, N), Refusal>
    ensures { told result ≡ cell_by (distort camera short) N.kind.holds region by u v }
{
    let point = point_at(region, by, u, v);
    if lens::both_finite(point.0, point.1) {
        return N::from_pixel(engine::distort(camera, short, point));
    }
    Err(Refusal::AnswerNotFinite)
}
