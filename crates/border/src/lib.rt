// The border of an image, half a pixel outside it: its pixels in the order they are swept, the edges of the points
// found there, and twice the box of the edges, which is a table's region.
#![tactic(auto)]

ghost use Rattle.std.specs.Prelude.{◌≡◌};
ghost use Rattle.border.specs.Border.{before, across, along, samples, border_at};
ghost use Rattle.border.specs.Edges.{lowered, raised, widened, edges_after, doubled};

use lens::{Pixel, Point};
use region::Region;

// Half a pixel before pixel n.
fn before(n: usize) -> f64
    ensures { result ≡ before n }
{
    region::float(n) - 0.5
}

// Of two opposite sides that are swept in turn, where the n-th sample lies across and along them. The far side is at
// pixel `far`.
fn across(n: usize, far: usize) -> f64
    ensures { result ≡ across n far }
{
    if n % 2 == 0 { -0.5 } else { before(far) }
}

fn along(n: usize) -> f64
    ensures { result ≡ along n }
{
    before(n / 2)
}

// How many samples the border has. Sizes of 32 bits, so that no sum of them wraps.
pub fn samples(width: u32, height: u32) -> usize
    ensures { result ≡ samples width height }
{
    2 * (width as usize) + 2 * (height as usize)
}

// The pixel of the n-th border sample: of the top and the bottom first, and then of the left and the right between
// their corners. Behind the last sample the corner stands for all, so that every number has a pixel, though only
// samples are asked about. Halves are compared, as twice a width may be no usize.
pub fn border_pixel(width: usize, height: usize, n: usize) -> Pixel
    ensures { result ≡ border_at width height n }
{
    if n / 2 <= width {
        return Pixel(along(n), across(n, height));
    }
    // from the left's first corner on, which is left out
    let m = n - 2 * width;
    if m / 2 < height {
        return Pixel(across(m, width), along(m));
    }
    Pixel(-0.5, -0.5)
}

// An edge moved outward to x, if x is beyond it. An equal one stays.
fn lowered(edge: f64, x: f64) -> f64
    ensures { result ≡ lowered edge x }
{
    if x < edge { x } else { edge }
}

// The same, upward.
fn raised(edge: f64, x: f64) -> f64
    ensures { result ≡ raised edge x }
{
    if edge < x { x } else { edge }
}

// The edges with one more point inside.
fn widened(edges: Region, point: Point) -> Region
    ensures { result ≡ widened edges point }
{
    Region {
        left: lowered(edges.left, point.0),
        top: lowered(edges.top, point.1),
        right: raised(edges.right, point.0),
        bottom: raised(edges.bottom, point.1),
    }
}

// The edges after a point: the first point is all four.
pub fn edges_after(done: usize, edges: Region, point: Point) -> Region
    ensures { result ≡ edges_after done edges point }
{
    if done == 0 {
        Region {
            left: point.0,
            top: point.1,
            right: point.0,
            bottom: point.1,
        }
    } else {
        widened(edges, point)
    }
}

// Twice the box of the edges, around the same middle.
pub fn doubled(edges: Region) -> Region
    ensures { result ≡ doubled edges }
{
    let mid_x = (edges.left + edges.right) / 2.0;
    let mid_y = (edges.top + edges.bottom) / 2.0;
    let range_x = edges.right - edges.left;
    let range_y = edges.bottom - edges.top;
    Region {
        left: mid_x - range_x,
        top: mid_y - range_y,
        right: mid_x + range_x,
        bottom: mid_y + range_y,
    }
}
