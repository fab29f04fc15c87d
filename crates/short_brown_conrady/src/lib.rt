// brown_conrady for cameras whose k4, k5 and k6 are zeros of either sign: the quotient is 1 there, and none is worked
// out. Each function gives what brown_conrady's gives, the sign of a zero aside: proofs/Laws.antt, for every point and
// pixel.
//
// Where a number on the way is NaN or infinite, the point is done again by brown_conrady. One test behind the work is
// enough: a sum, a difference or a product with such a number is such a number. No bound is needed beside it: while
// every number here is finite, those that only brown_conrady works out are ones, zeros and copies of these.
#![tactic(auto)]

ghost use Rattle.std.specs.Prelude.{◌≡◌, ◌<◌};
ghost use Rattle.brown_conrady.specs.BrownConrady.{limit};
ghost use Rattle.short_brown_conrady.specs.ShortBrownConrady.{no_quotient, distortion, distort, slopes_at, dx_distort_x, f_xy, step_from, pass, newton, undistort};

use brown_conrady::{BrownConradyParams, Offset, Search};
use lens::{Jacobian, Pixel, Point, Settled};

// Whether these functions may stand for brown_conrady's. It is a question to a camera, not to a point: ask it once.
pub fn no_quotient(params: BrownConradyParams) -> bool
    ensures { result ≡ no_quotient params }
{
    if exact::is_zero(params.k4) {
        if exact::is_zero(params.k5) {
            return exact::is_zero(params.k6);
        }
    }
    false
}

// Where the lens sends a point, on the z=1 plane too.
fn distortion(params: BrownConradyParams, point: Point) -> Point
    ensures { result ≡ distortion params point }
{
    let x = point.0;
    let y = point.1;
    let r2 = lens::squared_radius(x, y);
    let r4 = r2 * r2;
    let r6 = r4 * r2;
    let a1 = 2.0 * x * y;
    let a2 = r2 + 2.0 * x * x;
    let a3 = r2 + 2.0 * y * y;
    let cdist = 1.0 + params.k1 * r2 + params.k2 * r4 + params.k3 * r6;
    Point(
        x * cdist + params.p1 * a1 + params.p2 * a2,
        y * cdist + params.p1 * a3 + params.p2 * a1,
    )
}

// The pixel of a point.
pub fn distort(params: BrownConradyParams, point: Point) -> Pixel
    ensures { result ≡ distort params point }
{
    let pixel = affine::distort(
        brown_conrady::affine_params(params),
        distortion(params, point),
    );
    if exact::is_finite(pixel.0 + pixel.1) {
        return pixel;
    }
    brown_conrady::distort(params, point)
}

// The derivatives of distortion, u and v by x and y.
#[derive(Clone, Copy)]
struct Slopes {
    ux: f64,
    uy: f64,
    vx: f64,
    vy: f64,
}

// The slopes at a point, for Newton and for dx_distort_x.
fn slopes_at(params: BrownConradyParams, point: Point) -> Slopes
    ensures { result ≡ slopes_at params point }
{
    let a = point.0;
    let b = point.1;
    let c0 = a * a;
    let c1 = b * b;
    let c2 = c0 + c1;
    let c3 = c2 * c2;
    let c4 = c3 * c2;
    let c8 = a * params.p2;
    let c9 = 2.0 * params.p1;
    let c10 = 2.0 * c2;
    let c11 = 3.0 * c3;
    let c16 = 2.0 * c10 * params.k2 + 2.0 * c11 * params.k3 + 2.0 * params.k1;
    let c17 = c2 * params.k1 + c3 * params.k2 + c4 * params.k3 + 1.0;
    let c18 = b * params.p2;
    let c20 = c16 * (a * b);
    Slopes {
        ux: c0 * c16 + c17 + (b * c9 + 6.0 * c8),
        uy: c20 + (a * c9 + 2.0 * c18),
        vx: c20 + (2.0 * a * params.p1 + 2.0 * c18),
        vy: c1 * c16 + c17 + (6.0 * b * params.p1 + 2.0 * c8),
    }
}

// The derivative of distort by the point.
pub fn dx_distort_x(params: BrownConradyParams, point: Point) -> Jacobian
    ensures { result ≡ dx_distort_x params point }
{
    let s = slopes_at(params, point);
    let ux = params.fx * s.ux;
    let uy = params.fx * s.uy;
    let vx = params.fy * s.vx;
    let vy = params.fy * s.vy;
    if exact::is_finite(ux + uy + vx + vy) {
        return lens::two_columns(ux, uy, vx, vy);
    }
    brown_conrady::dx_distort_x(params, point)
}

// How far the lens misses `distorted` when it sends xy.
fn f_xy(params: BrownConradyParams, distorted: Point, xy: Point) -> Offset
    ensures { result ≡ f_xy params distorted xy }
{
    let d = distortion(params, xy);
    Offset(d.0 - distorted.0, d.1 - distorted.1)
}

// Newton's step, and the determinant that it divides by.
#[derive(Clone, Copy)]
struct Step {
    by: Offset,
    det: f64,
}

// Newton's step at xy.
fn step_from(params: BrownConradyParams, distorted: Point, xy: Point) -> Step
    ensures { result ≡ step_from params distorted xy }
{
    let f = f_xy(params, distorted, xy);
    let s = slopes_at(params, xy);
    let det = s.ux * s.vy - s.uy * s.vx;
    let z = 1.0 / det;
    Step {
        by: Offset(
            s.vy * z * f.0 + -s.uy * z * f.1,
            -s.vx * z * f.0 + s.ux * z * f.1,
        ),
        det,
    }
}

// Newton's search, and what is tested of its last pass: the determinant and the step's squared norm, added.
#[derive(Clone, Copy)]
struct Tracked {
    search: Search,
    last: f64,
}

// One pass, as brown_conrady's: the step is tested before it is taken, and a small one ends Newton where it is. Here a
// NaN does so too, from which only NaN would come. An infinite step makes the next a NaN.
fn pass(params: BrownConradyParams, distorted: Point, at: Tracked) -> Tracked
    requires { at.search.updates < limit }
    ensures { result ≡ pass params distorted at }
{
    let xy = at.search.xy;
    let step = step_from(params, distorted, xy);
    let last = step.det + lens::squared_radius(step.by.0, step.by.1);
    if brown_conrady::past(step.by) {
        return Tracked {
            search: Search {
                xy: Point(xy.0 - step.by.0, xy.1 - step.by.1),
                updates: at.search.updates + 1,
                ended: false,
            },
            last,
        };
    }
    Tracked {
        search: Search {
            xy,
            updates: at.search.updates,
            ended: true,
        },
        last,
    }
}

// Newton from `distorted` on, to the point that the lens sends there.
fn newton(params: BrownConradyParams, distorted: Point) -> Tracked
    ensures { result ≡ newton params distorted }
{
    let mut at = Tracked {
        search: Search {
            xy: distorted,
            updates: 0,
            ended: false,
        },
        last: 1.0,
    };
    for _done in 0..brown_conrady::LIMIT {
        at = pass(params, distorted, at);
        if at.search.ended {
            return at;
        }
    }
    at
}

// The point of a pixel. A NaN ends Newton, an infinite step leads to a point that isn't finite, and what isn't finite
// makes the step so, with one exception: an infinite determinant divides to a zero step, which ends Newton too. So the
// test is of what Newton leaves, and of the last pass.
pub fn undistort(params: BrownConradyParams, pixel: Pixel) -> Settled
    ensures { result ≡ undistort params pixel }
{
    let undistorted = affine::undistort(brown_conrady::affine_params(params), pixel);
    let distorted = undistorted.point;
    let at = newton(params, distorted);
    let xy = at.search.xy;
    let f = f_xy(params, distorted, xy);
    if exact::is_finite(f.0 + f.1 + at.last) {
        return Settled {
            point: xy,
            updates: at.search.updates,
            flag: brown_conrady::small(f),
        };
    }
    brown_conrady::undistort(params, pixel)
}
