// brown_conrady.rs: OpenCV's radial and tangential distortion. Its operations, in the Rust's order and by its names.
// None refuses: what isn't finite is for the camera to judge. What the Rust leaves undone, dx_distort_params, is ours:
// specs/Formula.antt has its order of operations, and proofs/Laws.antt that in exact arithmetic it is the derivative of
// distort.
#![tactic(auto)]

ghost use Rattle.std.specs.Prelude.{◌≡◌, ◌<◌};
ghost use Rattle.brown_conrady.specs.BrownConrady.{affine_params, distortion, distort, shared_at, slopes_at, dx_distort_x, f_xy, small, past, solve, step_from, limit, pass, newton, undistort};
ghost use Rattle.brown_conrady.specs.Formula.{parts_at, dx_distort_params};

use affine::AffineParams;
use lens::{Jacobian, Pixel, Point, Settled};

// The twelve parameters, in the Rust's order, which has k3 after p2. The Rust calls the last eight d0 d1 d2 k3 d4 d5 d6
// d7, and in dx_distort_x d3 for its k3: mind that its k3 is p2.
#[derive(Clone, Copy)]
pub struct BrownConradyParams {
    pub fx: f64,
    pub fy: f64,
    pub cx: f64,
    pub cy: f64,
    pub k1: f64,
    pub k2: f64,
    pub p1: f64,
    pub p2: f64,
    pub k3: f64,
    pub k4: f64,
    pub k5: f64,
    pub k6: f64,
}

// The first four, which are affine's.
pub fn affine_params(params: BrownConradyParams) -> AffineParams
    ensures { result ≡ affine_params params }
{
    AffineParams {
        fx: params.fx,
        fy: params.fy,
        cx: params.cx,
        cy: params.cy,
    }
}

// What distortion and dx_distort_params share, by the names of the Rust's distortion_impl: powers of the radius, what
// p1 and p2 multiply, the quotient's numerator, and 1 over its denominator.
#[derive(Clone, Copy)]
pub struct Parts {
    pub r2: f64,
    pub r4: f64,
    pub r6: f64,
    pub a1: f64,
    pub a2: f64,
    pub a3: f64,
    pub cdist: f64,
    pub icdist2: f64,
}

// The same at a point.
pub fn parts_at(params: BrownConradyParams, point: Point) -> Parts
    ensures { result ≡ parts_at params point }
{
    let x = point.0;
    let y = point.1;
    let r2 = lens::squared_radius(x, y);
    let r4 = r2 * r2;
    let r6 = r4 * r2;
    Parts {
        r2,
        r4,
        r6,
        a1: 2.0 * x * y,
        a2: r2 + 2.0 * x * x,
        a3: r2 + 2.0 * y * y,
        cdist: 1.0 + params.k1 * r2 + params.k2 * r4 + params.k3 * r6,
        icdist2: 1.0 / (1.0 + params.k4 * r2 + params.k5 * r4 + params.k6 * r6),
    }
}

// Where the lens sends a point, on the z=1 plane too: the Rust's distortion_impl.
pub fn distortion(params: BrownConradyParams, point: Point) -> Point
    ensures { result ≡ distortion params point }
{
    let s = parts_at(params, point);
    let xd0 = point.0 * s.cdist * s.icdist2 + params.p1 * s.a1 + params.p2 * s.a2;
    let yd0 = point.1 * s.cdist * s.icdist2 + params.p1 * s.a3 + params.p2 * s.a1;
    Point(xd0, yd0)
}

// The pixel of a point.
pub fn distort(params: BrownConradyParams, point: Point) -> Pixel
    ensures { result ≡ distort params point }
{
    affine::distort(affine_params(params), distortion(params, point))
}

// What the four slopes share, by the names of the Rust's Newton. In its dx_distort_x they are c7, c8, c14, c15, c16 and
// c21.
#[derive(Clone, Copy)]
struct Shared {
    c5: f64,
    c6: f64,
    c15: f64,
    c16: f64,
    c17: f64,
    c20: f64,
}

// What the slopes share at a point. The Rust has these lines and those of slopes_at twice, with sides swapped here and
// there; the law `second_copy` says that both copies give the same bits, so one is enough.
fn shared_at(params: BrownConradyParams, point: Point) -> Shared
    ensures { result ≡ shared_at params point }
{
    let c2 = lens::squared_radius(point.0, point.1);
    let c3 = c2 * c2;
    let c4 = c3 * c2;
    let c5 = c2 * params.k4 + c3 * params.k5 + c4 * params.k6 + 1.0;
    let c10 = 2.0 * c2;
    let c11 = 3.0 * c3;
    let c17 = c2 * params.k1 + c3 * params.k2 + c4 * params.k3 + 1.0;
    let c15 = 2.0 * (c10 * params.k5 + c11 * params.k6 + params.k4) * c17;
    let c16 = 2.0 * c10 * params.k2 + 2.0 * c11 * params.k3 + 2.0 * params.k1;
    let c19 = point.0 * point.1;
    let c20 = -c15 * c19 + c16 * c19 * c5;
    Shared {
        c5,
        c6: c5 * c5,
        c15,
        c16,
        c17,
        c20,
    }
}

// The derivatives of distortion, u and v by x and y: c7 times each of the last four.
#[derive(Clone, Copy)]
pub struct Slopes {
    pub c7: f64,
    pub ux: f64,
    pub uy: f64,
    pub vx: f64,
    pub vy: f64,
}

// The slopes at a point, for Newton and for dx_distort_x. Each of the two multiplies by c7 (there c17) in its own way.
pub fn slopes_at(params: BrownConradyParams, point: Point) -> Slopes
    ensures { result ≡ slopes_at params point }
{
    let a = point.0;
    let b = point.1;
    let s = shared_at(params, point);
    let c0 = a * a;
    let c1 = b * b;
    let c8 = a * params.p2;
    let c9 = 2.0 * params.p1;
    let c18 = b * params.p2;
    Slopes {
        c7: 1.0 / s.c6,
        ux: -c0 * s.c15 + s.c5 * (c0 * s.c16 + s.c17) + s.c6 * (b * c9 + 6.0 * c8),
        uy: s.c20 + s.c6 * (a * c9 + 2.0 * c18),
        vx: s.c20 + s.c6 * (2.0 * a * params.p1 + 2.0 * c18),
        vy: -c1 * s.c15 + s.c5 * (c1 * s.c16 + s.c17) + s.c6 * (6.0 * b * params.p1 + 2.0 * c8),
    }
}

// The derivative of distort by the point.
pub fn dx_distort_x(params: BrownConradyParams, point: Point) -> Jacobian
    ensures { result ≡ dx_distort_x params point }
{
    let s = slopes_at(params, point);
    let c18 = s.c7 * params.fx;
    let c22 = s.c7 * params.fy;
    lens::two_columns(c18 * s.ux, c18 * s.uy, c22 * s.vx, c22 * s.vy)
}

// The derivative of distort by fx, fy, cx, cy, k1, k2, p1, p2, k3, k4, k5 and k6. Stored one by one: the loop of
// `lens::two_rows` costs more than all that is worked out here.
pub fn dx_distort_params(params: BrownConradyParams, point: Point) -> Jacobian
    ensures { result ≡ dx_distort_params params point }
{
    let s = parts_at(params, point);
    let d = distortion(params, point);
    let u_cdist = point.0 * (s.icdist2 * params.fx);
    let v_cdist = point.1 * (s.icdist2 * params.fy);
    let u_cdist2 = -(point.0 * s.cdist * s.icdist2 * (s.icdist2 * params.fx));
    let v_cdist2 = -(point.1 * s.cdist * s.icdist2 * (s.icdist2 * params.fy));
    let mut entries = [0.0; lens::ENTRIES];
    entries[0] = d.0;
    entries[2] = 1.0;
    entries[4] = u_cdist * s.r2;
    entries[5] = u_cdist * s.r4;
    entries[6] = s.a1 * params.fx;
    entries[7] = s.a2 * params.fx;
    entries[8] = u_cdist * s.r6;
    entries[9] = u_cdist2 * s.r2;
    entries[10] = u_cdist2 * s.r4;
    entries[11] = u_cdist2 * s.r6;
    entries[13] = d.1;
    entries[15] = 1.0;
    entries[16] = v_cdist * s.r2;
    entries[17] = v_cdist * s.r4;
    entries[18] = s.a3 * params.fy;
    entries[19] = s.a1 * params.fy;
    entries[20] = v_cdist * s.r6;
    entries[21] = v_cdist2 * s.r2;
    entries[22] = v_cdist2 * s.r4;
    entries[23] = v_cdist2 * s.r6;
    Jacobian {
        entries,
        columns: 12,
    }
}

// From one point to another: the Rust's f_xy and its step.
#[derive(Clone, Copy)]
pub struct Offset(pub f64, pub f64);

// How far the lens misses `distorted` when it sends xy.
fn f_xy(params: BrownConradyParams, distorted: Point, xy: Point) -> Offset
    ensures { result ≡ f_xy params distorted xy }
{
    let d = distortion(params, xy);
    Offset(d.0 - distorted.0, d.1 - distorted.1)
}

// The last f64 whose root is at most EPS: the f64 nearest to 1e-12. Another EPS has another, and the proof asks for it.
const EPS_SQUARED: f64 = 1e-12;

// Whether an offset's norm is at most EPS: the Rust's test of its step, and of what Newton leaves. The norm is a root,
// which in software costs more than all else in an update, and the small processor has 3 ms a frame. A squared norm is
// past EPS_SQUARED exactly where its root is past EPS, so no root is taken.
pub fn small(offset: Offset) -> bool
    ensures { result ≡ small offset }
{
    lens::squared_radius(offset.0, offset.1) <= EPS_SQUARED
}

// Whether it is past EPS, which a NaN isn't either.
pub fn past(offset: Offset) -> bool
    ensures { result ≡ past offset }
{
    EPS_SQUARED < lens::squared_radius(offset.0, offset.1)
}

// The inverse of the matrix a b above c d, times f.
pub fn solve(a: f64, b: f64, c: f64, d: f64, f: Offset) -> Offset
    ensures { result ≡ solve a b c d f }
{
    let z = 1.0 / (a * d - b * c);
    Offset(d * z * f.0 + -b * z * f.1, -c * z * f.0 + a * z * f.1)
}

// Newton's step at xy.
fn step_from(params: BrownConradyParams, distorted: Point, xy: Point) -> Offset
    ensures { result ≡ step_from params distorted xy }
{
    let f = f_xy(params, distorted, xy);
    let s = slopes_at(params, xy);
    solve(s.c7 * s.ux, s.c7 * s.uy, s.c7 * s.vx, s.c7 * s.vy, f)
}

// How many updates Newton may make.
pub const LIMIT: u32 = 50;

// Where Newton is, after how many updates, and whether the last pass ended it.
#[derive(Clone, Copy)]
pub struct Search {
    pub xy: Point,
    pub updates: u32,
    pub ended: bool,
}

// One pass: the step is tested before it is taken, and a small one ends Newton where it is.
fn pass(params: BrownConradyParams, distorted: Point, at: Search) -> Search
    requires { at.updates < limit }
    ensures { result ≡ pass params distorted at }
{
    let xy = at.xy;
    let step = step_from(params, distorted, xy);
    if small(step) {
        return Search {
            xy,
            updates: at.updates,
            ended: true,
        };
    }
    Search {
        xy: Point(xy.0 - step.0, xy.1 - step.1),
        updates: at.updates + 1,
        ended: false,
    }
}

// Newton from `distorted` on, to the point that the lens sends there.
fn newton(params: BrownConradyParams, distorted: Point) -> Search
    ensures { result ≡ newton params distorted }
{
    let mut at = Search {
        xy: distorted,
        updates: 0,
        ended: false,
    };
    for _done in 0..LIMIT {
        at = pass(params, distorted, at);
        if at.ended {
            return at;
        }
    }
    at
}

// The point of a pixel. The flag says whether the lens sends it back to within EPS; where it does not, the Rust warns.
pub fn undistort(params: BrownConradyParams, pixel: Pixel) -> Settled
    ensures { result ≡ undistort params pixel }
{
    let undistorted = affine::undistort(affine_params(params), pixel);
    let distorted = undistorted.point;
    let at = newton(params, distorted);
    let xy = at.xy;
    Settled {
        point: xy,
        updates: at.updates,
        flag: small(f_xy(params, distorted, xy)),
    }
}
