// OpenCV's twelve-coefficient model, bc12: Brown-Conrady, and a thin prism that shifts what it gives. The Rust has no
// such model, so the order of operations is ours: specs/ThinPrism.antt has it. Everything that isn't the prism's is
// bc's. None refuses: what isn't finite is for the camera to judge.
#![tactic(auto)]

ghost use Rattle.std.specs.Prelude.{◌≡◌};
ghost use Rattle.thin_prism.specs.ThinPrism.{distortion, distort, prism_slopes_at, dx_distort_x, dx_distort_params, f_xy, step_from, newton, undistort};

use brown_conrady::{BrownConradyParams, Offset, Search};
use lens::{Jacobian, Pixel, Point, Settled};

// The sixteen parameters: bc's twelve, then the prism's four. What goes with r² stands together, and what goes with r⁴,
// so that the processor takes both coordinates' in one load; a file and C have s1, s2, s3, s4.
#[derive(Clone, Copy)]
pub struct ThinPrismParams {
    pub bc: BrownConradyParams,
    pub s1: f64,
    pub s3: f64,
    pub s2: f64,
    pub s4: f64,
}

// Where the lens sends a point, on the z=1 plane too. The prism is added last, so that one of zeros adds but zeros.
fn distortion(params: ThinPrismParams, point: Point) -> Point
    ensures { result ≡ distortion params point }
{
    let d = brown_conrady::distortion(params.bc, point);
    let r2 = lens::squared_radius(point.0, point.1);
    let r4 = r2 * r2;
    Point(
        d.0 + params.s1 * r2 + params.s2 * r4,
        d.1 + params.s3 * r2 + params.s4 * r4,
    )
}

// The pixel of a point.
pub fn distort(params: ThinPrismParams, point: Point) -> Pixel
    ensures { result ≡ distort params point }
{
    affine::distort(
        brown_conrady::affine_params(params.bc),
        distortion(params, point),
    )
}

// The derivatives of what the prism adds, by x and y.
#[derive(Clone, Copy)]
struct PrismSlopes {
    ux: f64,
    uy: f64,
    vx: f64,
    vy: f64,
}

// The same at a point.
fn prism_slopes_at(params: ThinPrismParams, point: Point) -> PrismSlopes
    ensures { result ≡ prism_slopes_at params point }
{
    let r2 = lens::squared_radius(point.0, point.1);
    let u = 2.0 * (params.s1 + 2.0 * params.s2 * r2);
    let v = 2.0 * (params.s3 + 2.0 * params.s4 * r2);
    PrismSlopes {
        ux: u * point.0,
        uy: u * point.1,
        vx: v * point.0,
        vy: v * point.1,
    }
}

// The derivative of distort by the point.
pub fn dx_distort_x(params: ThinPrismParams, point: Point) -> Jacobian
    ensures { result ≡ dx_distort_x params point }
{
    let fx = params.bc.fx;
    let fy = params.bc.fy;
    let s = brown_conrady::slopes_at(params.bc, point);
    let t = prism_slopes_at(params, point);
    lens::two_columns(
        s.c7 * fx * s.ux + t.ux * fx,
        s.c7 * fx * s.uy + t.uy * fx,
        s.c7 * fy * s.vx + t.vx * fy,
        s.c7 * fy * s.vy + t.vy * fy,
    )
}

// The derivative of distort by fx, fy, cx, cy, k1, k2, p1, p2, k3, k4, k5, k6, s1, s2, s3 and s4, which fills the
// record. From k1 to k6 it is bc's; stored one by one, as there.
pub fn dx_distort_params(params: ThinPrismParams, point: Point) -> Jacobian
    ensures { result ≡ dx_distort_params params point }
{
    let bc = brown_conrady::dx_distort_params(params.bc, point).entries;
    let d = distortion(params, point);
    let r2 = lens::squared_radius(point.0, point.1);
    let r4 = r2 * r2;
    let mut entries = [0.0; lens::ENTRIES];
    entries[0] = d.0;
    entries[2] = 1.0;
    entries[4] = bc[4];
    entries[5] = bc[5];
    entries[6] = bc[6];
    entries[7] = bc[7];
    entries[8] = bc[8];
    entries[9] = bc[9];
    entries[10] = bc[10];
    entries[11] = bc[11];
    entries[12] = r2 * params.bc.fx;
    entries[13] = r4 * params.bc.fx;
    entries[17] = d.1;
    entries[19] = 1.0;
    entries[20] = bc[16];
    entries[21] = bc[17];
    entries[22] = bc[18];
    entries[23] = bc[19];
    entries[24] = bc[20];
    entries[25] = bc[21];
    entries[26] = bc[22];
    entries[27] = bc[23];
    entries[30] = r2 * params.bc.fy;
    entries[31] = r4 * params.bc.fy;
    Jacobian {
        entries,
        columns: 16,
    }
}

// How far the lens misses `distorted` when it sends xy.
fn f_xy(params: ThinPrismParams, distorted: Point, xy: Point) -> Offset
    ensures { result ≡ f_xy params distorted xy }
{
    let d = distortion(params, xy);
    Offset(d.0 - distorted.0, d.1 - distorted.1)
}

// Newton's step at xy.
fn step_from(params: ThinPrismParams, distorted: Point, xy: Point) -> Offset
    ensures { result ≡ step_from params distorted xy }
{
    let f = f_xy(params, distorted, xy);
    let s = brown_conrady::slopes_at(params.bc, xy);
    let t = prism_slopes_at(params, xy);
    brown_conrady::solve(
        s.c7 * s.ux + t.ux,
        s.c7 * s.uy + t.uy,
        s.c7 * s.vx + t.vx,
        s.c7 * s.vy + t.vy,
        f,
    )
}

// Newton from `distorted` on, to the point that the lens sends there. As bc's, a step is tested before it is taken, and
// a small one ends it.
fn newton(params: ThinPrismParams, distorted: Point) -> Search
    ensures { result ≡ newton params distorted }
{
    let mut xy = distorted;
    for updates in 0..brown_conrady::LIMIT {
        let step = step_from(params, distorted, xy);
        if brown_conrady::small(step) {
            return Search {
                xy,
                updates,
                ended: true,
            };
        }
        xy = Point(xy.0 - step.0, xy.1 - step.1);
    }
    Search {
        xy,
        updates: brown_conrady::LIMIT,
        ended: false,
    }
}

// The point of a pixel. The flag says whether the lens sends it back to within EPS.
pub fn undistort(params: ThinPrismParams, pixel: Pixel) -> Settled
    ensures { result ≡ undistort params pixel }
{
    let undistorted = affine::undistort(brown_conrady::affine_params(params.bc), pixel);
    let distorted = undistorted.point;
    let at = newton(params, distorted);
    let xy = at.xy;
    Settled {
        point: xy,
        updates: at.updates,
        flag: brown_conrady::small(f_xy(params, distorted, xy)),
    }
}
