// kannala_brandt.rs: the angle off the axis bent by a polynomial. Its four operations, in the Rust's order and by its
// names. Near the axis the Rust selects a plain answer, here by a branch; undistort refuses an angle past the tangent's
// limit. What isn't finite is for the camera to judge.
#![tactic(auto)]

ghost use Rattle.std.specs.Prelude.{◌≡◌, ◌<◌};
ghost use Rattle.arctan.specs.Arctangent.{arctangent};
ghost use Rattle.arctan.specs.Tangent.{tangent};
ghost use Rattle.lens.specs.Undistorted.{told};
ghost use Rattle.kannala_brandt.specs.KannalaBrandt.{powers, polynomial, scaling_of, distort, d_thd_wtr_th, step_from, limit, pass, newton, flag, sign_of, outward, undistort, terms_of, c13_of, c17_of, diagonal, off_axis, dx_distort_x, alpha_of, rows, dx_distort_params};

use lens::{Jacobian, Pixel, Point, Refusal, Settled};

// The eight parameters, in the Rust's order.
#[derive(Clone, Copy)]
pub struct KannalaBrandtParams {
    pub fx: f64,
    pub fy: f64,
    pub cx: f64,
    pub cy: f64,
    pub k0: f64,
    pub k1: f64,
    pub k2: f64,
    pub k3: f64,
}

// The even powers of an angle.
#[derive(Clone, Copy)]
pub struct EvenPowers {
    pub theta2: f64,
    pub theta4: f64,
    pub theta6: f64,
    pub theta8: f64,
}

// Where Newton stands: the angle, the updates made, and whether the last one was the last.
#[derive(Clone, Copy)]
pub struct Reached {
    pub th: f64,
    pub updates: u32,
    pub ended: bool,
}

// The most updates that Newton makes.
pub const LIMIT: u32 = 20;

fn powers(theta: f64) -> EvenPowers
    ensures { result ≡ powers theta }
{
    let theta2 = theta * theta;
    let theta4 = theta2 * theta2;
    EvenPowers {
        theta2,
        theta4,
        theta6: theta2 * theta4,
        theta8: theta4 * theta4,
    }
}

// What the lens makes of an angle, over the angle.
fn polynomial(params: KannalaBrandtParams, t: EvenPowers) -> f64
    ensures { result ≡ polynomial params t }
{
    1.0 + params.k0 * t.theta2 + params.k1 * t.theta4 + params.k2 * t.theta6 + params.k3 * t.theta8
}

// How far out a point goes, over its radius: 1 near the axis.
fn scaling_of(params: KannalaBrandtParams, radius_sq: f64) -> f64
    ensures { result ≡ scaling_of arctangent params radius_sq }
{
    if radius_sq <= lens::EPS {
        return 1.0;
    }
    let radius = root::root(radius_sq);
    let radius_inverse = 1.0 / radius;
    let theta = arctan::arctangent(radius);
    let r_distorted = theta * polynomial(params, powers(theta));
    r_distorted * radius_inverse
}

// The pixel of a point.
pub fn distort(params: KannalaBrandtParams, point: Point) -> Pixel
    ensures { result ≡ distort arctangent params point }
{
    let scaling = scaling_of(params, lens::squared_radius(point.0, point.1));
    Pixel(
        scaling * point.0 * params.fx + params.cx,
        scaling * point.1 * params.fy + params.cy,
    )
}

// The derivative of what the lens makes of an angle.
fn d_thd_wtr_th(params: KannalaBrandtParams, t: EvenPowers) -> f64
    ensures { result ≡ d_thd_wtr_th params t }
{
    1.0 + 3.0 * params.k0 * t.theta2
        + 5.0 * params.k1 * t.theta4
        + 7.0 * params.k2 * t.theta6
        + 9.0 * params.k3 * t.theta8
}

// Newton's step from th, for an angle that the lens makes rth of.
fn step_from(params: KannalaBrandtParams, rth: f64, th: f64) -> f64
    ensures { result ≡ step_from params rth th }
{
    let t = powers(th);
    let thd = th * polynomial(params, t);
    (thd - rth) / d_thd_wtr_th(params, t)
}

// One pass: the update first, and then the test, so that the step that passes is taken too.
fn pass(params: KannalaBrandtParams, rth: f64, at: Reached) -> Reached
    requires { at.updates < limit }
    ensures { result ≡ pass params rth at }
{
    let step = step_from(params, rth, at.th);
    Reached {
        th: at.th - step,
        updates: at.updates + 1,
        ended: exact::magnitude(step) <= lens::EPS,
    }
}

// Newton from the root of rth.
fn newton(params: KannalaBrandtParams, rth: f64) -> Reached
    ensures { result ≡ newton params rth }
{
    let mut at = Reached {
        th: root::root(rth),
        updates: 0,
        ended: false,
    };
    for _done in 0..LIMIT {
        at = pass(params, rth, at);
        if at.ended {
            return at;
        }
    }
    at
}

// Whether undistort settled: the last step passed its test, and not on the mirrored branch, whose angles are below 0.
fn flag(at: Reached) -> bool
    ensures { result ≡ flag at }
{
    at.ended && 0.0 < at.th
}

// Which way the point lies: a tangent that isn't above 0 has its sign turned.
fn sign_of(radius_undistorted: f64) -> f64
    ensures { result ≡ sign_of radius_undistorted }
{
    if radius_undistorted <= 0.0 { -1.0 } else { 1.0 }
}

// The point at the angle that Newton found, in the direction of (un, vn). An angle past the tangent's limit has none.
fn outward(at: Reached, rth: f64, un: f64, vn: f64) -> Result<Settled, Refusal>
    ensures { result ≡ outward (tangent at.th) at rth un vn }
{
    match arctan::tangent(at.th) {
        None => Err(Refusal::AngleTooLarge),
        Some(radius_undistorted) => {
            let sign = sign_of(radius_undistorted);
            Ok(Settled {
                point: Point(
                    sign * radius_undistorted * un / rth,
                    sign * radius_undistorted * vn / rth,
                ),
                updates: at.updates,
                flag: flag(at),
            })
        }
    }
}

// The point of a pixel: near the axis at once, else by Newton. Refused with 10 where Newton ends past the tangent's
// limit.
pub fn undistort(params: KannalaBrandtParams, pixel: Pixel) -> Result<Settled, Refusal>
    ensures { result ≡ undistort tangent params pixel }
{
    let un = (pixel.0 - params.cx) / params.fx;
    let vn = (pixel.1 - params.cy) / params.fy;
    let rth2 = lens::squared_radius(un, vn);
    if rth2 <= lens::EPS {
        return Ok(lens::direct(Point(un, vn)));
    }
    let rth = root::root(rth2);
    outward(newton(params, rth), rth, un, vn)
}

// The polynomial's terms behind its 1, by the Rust's names: c13 and c17 both add them up, each in its own order.
#[derive(Clone, Copy)]
struct Terms {
    c7: f64,
    c9: f64,
    c11: f64,
    c12: f64,
}

fn terms_of(params: KannalaBrandtParams, t: EvenPowers) -> Terms
    ensures { result ≡ terms_of params t }
{
    Terms {
        c7: t.theta2 * params.k0,
        c9: t.theta4 * params.k1,
        c11: t.theta6 * params.k2,
        c12: t.theta8 * params.k3,
    }
}

// The Rust's c13: what the lens makes of the angle c5, times c4.
fn c13_of(c4: f64, c5: f64, s: Terms) -> f64
    ensures { result ≡ c13_of c4 c5 s }
{
    c4 * c5 * (s.c11 + s.c12 + s.c7 + s.c9 + 1.0)
}

// The Rust's c17: the derivative of what the lens makes of the angle.
fn c17_of(params: KannalaBrandtParams, t: EvenPowers, s: Terms) -> f64
    ensures { result ≡ c17_of params t s }
{
    let inner = 4.0 * t.theta6 * params.k3
        + 2.0 * t.theta2 * params.k1
        + 3.0 * t.theta4 * params.k2
        + params.k0;
    s.c11 + s.c12 + 2.0 * t.theta2 * inner + s.c7 + s.c9 + 1.0
}

// An entry of the diagonal, but for its factor: c0 is the square of its coordinate.
fn diagonal(c0: f64, c14: f64, c16: f64, c18: f64) -> f64
    ensures { result ≡ diagonal c0 c14 c16 c18 }
{
    -c0 * c16 + c0 * c18 + c14
}

// The derivative away from the axis, from the Rust's c2, its root, c4, c13 and c17.
fn off_axis(
    params: KannalaBrandtParams,
    point: Point,
    c2: f64,
    c2_sqrt: f64,
    c4: f64,
    c13: f64,
    c17: f64,
) -> Jacobian
    ensures { result ≡ off_axis params point c2 c2_sqrt c4 c13 c17 }
{
    let c3 = c2_sqrt * c2_sqrt * c2_sqrt * c2_sqrt * c2_sqrt;
    let c14 = c13 * c3;
    let c15 = c2_sqrt * c2_sqrt * c2_sqrt;
    let c16 = c13 * c15;
    let c18 = c17 * c2 * c2;
    let c19 = 1.0 / c4;
    let c20 = c19 / (c2 * c2 * c2);
    let c21 = point.0 * point.1 * c19 * (-c13 * c2 + c15 * c17) / c3;
    lens::two_columns(
        c20 * params.fx * diagonal(point.0 * point.0, c14, c16, c18),
        c21 * params.fx,
        c21 * params.fy,
        c20 * params.fy * diagonal(point.1 * point.1, c14, c16, c18),
    )
}

// The derivative of distort by the point.
pub fn dx_distort_x(params: KannalaBrandtParams, point: Point) -> Jacobian
    ensures { result ≡ dx_distort_x arctangent params point }
{
    let c2 = lens::squared_radius(point.0, point.1);
    if c2 <= lens::EPS {
        return lens::two_columns(params.fx, 0.0, 0.0, params.fy);
    }
    let c2_sqrt = root::root(c2);
    let c4 = c2 + 1.0;
    let c5 = arctan::arctangent(c2_sqrt);
    let t = powers(c5);
    let s = terms_of(params, t);
    let c13 = c13_of(c4, c5, s);
    let c17 = c17_of(params, t, s);
    off_axis(params, point, c2, c2_sqrt, c4, c13, c17)
}

// The angle over the radius: 1 near the axis.
fn alpha_of(radius_sq: f64, radius: f64, theta: f64) -> f64
    ensures { result ≡ alpha_of radius_sq radius theta }
{
    if radius_sq <= lens::EPS {
        1.0
    } else {
        theta / radius
    }
}

// The two rows of the derivative by the parameters. Stored one by one, as bc's are: the loop of `lens::two_rows` over
// all places costs more.
fn rows(
    params: KannalaBrandtParams,
    alpha_x: f64,
    alpha_y: f64,
    scaling_by_theta: f64,
    t: EvenPowers,
) -> Jacobian
    ensures { result ≡ rows params alpha_x alpha_y scaling_by_theta t }
{
    let x = params.fx * alpha_x;
    let y = params.fy * alpha_y;
    let mut entries = [0.0; lens::ENTRIES];
    entries[0] = alpha_x * scaling_by_theta;
    entries[2] = 1.0;
    entries[4] = x * t.theta2;
    entries[5] = x * t.theta4;
    entries[6] = x * t.theta6;
    entries[7] = x * t.theta8;
    entries[9] = alpha_y * scaling_by_theta;
    entries[11] = 1.0;
    entries[12] = y * t.theta2;
    entries[13] = y * t.theta4;
    entries[14] = y * t.theta6;
    entries[15] = y * t.theta8;
    Jacobian {
        entries,
        columns: 8,
    }
}

// The derivative of distort by fx, fy, cx, cy and k0 to k3.
pub fn dx_distort_params(params: KannalaBrandtParams, point: Point) -> Jacobian
    ensures { result ≡ dx_distort_params arctangent params point }
{
    let radius_sq = lens::squared_radius(point.0, point.1);
    let radius = root::root(radius_sq);
    let theta = arctan::arctangent(radius);
    let t = powers(theta);
    let alpha = alpha_of(radius_sq, radius, theta);
    let scaling_by_theta = polynomial(params, t);
    rows(
        params,
        point.0 * alpha,
        point.1 * alpha,
        scaling_by_theta,
        t,
    )
}
