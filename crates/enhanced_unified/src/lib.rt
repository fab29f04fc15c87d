// enhanced_unified.rs: the ray bent towards a sphere (alpha) that may be stretched (beta). Its four operations, in the
// Rust's order and by its names. Undistort refuses a ray that doesn't point forwards, where the Rust goes on.
// What isn't finite is for the camera to judge. There is no other branch: not at alpha 0 and not near the axis.
#![tactic(auto)]

ghost use Rattle.std.specs.Prelude.{◌≡◌};
ghost use Rattle.lens.specs.Undistorted.{told};
ghost use Rattle.enhanced_unified.specs.EnhancedUnified.{rho_of, norm_of, distort, k_of, undistort, dnorm_of, turned, dx_distort_x, dx_distort_params};

use lens::{Jacobian, Pixel, Point, Refusal, Settled};

// The six parameters, in the Rust's order.
#[derive(Clone, Copy)]
pub struct EnhancedUnifiedParams {
    pub fx: f64,
    pub fy: f64,
    pub cx: f64,
    pub cy: f64,
    pub alpha: f64,
    pub beta: f64,
}

// The length of the stretched ray.
fn rho_of(beta: f64, r2: f64) -> f64
    ensures { result ≡ rho_of beta r2 }
{
    root::root(beta * r2 + 1.0)
}

// What a point is divided by.
fn norm_of(alpha: f64, rho: f64) -> f64
    ensures { result ≡ norm_of alpha rho }
{
    alpha * rho + (1.0 - alpha)
}

// The pixel of a point.
pub fn distort(params: EnhancedUnifiedParams, point: Point) -> Pixel
    ensures { result ≡ distort params point }
{
    let r2 = lens::squared_radius(point.0, point.1);
    let norm = norm_of(params.alpha, rho_of(params.beta, r2));
    let mx = point.0 / norm;
    let my = point.1 / norm;
    Pixel(params.fx * mx + params.cx, params.fy * my + params.cy)
}

// The z of the observed ray. It is zero at 90 degrees off the axis and negative beyond.
fn k_of(alpha: f64, beta: f64, r2: f64) -> f64
    ensures { result ≡ k_of alpha beta r2 }
{
    let gamma = 1.0 - alpha;
    let nominator = 1.0 - alpha * alpha * beta * r2;
    let denominator = alpha * root::root(1.0 - (alpha - gamma) * beta * r2) + gamma;
    nominator / denominator
}

// The point of a pixel, found with no update. Refused with 16 where the ray's z is zero or negative: the quotient would
// be nowhere, or a point on the wrong side of the centre. A NaN z passes, and the camera refuses what comes of it.
pub fn undistort(params: EnhancedUnifiedParams, pixel: Pixel) -> Result<Settled, Refusal>
    ensures { result ≡ undistort params pixel }
{
    let mx = (pixel.0 - params.cx) / params.fx;
    let my = (pixel.1 - params.cy) / params.fy;
    let k = k_of(params.alpha, params.beta, lens::squared_radius(mx, my));
    if k <= 0.0 {
        return Err(Refusal::RayNotForward);
    }
    Ok(lens::direct(Point(mx / k, my / k)))
}

// The derivative of norm by the coordinate x.
fn dnorm_of(alpha: f64, beta: f64, rho: f64, x: f64) -> f64
    ensures { result ≡ dnorm_of alpha beta rho x }
{
    let drho2_dx = 2.0 * beta * x;
    let drho_dx = drho2_dx / (2.0 * rho);
    alpha * drho_dx
}

// The derivative of x / norm by what moves norm alone, and norm by dnorm.
fn turned(x: f64, norm: f64, dnorm: f64) -> f64
    ensures { result ≡ turned x norm dnorm }
{
    -x * dnorm / (norm * norm)
}

// The derivative of distort by the point.
pub fn dx_distort_x(params: EnhancedUnifiedParams, point: Point) -> Jacobian
    ensures { result ≡ dx_distort_x params point }
{
    let x = point.0;
    let y = point.1;
    let rho = rho_of(params.beta, lens::squared_radius(x, y));
    let norm = norm_of(params.alpha, rho);
    let dnorm_dx = dnorm_of(params.alpha, params.beta, rho, x);
    let dnorm_dy = dnorm_of(params.alpha, params.beta, rho, y);
    let dmx_dx = (norm - x * dnorm_dx) / (norm * norm);
    let dmx_dy = turned(x, norm, dnorm_dy);
    let dmy_dx = turned(y, norm, dnorm_dx);
    let dmy_dy = (norm - y * dnorm_dy) / (norm * norm);
    lens::two_columns(
        params.fx * dmx_dx,
        params.fx * dmx_dy,
        params.fy * dmy_dx,
        params.fy * dmy_dy,
    )
}

// The derivative of distort by fx, fy, cx, cy, alpha and beta. Stored one by one, as bc's is: the loop of
// `lens::two_rows` over all places costs more.
pub fn dx_distort_params(params: EnhancedUnifiedParams, point: Point) -> Jacobian
    ensures { result ≡ dx_distort_params params point }
{
    let x = point.0;
    let y = point.1;
    let r2 = lens::squared_radius(x, y);
    let rho = rho_of(params.beta, r2);
    let norm = norm_of(params.alpha, rho);
    let dnorm_dalpha = rho - 1.0;
    let dnorm_dbeta = params.alpha * (r2 / (2.0 * rho));
    let ua = params.fx * turned(x, norm, dnorm_dalpha);
    let ub = params.fx * turned(x, norm, dnorm_dbeta);
    let va = params.fy * turned(y, norm, dnorm_dalpha);
    let vb = params.fy * turned(y, norm, dnorm_dbeta);
    let mut entries = [0.0; lens::ENTRIES];
    entries[0] = x / norm;
    entries[2] = 1.0;
    entries[4] = ua;
    entries[5] = ub;
    entries[7] = y / norm;
    entries[9] = 1.0;
    entries[10] = va;
    entries[11] = vb;
    Jacobian {
        entries,
        columns: 6,
    }
}
