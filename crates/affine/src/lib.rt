// affine.rs: no distortion in the usual sense, but a scale and a shift along each axis. Its four operations, in the
// Rust's order. None refuses: what isn't finite is for the camera to judge.
#![tactic(auto)]

ghost use Rattle.std.specs.Prelude.{◌≡◌};
ghost use Rattle.affine.specs.Affine.{distort, undistort, dx_distort_x, dx_distort_params};

use lens::{Jacobian, Pixel, Point, Settled};

// The four parameters, in the Rust's order.
#[derive(Clone, Copy)]
pub struct AffineParams {
    pub fx: f64,
    pub fy: f64,
    pub cx: f64,
    pub cy: f64,
}

// The pixel of a point.
pub fn distort(params: AffineParams, point: Point) -> Pixel
    ensures { result ≡ distort params point }
{
    Pixel(
        point.0 * params.fx + params.cx,
        point.1 * params.fy + params.cy,
    )
}

// The point of a pixel. There is nothing to search for, so it took 0 updates and settled.
pub fn undistort(params: AffineParams, pixel: Pixel) -> Settled
    ensures { result ≡ undistort params pixel }
{
    lens::direct(Point(
        (pixel.0 - params.cx) / params.fx,
        (pixel.1 - params.cy) / params.fy,
    ))
}

// The derivative of distort by the point, the same at every point. `point` is there because every model's has it.
pub fn dx_distort_x(params: AffineParams, point: Point) -> Jacobian
    ensures { result ≡ dx_distort_x params point }
{
    lens::two_columns(params.fx, 0.0, 0.0, params.fy)
}

// The derivative of distort by fx, fy, cx and cy, the same for all parameters: x 0 1 0 above 0 y 0 1, stored one by
// one: 6 instructions, where the loop of `two_rows` took 198.
pub fn dx_distort_params(params: AffineParams, point: Point) -> Jacobian
    ensures { result ≡ dx_distort_params params point }
{
    let mut entries = [0.0; lens::ENTRIES];
    entries[0] = point.0;
    entries[2] = 1.0;
    entries[5] = point.1;
    entries[7] = 1.0;
    Jacobian {
        entries,
        columns: 4,
    }
}
