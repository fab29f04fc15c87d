// One of five cameras: its model's four operations with the refusals that stand before and behind them. This is where
// nothing goes unanswered: whatever is handed in, there is a finite answer or a refusal's number, which the models' own
// functions don't promise.
#![tactic(auto)]

ghost use Rattle.std.specs.Prelude.{◌≡◌, ◌&&◌};
ghost use Rattle.std.specs.Float.Ieee.{eq};
ghost use Rattle.std.specs.Float.Ieee.Scale.{finite};
ghost use Rattle.exact.specs.F64.{mark};
ghost use Rattle.lens.specs.Distorted.{told_pixel};
ghost use Rattle.lens.specs.Finite.{all_finite};
ghost use Rattle.lens.specs.Undistorted.{told};
ghost use Rattle.camera.specs.Parts.{judged_pixel};
ghost use Rattle.camera.specs.Camera.{parameters, either_zero, zero_focal, placed, judged, pixel_of, distort_judged, distort, point_of, finite_point, undistort_judged, undistort, limit, finite_jacobian, slopes, dx_distort_x_judged, dx_distort_x, parameter_slopes, dx_distort_params_judged, dx_distort_params};

use affine::AffineParams;
use brown_conrady::BrownConradyParams;
use enhanced_unified::EnhancedUnifiedParams;
use kannala_brandt::KannalaBrandtParams;
use lens::{Jacobian, Pixel, Point, Refusal, Settled};
use lenses::Lens;
use thin_prism::ThinPrismParams;

mod lenses;
pub mod numbers;

// A camera: its model, with the model's parameters.
#[derive(Clone, Copy)]
pub enum Camera {
    Affine(AffineParams),
    EnhancedUnified(EnhancedUnifiedParams),
    KannalaBrandt(KannalaBrandtParams),
    BrownConrady(BrownConradyParams),
    ThinPrism(ThinPrismParams),
}

// The mark of a camera's parameters and of the point or pixel (x, y): 0.0 if all are finite.
fn mark_of(camera: Camera, x: f64, y: f64) -> f64
    ensures { result ≡ mark (all_finite (parameters camera) && (finite x && finite y)) }
{
    match camera {
        Camera::Affine(p) => p.mark(x, y),
        Camera::EnhancedUnified(p) => p.mark(x, y),
        Camera::KannalaBrandt(p) => p.mark(x, y),
        Camera::BrownConrady(p) => p.mark(x, y),
        Camera::ThinPrism(p) => p.mark(x, y),
    }
}

// Whether every parameter is finite.
pub fn finite_parameters(camera: Camera) -> bool
    ensures { result ≡ all_finite (parameters camera) }
{
    let sum = mark_of(camera, 0.0, 0.0);
    sum == sum
}

// Whether fx or fy is zero: what 5 asks.
pub fn zero_focal(camera: Camera) -> bool
    ensures { result ≡ zero_focal camera }
{
    match camera {
        Camera::Affine(p) => p.zero_focal(),
        Camera::EnhancedUnified(p) => p.zero_focal(),
        Camera::KannalaBrandt(p) => p.zero_focal(),
        Camera::BrownConrady(p) => p.zero_focal(),
        Camera::ThinPrism(p) => p.zero_focal(),
    }
}

// 4 of the point or pixel (x, y) alone, and then 5: for who knows that the parameters are finite.
pub fn placed(camera: Camera, x: f64, y: f64) -> Result<(), Refusal>
    ensures { result ≡ placed camera x y }
{
    if lens::both_finite(x, y) {
        if zero_focal(camera) {
            Err(Refusal::ZeroFocalLength)
        } else {
            Ok(())
        }
    } else {
        Err(Refusal::NotFinite)
    }
}

// 4 and then 5, before anything is worked out.
fn judged(camera: Camera, x: f64, y: f64) -> Result<(), Refusal>
    ensures { result ≡ judged camera x y }
{
    let sum = mark_of(camera, x, y);
    if sum == sum {
        if zero_focal(camera) {
            Err(Refusal::ZeroFocalLength)
        } else {
            Ok(())
        }
    } else {
        Err(Refusal::NotFinite)
    }
}

// The model's pixel, finite or not.
fn pixel_of(camera: Camera, point: Point) -> Pixel
    ensures { result ≡ pixel_of camera point }
{
    match camera {
        Camera::Affine(p) => p.distort(point),
        Camera::EnhancedUnified(p) => p.distort(point),
        Camera::KannalaBrandt(p) => p.distort(point),
        Camera::BrownConrady(p) => p.distort(point),
        Camera::ThinPrism(p) => p.distort(point),
    }
}

// The pixel of a point, for a camera and a point that 4 and 5 do not refuse: a table judges its camera once.
pub fn distort_judged(camera: Camera, point: Point) -> Result<Pixel, Refusal>
    ensures { result ≡ distort_judged camera point }
{
    lens::finite_pixel(pixel_of(camera, point))
}

// 4, by the mark of what is given, then 5, and then 11 of the pixel, which is worked out whatever is given.
fn judged_pixel(given: f64, zero: bool, pixel: Pixel) -> Result<Pixel, Refusal>
    ensures { result ≡ judged_pixel (eq given given) zero pixel }
{
    if given == given {
        if zero {
            return Err(Refusal::ZeroFocalLength);
        }
        return lens::finite_pixel(pixel);
    }
    Err(Refusal::NotFinite)
}

// The pixel of a point, for any model.
fn distort_by<L: Lens>(p: L, point: Point) -> Result<Pixel, Refusal>
    ensures { result ≡ distort (L.camera p) point }
{
    judged_pixel(p.mark(point.0, point.1), p.zero_focal(), p.distort(point))
}

// The same for affine, where a finite pixel says that all that is given is finite: nothing has to be tested twice.
fn distort_affine(p: AffineParams, point: Point) -> Result<Pixel, Refusal>
    ensures { result ≡ distort (Camera.Affine p) point }
{
    let pixel = affine::distort(p, point);
    if lens::both_finite(pixel.0, pixel.1) {
        if p.zero_focal() {
            return Err(Refusal::ZeroFocalLength);
        }
        return Ok(pixel);
    }
    judged_pixel(p.mark(point.0, point.1), p.zero_focal(), pixel)
}

// The pixel of a point: one match on the camera for all that is asked.
pub fn distort(camera: Camera, point: Point) -> Result<Pixel, Refusal>
    ensures { result ≡ distort camera point }
{
    match camera {
        Camera::Affine(p) => distort_affine(p, point),
        Camera::EnhancedUnified(p) => distort_by(p, point),
        Camera::KannalaBrandt(p) => distort_by(p, point),
        Camera::BrownConrady(p) => distort_by(p, point),
        Camera::ThinPrism(p) => distort_by(p, point),
    }
}

// The model's point, finite or not, or kb's 10, or eucm's 16.
fn point_of(camera: Camera, pixel: Pixel) -> Result<Settled, Refusal>
    ensures { result ≡ point_of camera pixel }
{
    match camera {
        Camera::Affine(p) => p.undistort(pixel),
        Camera::EnhancedUnified(p) => p.undistort(pixel),
        Camera::KannalaBrandt(p) => p.undistort(pixel),
        Camera::BrownConrady(p) => p.undistort(pixel),
        Camera::ThinPrism(p) => p.undistort(pixel),
    }
}

// 11 for a point that isn't finite. A refusal stays: 10 and 16 come before 11.
pub fn finite_point(found: Result<Settled, Refusal>) -> Result<Settled, Refusal>
    ensures { result ≡ finite_point found }
{
    let settled = found?;
    if lens::both_finite(settled.point.0, settled.point.1) {
        return Ok(settled);
    }
    Err(Refusal::AnswerNotFinite)
}

// The point of a pixel, for a camera and a pixel that 4 and 5 do not refuse.
pub fn undistort_judged(camera: Camera, pixel: Pixel) -> Result<Settled, Refusal>
    ensures { result ≡ undistort_judged camera pixel }
{
    finite_point(point_of(camera, pixel))
}

// The point of a pixel, with the updates it took and whether it settled.
pub fn undistort(camera: Camera, pixel: Pixel) -> Result<Settled, Refusal>
    ensures { result ≡ undistort camera pixel }
{
    judged(camera, pixel.0, pixel.1)?;
    undistort_judged(camera, pixel)
}

// The most updates that undistort makes.
pub fn limit(camera: Camera) -> u32
    ensures { result ≡ limit camera }
{
    match camera {
        Camera::Affine(_) | Camera::EnhancedUnified(_) => 0,
        Camera::KannalaBrandt(_) => kannala_brandt::LIMIT,
        Camera::BrownConrady(_) | Camera::ThinPrism(_) => brown_conrady::LIMIT,
    }
}

// A Jacobian as an answer, or 11. It is part of its callers' code: a call of its own would clear the answer's 272 bytes
// first, and move them once more.
#[inline(always)]
fn finite_jacobian(jacobian: Jacobian) -> Result<Jacobian, Refusal>
    ensures { result ≡ finite_jacobian jacobian }
{
    if lens::all_finite(&jacobian.entries) {
        return Ok(jacobian);
    }
    Err(Refusal::AnswerNotFinite)
}

// The model's derivative of distort by the point, finite or not.
fn slopes(camera: Camera, point: Point) -> Jacobian
    ensures { result ≡ slopes camera point }
{
    match camera {
        Camera::Affine(p) => p.slopes(point),
        Camera::EnhancedUnified(p) => p.slopes(point),
        Camera::KannalaBrandt(p) => p.slopes(point),
        Camera::BrownConrady(p) => p.slopes(point),
        Camera::ThinPrism(p) => p.slopes(point),
    }
}

// The derivative of distort by the point, for a camera and a point that 4 and 5 do not refuse.
pub fn dx_distort_x_judged(camera: Camera, point: Point) -> Result<Jacobian, Refusal>
    ensures { result ≡ dx_distort_x_judged camera point }
{
    finite_jacobian(slopes(camera, point))
}

// The derivative of distort by the point.
pub fn dx_distort_x(camera: Camera, point: Point) -> Result<Jacobian, Refusal>
    ensures { result ≡ dx_distort_x camera point }
{
    judged(camera, point.0, point.1)?;
    dx_distort_x_judged(camera, point)
}

// The model's derivative of distort by its parameters, finite or not.
fn parameter_slopes(camera: Camera, point: Point) -> Jacobian
    ensures { result ≡ parameter_slopes camera point }
{
    match camera {
        Camera::Affine(p) => p.parameter_slopes(point),
        Camera::EnhancedUnified(p) => p.parameter_slopes(point),
        Camera::KannalaBrandt(p) => p.parameter_slopes(point),
        Camera::BrownConrady(p) => p.parameter_slopes(point),
        Camera::ThinPrism(p) => p.parameter_slopes(point),
    }
}

// The derivative of distort by the camera's parameters, for a camera and a point that 4 and 5 do not refuse.
pub fn dx_distort_params_judged(camera: Camera, point: Point) -> Result<Jacobian, Refusal>
    ensures { result ≡ dx_distort_params_judged camera point }
{
    finite_jacobian(parameter_slopes(camera, point))
}

// The derivative of distort by the camera's parameters.
pub fn dx_distort_params(camera: Camera, point: Point) -> Result<Jacobian, Refusal>
    ensures { result ≡ dx_distort_params camera point }
{
    judged(camera, point.0, point.1)?;
    dx_distort_params_judged(camera, point)
}
