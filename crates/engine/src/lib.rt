// What finds the points and the pixels of a table: the camera itself, and for a bc camera whose k4, k5 and k6 are zeros
// the short engine. A turn asks once which it is (`short_for`), so that no sample and no cell asks again.
#![tactic(auto)]

ghost use Rattle.std.specs.Prelude.{◌≡◌};
ghost use Rattle.engine.specs.Engine.{short_for, pixel_by, undistort};

use camera::Camera;
use lens::{Pixel, Point, Refusal, Settled};

// Whether the short engine stands for a camera.
pub fn short_for(camera: Camera) -> bool
    ensures { result ≡ short_for camera }
{
    if let Camera::BrownConrady(params) = camera {
        return short_brown_conrady::no_quotient(params);
    }
    false
}

// The pixel of a cell's point, by the short engine or not, finite or not: a cell asks that of the numbers it holds. It
// asks the models themselves, so that a cell's call is one piece of code and copies no camera.
pub fn distort(camera: Camera, short: bool, point: Point) -> Pixel
    ensures { result ≡ pixel_by camera short point }
{
    match camera {
        Camera::Affine(p) => affine::distort(p, point),
        Camera::EnhancedUnified(p) => enhanced_unified::distort(p, point),
        Camera::KannalaBrandt(p) => kannala_brandt::distort(p, point),
        Camera::BrownConrady(p) => {
            if short {
                return short_brown_conrady::distort(p, point);
            }
            brown_conrady::distort(p, point)
        }
        Camera::ThinPrism(p) => thin_prism::distort(p, point),
    }
}

// The point of a sample's pixel, by the short engine or not, for a camera that 4 and 5 do not refuse.
pub fn undistort(camera: Camera, short: bool, pixel: Pixel) -> Result<Settled, Refusal>
    ensures { result ≡ undistort camera short pixel }
{
    if short {
        if let Camera::BrownConrady(params) = camera {
            return camera::finite_point(Ok(short_brown_conrady::undistort(params, pixel)));
        }
    }
    camera::undistort_judged(camera, pixel)
}
