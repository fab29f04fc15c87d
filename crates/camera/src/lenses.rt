// What a camera asks of its model's parameters, whichever model it is. A new model is one more `impl`.
ghost use Rattle.std.specs.Prelude.{◌≡◌, ◌&&◌};
ghost use Rattle.std.specs.Float.Ieee.Scale.{finite};
ghost use Rattle.exact.specs.F64.{mark};
ghost use Rattle.lens.specs.Finite.{all_finite};
ghost use Rattle.camera.specs.Camera.{parameters, either_zero, zero_focal, pixel_of, point_of, slopes, parameter_slopes};
ghost use Rattle.camera.specs.Numbers.{padded};

use crate::Camera;
use crate::numbers::MOST;
use affine::AffineParams;
use brown_conrady::BrownConradyParams;
use enhanced_unified::EnhancedUnifiedParams;
use kannala_brandt::KannalaBrandtParams;
use lens::{Jacobian, Pixel, Point, Refusal, Settled};
use thin_prism::ThinPrismParams;

pub(crate) trait Lens: Copy {
    ghost use Rattle.camera.specs.declared.Camera.{Camera};

    // The camera of such parameters.
    ghost camera: { Self → Camera };

    // The mark of the parameters and of the point or pixel (x, y): 0.0 if all are finite. One comparison tests them all.
    fn mark(self, x: f64, y: f64) -> f64
        ensures { result ≡ mark (all_finite (parameters (camera self)) && (finite x && finite y)) };

    // Whether fx or fy is zero.
    fn zero_focal(self) -> bool
        ensures { result ≡ zero_focal (camera self) };

    // The model's pixel, finite or not.
    fn distort(self, point: Point) -> Pixel
        ensures { result ≡ pixel_of (camera self) point };

    // The model's point, finite or not, or kb's 10, or eucm's 16.
    fn undistort(self, pixel: Pixel) -> Result<Settled, Refusal>
        ensures { result ≡ point_of (camera self) pixel };

    // The model's derivative of distort by the point, finite or not,
    fn slopes(self, point: Point) -> Jacobian
        ensures { result ≡ slopes (camera self) point };

    // and by its parameters.
    fn parameter_slopes(self, point: Point) -> Jacobian
        ensures { result ≡ parameter_slopes (camera self) point };

    // The parameters, and zeros behind them.
    fn padded(self) -> [f64; MOST]
        ensures { result ≡ padded (camera self) };
}

// Whether one of two focal lengths is zero.
fn either_zero(fx: f64, fy: f64) -> bool
    ensures { result ≡ either_zero fx fy }
{
    exact::is_zero(fx) || exact::is_zero(fy)
}

impl Lens for AffineParams {
    ghost use Rattle.camera.specs.declared.Camera.TheVariants.{Affine};

    ghost camera = { Affine };

    fn mark(self, x: f64, y: f64) -> f64 {
        lens::marks(&[self.fx, self.fy, self.cx, self.cy, x, y])
    }

    fn zero_focal(self) -> bool {
        either_zero(self.fx, self.fy)
    }

    fn distort(self, point: Point) -> Pixel {
        affine::distort(self, point)
    }

    fn undistort(self, pixel: Pixel) -> Result<Settled, Refusal> {
        Ok(affine::undistort(self, pixel))
    }

    fn slopes(self, point: Point) -> Jacobian {
        affine::dx_distort_x(self, point)
    }

    fn parameter_slopes(self, point: Point) -> Jacobian {
        affine::dx_distort_params(self, point)
    }

    fn padded(self) -> [f64; MOST] {
        let mut n = [0.0; MOST];
        n[0] = self.fx;
        n[1] = self.fy;
        n[2] = self.cx;
        n[3] = self.cy;
        n
    }
}

impl Lens for EnhancedUnifiedParams {
    ghost use Rattle.camera.specs.declared.Camera.TheVariants.{EnhancedUnified};

    ghost camera = { EnhancedUnified };

    fn mark(self, x: f64, y: f64) -> f64 {
        lens::marks(&[
            self.fx, self.fy, self.cx, self.cy, self.alpha, self.beta, x, y,
        ])
    }

    fn zero_focal(self) -> bool {
        either_zero(self.fx, self.fy)
    }

    fn distort(self, point: Point) -> Pixel {
        enhanced_unified::distort(self, point)
    }

    fn undistort(self, pixel: Pixel) -> Result<Settled, Refusal> {
        enhanced_unified::undistort(self, pixel)
    }

    fn slopes(self, point: Point) -> Jacobian {
        enhanced_unified::dx_distort_x(self, point)
    }

    fn parameter_slopes(self, point: Point) -> Jacobian {
        enhanced_unified::dx_distort_params(self, point)
    }

    fn padded(self) -> [f64; MOST] {
        let mut n = [0.0; MOST];
        n[0] = self.fx;
        n[1] = self.fy;
        n[2] = self.cx;
        n[3] = self.cy;
        n[4] = self.alpha;
        n[5] = self.beta;
        n
    }
}

impl Lens for KannalaBrandtParams {
    ghost use Rattle.camera.specs.declared.Camera.TheVariants.{KannalaBrandt};

    ghost camera = { KannalaBrandt };

    fn mark(self, x: f64, y: f64) -> f64 {
        lens::marks(&[
            self.fx, self.fy, self.cx, self.cy, self.k0, self.k1, self.k2, self.k3, x, y,
        ])
    }

    fn zero_focal(self) -> bool {
        either_zero(self.fx, self.fy)
    }

    fn distort(self, point: Point) -> Pixel {
        kannala_brandt::distort(self, point)
    }

    fn undistort(self, pixel: Pixel) -> Result<Settled, Refusal> {
        kannala_brandt::undistort(self, pixel)
    }

    fn slopes(self, point: Point) -> Jacobian {
        kannala_brandt::dx_distort_x(self, point)
    }

    fn parameter_slopes(self, point: Point) -> Jacobian {
        kannala_brandt::dx_distort_params(self, point)
    }

    fn padded(self) -> [f64; MOST] {
        let mut n = [0.0; MOST];
        n[0] = self.fx;
        n[1] = self.fy;
        n[2] = self.cx;
        n[3] = self.cy;
        n[4] = self.k0;
        n[5] = self.k1;
        n[6] = self.k2;
        n[7] = self.k3;
        n
    }
}

impl Lens for BrownConradyParams {
    ghost use Rattle.camera.specs.declared.Camera.TheVariants.{BrownConrady};

    ghost camera = { BrownConrady };

    fn mark(self, x: f64, y: f64) -> f64 {
        lens::marks(&[
            self.fx, self.fy, self.cx, self.cy, self.k1, self.k2, self.p1, self.p2, self.k3,
            self.k4, self.k5, self.k6, x, y,
        ])
    }

    fn zero_focal(self) -> bool {
        either_zero(self.fx, self.fy)
    }

    fn distort(self, point: Point) -> Pixel {
        brown_conrady::distort(self, point)
    }

    fn undistort(self, pixel: Pixel) -> Result<Settled, Refusal> {
        Ok(brown_conrady::undistort(self, pixel))
    }

    fn slopes(self, point: Point) -> Jacobian {
        brown_conrady::dx_distort_x(self, point)
    }

    fn parameter_slopes(self, point: Point) -> Jacobian {
        brown_conrady::dx_distort_params(self, point)
    }

    fn padded(self) -> [f64; MOST] {
        let mut n = [0.0; MOST];
        n[0] = self.fx;
        n[1] = self.fy;
        n[2] = self.cx;
        n[3] = self.cy;
        n[4] = self.k1;
        n[5] = self.k2;
        n[6] = self.p1;
        n[7] = self.p2;
        n[8] = self.k3;
        n[9] = self.k4;
        n[10] = self.k5;
        n[11] = self.k6;
        n
    }
}

impl Lens for ThinPrismParams {
    ghost use Rattle.camera.specs.declared.Camera.TheVariants.{ThinPrism};

    ghost camera = { ThinPrism };

    fn mark(self, x: f64, y: f64) -> f64 {
        lens::marks(&[
            self.bc.fx, self.bc.fy, self.bc.cx, self.bc.cy, self.bc.k1, self.bc.k2, self.bc.p1, self
                .bc
                .p2, self.bc.k3, self.bc.k4, self.bc.k5, self.bc.k6, self.s1, self.s2, self.s3,
            self.s4, x, y,
        ])
    }

    fn zero_focal(self) -> bool {
        either_zero(self.bc.fx, self.bc.fy)
    }

    fn distort(self, point: Point) -> Pixel {
        thin_prism::distort(self, point)
    }

    fn undistort(self, pixel: Pixel) -> Result<Settled, Refusal> {
        Ok(thin_prism::undistort(self, pixel))
    }

    fn slopes(self, point: Point) -> Jacobian {
        thin_prism::dx_distort_x(self, point)
    }

    fn parameter_slopes(self, point: Point) -> Jacobian {
        thin_prism::dx_distort_params(self, point)
    }

    fn padded(self) -> [f64; MOST] {
        let mut n = self.bc.padded();
        n[12] = self.s1;
        n[13] = self.s2;
        n[14] = self.s3;
        n[15] = self.s4;
        n
    }
}
