// The models by number, and their parameters as numbers: what bytes and text know of a camera. Nobody else says in
// which order a model's parameters stand.
ghost use Rattle.std.specs.Prelude.{◌≡◌};
ghost use Rattle.camera.specs.Numbers.{count, at, brown_conrady_params, camera_of, model_number, padded};

use crate::Camera;
use crate::lenses::Lens;
use affine::AffineParams;
use brown_conrady::BrownConradyParams;
use enhanced_unified::EnhancedUnifiedParams;
use kannala_brandt::KannalaBrandtParams;
use thin_prism::ThinPrismParams;

// The highest number of a model, and the most parameters that one has.
pub const LAST: u8 = 4;

pub const MOST: usize = 16;

// How many parameters a model has. A model is a number here and below, since C and a camera file hand over one; every
// number has an answer.
pub fn count(model: u8) -> u8
    ensures { result ≡ count model }
{
    match model {
        0 => 4,
        1 => 6,
        2 => 8,
        3 => 12,
        _ => 16,
    }
}

fn brown_conrady_of(n: &[f64; MOST]) -> BrownConradyParams
    ensures { result ≡ brown_conrady_params (at n.now) }
{
    BrownConradyParams {
        fx: n[0],
        fy: n[1],
        cx: n[2],
        cy: n[3],
        k1: n[4],
        k2: n[5],
        p1: n[6],
        p2: n[7],
        k3: n[8],
        k4: n[9],
        k5: n[10],
        k6: n[11],
    }
}

// The camera of a model, its k-th parameter the k-th number.
pub fn camera_of(model: u8, n: &[f64; MOST]) -> Camera
    ensures { result ≡ camera_of model (at n.now) }
{
    let fx = n[0];
    let fy = n[1];
    let cx = n[2];
    let cy = n[3];
    match model {
        0 => Camera::Affine(AffineParams { fx, fy, cx, cy }),
        1 => Camera::EnhancedUnified(EnhancedUnifiedParams {
            fx,
            fy,
            cx,
            cy,
            alpha: n[4],
            beta: n[5],
        }),
        2 => Camera::KannalaBrandt(KannalaBrandtParams {
            fx,
            fy,
            cx,
            cy,
            k0: n[4],
            k1: n[5],
            k2: n[6],
            k3: n[7],
        }),
        3 => Camera::BrownConrady(brown_conrady_of(n)),
        _ => Camera::ThinPrism(ThinPrismParams {
            bc: brown_conrady_of(n),
            s1: n[12],
            s2: n[13],
            s3: n[14],
            s4: n[15],
        }),
    }
}

// The number of a camera's model.
pub fn model_number(camera: Camera) -> u8
    ensures { result ≡ model_number camera }
{
    match camera {
        Camera::Affine(_) => 0,
        Camera::EnhancedUnified(_) => 1,
        Camera::KannalaBrandt(_) => 2,
        Camera::BrownConrady(_) => 3,
        Camera::ThinPrism(_) => 4,
    }
}

// A camera's parameters, and zeros behind them.
pub fn padded(camera: Camera) -> [f64; MOST]
    ensures { result ≡ padded camera }
{
    match camera {
        Camera::Affine(p) => p.padded(),
        Camera::EnhancedUnified(p) => p.padded(),
        Camera::KannalaBrandt(p) => p.padded(),
        Camera::BrownConrady(p) => p.padded(),
        Camera::ThinPrism(p) => p.padded(),
    }
}
