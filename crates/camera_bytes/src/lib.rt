// A camera out of a model's number and bytes: the parameters of its model, eight bytes each, the least first.
#![tactic(auto)]

ghost use Rattle.std.specs.Prelude.{◌≡◌, ◌+◌, ◌*◌, ◌%◌, ◌≤◌, length, replicate, is_some};
ghost use Rattle.exact.specs.F64.{f64};
ghost use Rattle.lens.specs.Constants.{zeros};
ghost use Rattle.camera.specs.Numbers.{most, count};
ghost use Rattle.camera_bytes.specs.Reading.{camera_of, judged, read, finite_only, read_finite, Plain};
ghost use Rattle.camera_bytes.specs.Putting.{SameTo, TwoPut, AllPut};

use camera::Camera;
use camera::numbers::{LAST, MOST};
use lens::Refusal;

// A bit pattern without its sign is one modulo this; a finite number's is below the infinity's.
const SIGN: u64 = 0x8000_0000_0000_0000;

const INFINITY: u64 = 0x7ff0_0000_0000_0000;

// The first numbers, as many as any model has. Zeros stand for those that are missing.
fn numbers(params: &[u8]) -> [f64; MOST]
    ensures { SameTo most params.now result }
{
    let mut n = [0.0; MOST];
    for i in 0..MOST {
        n[i] = little_endian::float(params, 8 * i);
    }
    n
}

// The camera of a model that there is.
pub fn camera_of(model: u8, params: &[u8]) -> Camera
    ensures { result ≡ camera_of model params.now }
{
    camera::numbers::camera_of(model, &numbers(params))
}

// The f64 of a finite number's bit pattern: nothing is left to test.
fn raw(bits: u64) -> f64
    requires { Plain bits }
    ensures { result ≡ f64 bits }
{
    f64::from_bits(bits)
}

// Puts the numbers i and i + 1 at their places, if both are finite.
fn two(params: &[u8], i: usize, n: &mut [f64; MOST]) -> Option<()>
    requires { (8 * i + 16 ≤ length params.now) × ((i + 2 ≤ most) × (length n.old ≡ most)) }
    ensures { TwoPut params.now i (is_some result) n.old n.new }
{
    let a = little_endian::word(params, 8 * i);
    let b = little_endian::word(params, 8 * i + 8);
    if INFINITY <= a % SIGN {
        return None;
    }
    if INFINITY <= b % SIGN {
        return None;
    }
    n[i] = raw(a);
    n[i + 1] = raw(b);
    Some(())
}

// Puts all numbers that there are over zeros, by twos, since every model's count is even; nothing where one isn't
// finite. A pattern is tested once, where the camera's own test and that of each number for NaN would cost far more
// (docs/DECISIONS.md, 82); and the compiler lays the loop out.
fn all(params: &[u8], n: &mut [f64; MOST]) -> Option<()>
    requires { (length params.now % 16 ≡ 0) × (n.old ≡ replicate most zeros) }
    ensures { AllPut params.now (is_some result) n.new }
{
    for k in 0..MOST / 2 {
        let i = 2 * k;
        if params.len() < 8 * i + 16 {
            return Some(());
        }
        two(params, i, n)?;
    }
    Some(())
}

// A camera of parameters that are all there, or 4.
fn whole(model: u8, params: &[u8]) -> Result<Camera, Refusal>
    requires { length params.now ≡ 8 * count model }
    ensures { result ≡ finite_only (Ok (camera_of model params.now)) }
{
    let mut n = [0.0; MOST];
    let Some(()) = all(params, &mut n) else {
        return Err(Refusal::NotFinite);
    };
    Ok(camera::numbers::camera_of(model, &n))
}

// 1, then 3.
pub fn judged(model: u8, params: &[u8]) -> Result<(), Refusal>
    ensures { result ≡ judged model params.now }
{
    if model <= LAST {
        if params.len() == 8 * camera::numbers::count(model) as usize {
            return Ok(());
        }
        return Err(Refusal::WrongCount);
    }
    Err(Refusal::UnknownModel)
}

// 1, then 3, or the camera.
pub fn read(model: u8, params: &[u8]) -> Result<Camera, Refusal>
    ensures { result ≡ read model params.now }
{
    judged(model, params)?;
    Ok(camera_of(model, params))
}

// 1, 3, then 4 for a parameter that isn't finite, or the camera.
pub fn read_finite(model: u8, params: &[u8]) -> Result<Camera, Refusal>
    ensures { result ≡ read_finite model params.now }
{
    judged(model, params)?;
    whole(model, params)
}
