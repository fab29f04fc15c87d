// A camera's four operations over bytes: a model's number and its parameters' bytes in, the number told out, and the
// answer's bytes in a buffer that the caller lends. What is refused writes nothing.
#![tactic(auto)]

ghost use Rattle.std.specs.Prelude.{true, ◌≡◌, ◌≤◌, length, IfOk};
ghost use Rattle.little_endian.specs.Bytes.{floats, put};
ghost use Rattle.lens.specs.Distorted.{told_pixel};
ghost use Rattle.lens.specs.Undistorted.{told};
ghost use Rattle.lens.specs.Finite.{all_finite};
ghost use Rattle.lens.specs.Jacobian.{entries};
ghost use Rattle.camera.specs.Camera.{parameters, distort, undistort, dx_distort_x, dx_distort_params};
ghost use Rattle.camera_bytes.specs.Reading.{read};
ghost use Rattle.given.specs.Given.{given};
ghost use Rattle.answer_bytes.specs.Answer.{columns_place, give_pixel, give_point, give_jacobian};
ghost use Rattle.answer_bytes.specs.Answer.{distorted, undistorted, slopes, parameter_slopes, distort_bytes};
ghost use Rattle.answer_bytes.specs.Answer.{undistort_bytes, dx_distort_x_bytes, dx_distort_params_bytes};

use lens::{Jacobian, Pixel, Point, Refusal, Settled};

// Where a Jacobian's bytes have the count of columns, and how many they are.
const COLUMNS: usize = 8 * lens::ENTRIES;

const JACOBIAN: usize = COLUMNS + 8;

// What distort tells: its number, and its pixel or zeros.
#[derive(Clone, Copy)]
pub struct ToldPixel {
    pub number: u8,
    pub pixel: Pixel,
}

pub fn told_pixel(distorted: Result<Pixel, Refusal>) -> ToldPixel
    ensures { (result.number ≡ (told_pixel distorted).number) × (result.pixel ≡ (told_pixel distorted).pixel) }
{
    match distorted {
        Ok(pixel) => ToldPixel { number: 0, pixel },
        Err(refusal) => ToldPixel {
            number: lens::number(refusal),
            pixel: Pixel(0.0, 0.0),
        },
    }
}

// The pixel that a camera gives, or why there is no camera.
fn distorted(model: u8, params: &[u8], point: Point) -> Result<Pixel, Refusal>
    ensures { result ≡ distorted (read model params.now) point }
{
    let camera = camera_bytes::read_finite(model, params)?;
    camera::placed(camera, point.0, point.1)?;
    camera::distort_judged(camera, point)
}

// Hands a pixel over, if it has the number 0 and the buffer is of its length.
pub fn give_pixel(told: ToldPixel, answer: &mut [u8]) -> u8
    ensures { given result answer.new ≡ give_pixel told.number told.pixel answer.old }
{
    let code = given::code(told.number, answer.len() == 16);
    if code == 0 {
        let pixel = told.pixel;
        little_endian::put_floats(answer, 0, &[pixel.0, pixel.1]);
    }
    code
}

// The pixel of a point: u and v, 16 bytes.
pub fn distort(model: u8, params: &[u8], x: f64, y: f64, answer: &mut [u8]) -> u8
    ensures { given result answer.new ≡
        distort_bytes model params.now x y answer.old }
{
    let told = told_pixel(distorted(model, params, Point(x, y)));
    give_pixel(told, answer)
}

// The same for undistort: its number, and where it settled or zeros and no.
#[derive(Clone, Copy)]
struct ToldPoint {
    number: u8,
    settled: Settled,
}

fn told_point(undistorted: Result<Settled, Refusal>) -> ToldPoint
    ensures { (result.number ≡ (told undistorted).number) × (result.settled ≡ (told undistorted).settled) }
{
    match undistorted {
        Ok(settled) => ToldPoint { number: 0, settled },
        Err(refusal) => {
            let point = Point(0.0, 0.0);
            let settled = Settled {
                point,
                updates: 0,
                flag: false,
            };
            ToldPoint {
                number: lens::number(refusal),
                settled,
            }
        }
    }
}

fn undistorted(model: u8, params: &[u8], pixel: Pixel) -> Result<Settled, Refusal>
    ensures { result ≡ undistorted (read model params.now) pixel }
{
    let camera = camera_bytes::read_finite(model, params)?;
    camera::placed(camera, pixel.0, pixel.1)?;
    camera::undistort_judged(camera, pixel)
}

// The flag's four bytes hold it and three zeros, since it is 0 or 1.
fn give_point(told: ToldPoint, answer: &mut [u8]) -> u8
    ensures { given result answer.new ≡ give_point told.number told.settled answer.old }
{
    let code = given::code(told.number, answer.len() == 24);
    if code == 0 {
        let settled = told.settled;
        let point = settled.point;
        little_endian::put_floats(answer, 0, &[point.0, point.1]);
        little_endian::put(answer, 16, 4, settled.updates as u64);
        little_endian::put(answer, 20, 4, given::flag_number(settled.flag));
    }
    code
}

// The point of a pixel: x and y, the updates, the flag, three zeros, 24 bytes.
pub fn undistort(model: u8, params: &[u8], u: f64, v: f64, answer: &mut [u8]) -> u8
    ensures { given result answer.new ≡
        undistort_bytes model params.now u v answer.old }
{
    let told = told_point(undistorted(model, params, Pixel(u, v)));
    give_point(told, answer)
}

fn slopes(model: u8, params: &[u8], point: Point) -> Result<Jacobian, Refusal>
    ensures { result ≡ slopes (read model params.now) point }
{
    let camera = camera_bytes::read_finite(model, params)?;
    camera::placed(camera, point.0, point.1)?;
    camera::dx_distort_x_judged(camera, point)
}

fn parameter_slopes(model: u8, params: &[u8], point: Point) -> Result<Jacobian, Refusal>
    ensures { result ≡ parameter_slopes (read model params.now) point }
{
    let camera = camera_bytes::read_finite(model, params)?;
    camera::placed(camera, point.0, point.1)?;
    camera::dx_distort_params_judged(camera, point)
}

// Puts the bit patterns of finite numbers at the start: none is a NaN, so that the compiler copies them as they are.
fn put_entries(answer: &mut [u8], numbers: &[f64; lens::ENTRIES])
    requires { (columns_place ≤ length answer.old) ×
        ((length numbers.now ≡ entries) × (all_finite numbers.now ≡ true)) }
    ensures { answer.new ≡ put 0 (floats numbers.now) answer.old }
{
    for i in 0..lens::ENTRIES {
        little_endian::put(answer, 8 * i, 8, f64::to_bits(numbers[i]));
    }
}

fn give_jacobian(told: Result<Jacobian, Refusal>, answer: &mut [u8]) -> u8
    requires { IfOk told (λ j. all_finite j.entries ≡ true) }
    ensures { given result answer.new ≡ give_jacobian told answer.old }
{
    let right = answer.len() == JACOBIAN;
    match told {
        Ok(jacobian) => {
            let code = given::code(0, right);
            if code == 0 {
                put_entries(answer, &jacobian.entries);
                little_endian::put(answer, COLUMNS, 8, jacobian.columns as u64);
            }
            code
        }
        Err(refusal) => given::code(lens::number(refusal), right),
    }
}

// The derivative of distort by the point: its entries row by row, then how many columns.
pub fn dx_distort_x(model: u8, params: &[u8], x: f64, y: f64, answer: &mut [u8]) -> u8
    ensures { given result answer.new ≡
        dx_distort_x_bytes model params.now x y answer.old }
{
    let told = slopes(model, params, Point(x, y));
    give_jacobian(told, answer)
}

// The derivative of distort by the parameters, in the same form.
pub fn dx_distort_params(model: u8, params: &[u8], x: f64, y: f64, answer: &mut [u8]) -> u8
    ensures { given result answer.new ≡
        dx_distort_params_bytes model params.now x y answer.old }
{
    let told = parameter_slopes(model, params, Point(x, y));
    give_jacobian(told, answer)
}
