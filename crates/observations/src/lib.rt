// A list of observations, undistorted by one camera. The camera is judged once, and then each record by itself: a
// refused record does not stop the next.
#![tactic(auto)]

ghost use Rattle.std.specs.Prelude.{◌≡◌};
ghost use Rattle.lens.specs.Undistorted.{told};
ghost use Rattle.observations.specs.Observations.{refusal_of, rounds, beside, found, seen, listed, observe_all};

use camera::Camera;
use lens::{Pixel, Point, Refusal, Settled};

// A pixel, and what undistort makes of it: number 0 with its answer and flag, or a refusal's number with zeros and no.
// The number stands beside the answer, since this is a record of the list that C hands over.
#[derive(Clone, Copy)]
pub struct Observation {
    pub pixel: Pixel,
    pub answer: Point,
    pub flag: bool,
    pub number: u8,
}

// What the camera by itself is refused with: 4, then 5, or 0 for none.
pub fn refusal_of(camera: Camera) -> u8
    ensures { result ≡ refusal_of camera }
{
    if camera::finite_parameters(camera) {
        if camera::zero_focal(camera) {
            lens::number(Refusal::ZeroFocalLength)
        } else {
            0
        }
    } else {
        lens::number(Refusal::NotFinite)
    }
}

// How many records of a list are written: none for a camera that is refused. So the loop below has no branch.
fn rounds(number: u8, length: usize) -> usize
    ensures { result ≡ rounds number length }
{
    if number == 0 { length } else { 0 }
}

// The point of a pixel, for a camera that is not refused: its parameters are not judged again.
fn found(camera: Camera, pixel: Pixel) -> Result<Settled, Refusal>
    ensures { result ≡ found camera pixel }
{
    if lens::both_finite(pixel.0, pixel.1) {
        camera::undistort_judged(camera, pixel)
    } else {
        Err(Refusal::NotFinite)
    }
}

// The record of a pixel and what was found of it.
fn beside(pixel: Pixel, undistorted: Result<Settled, Refusal>) -> Observation
    ensures { result ≡ beside pixel (told undistorted) }
{
    match undistorted {
        Ok(settled) => {
            let answer = settled.point;
            Observation {
                pixel,
                answer,
                flag: settled.flag,
                number: 0,
            }
        }
        Err(refusal) => Observation {
            pixel,
            answer: Point(0.0, 0.0),
            flag: false,
            number: lens::number(refusal),
        },
    }
}

// One record after the call, for a camera that is not refused. Only its pixel is read.
pub fn seen(camera: Camera, before: Observation) -> Observation
    ensures { result ≡ seen camera before }
{
    let pixel = before.pixel;
    beside(pixel, found(camera, pixel))
}

// Undistorts every record of the list and gives 0; or gives 4 or 5 for the camera, and writes none.
pub fn observe_all(camera: Camera, list: &mut [Observation]) -> u8
    ensures { listed result list.new ≡ observe_all camera list.old }
{
    let number = refusal_of(camera);
    let n = rounds(number, list.len());
    for i in 0..n {
        list[i] = seen(camera, list[i]);
    }
    number
}
