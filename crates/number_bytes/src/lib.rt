// A function of one number that may refuse, over bytes: the tangent, its answer in a buffer that the caller lends.
#![tactic(auto)]

ghost use Rattle.std.specs.Prelude.{◌≡◌};
ghost use Rattle.arctan.specs.Owed.{slope_number, Tangent};
ghost use Rattle.arctan.specs.Tangent.{tangent};
ghost use Rattle.given.specs.Given.{given};
ghost use Rattle.number_bytes.specs.Number.{slope_value, give_slope, tangent_bytes};

use lens::Refusal;

// Hands a slope over, or 10 where there is none.
fn give_slope(slope: Option<f64>, answer: &mut [u8]) -> u8
    ensures { given result answer.new ≡ give_slope (slope_number slope) (slope_value slope) answer.old }
{
    let right = answer.len() == 8;
    let Some(slope) = slope else {
        return given::code(lens::number(Refusal::AngleTooLarge), right);
    };
    let code = given::code(0, right);
    if code == 0 {
        little_endian::put_floats(answer, 0, &[slope]);
    }
    code
}

// The tangent of theta, 8 bytes. Every NaN is written as 7ff8000000000000.
pub fn tangent(theta: f64, answer: &mut [u8]) -> u8
    ensures is { given result answer.new ≡ tangent_bytes theta answer.old }
    ensures near { Tangent theta (tangent theta) }
{
    give_slope(arctan::tangent(theta), answer)
}
