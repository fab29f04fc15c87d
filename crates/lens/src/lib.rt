// The words that the lens models and all above them share: point, pixel, Jacobian, what distort and undistort answer,
// judgement, refusal, EPS.
#![tactic(auto)]

ghost use Rattle.std.specs.Prelude.{◌≡◌, ◌&&◌, [], ◌∷◌, ◌++◌, get_or};
ghost use Rattle.std.specs.Float.Ieee.Scale.{finite};
ghost use Rattle.exact.specs.F64.{mark};
ghost use Rattle.lens.specs.Constants.{zeros, eps};
ghost use Rattle.lens.specs.Distorted.{told_pixel, finite_pixel};
ghost use Rattle.lens.specs.Jacobian.{two_rows};
ghost use Rattle.lens.specs.Refusal.{number};
ghost use Rattle.lens.specs.Radius.{squared_radius};
ghost use Rattle.lens.specs.Undistorted.{direct};
ghost use Rattle.lens.specs.Finite.{all_finite};

use std::error::Error;
use std::fmt;

// The Rust's EPS_F64. Its value stands in no text that we have: 1e-6 until it is read at the commit, which decides.
pub const EPS: f64 = 1e-6;

// How many numbers a Jacobian holds, whatever the model: two rows of the most columns that a model has.
pub const ENTRIES: usize = 32;

// A point on the z=1 plane, x and y.
#[derive(Clone, Copy, Debug, PartialEq)]
pub struct Point(pub f64, pub f64);

// Where a camera sees a point: u across, v down. A type of its own, so that neither can be passed where the other is
// meant.
#[derive(Clone, Copy, Debug, PartialEq)]
pub struct Pixel(pub f64, pub f64);

// A matrix of two rows, row by row: with n columns row 0 stands at 0..n and row 1 at n..2n. Every place after them
// holds 0.0.
#[derive(Clone, Copy, Debug, PartialEq)]
pub struct Jacobian {
    pub entries: [f64; ENTRIES],
    pub columns: usize,
}

// Where an undistort ended, after how many updates, and whether it settled there.
#[derive(Clone, Copy, Debug, PartialEq)]
pub struct Settled {
    pub point: Point,
    pub updates: u32,
    pub flag: bool,
}

// Why a call is refused, in the order of the numbers.
#[derive(Clone, Copy, Debug, PartialEq, Eq)]
pub enum Refusal {
    // no model goes by it
    UnknownModel,
    // bc's derivative by its parameters, while it had no formula: no call gives it any more, and the number stays taken
    NoParameterJacobian,
    // too many parameters, or too few
    WrongCount,
    // something handed in isn't a number
    NotFinite,
    // fx or fy shrinks its axis to nothing, which no undistort can undo
    ZeroFocalLength,
    // fewer columns or rows than a table needs, or more than it may have
    WrongSize,
    // memory that doesn't match what is to be written
    WrongLength,
    // columns or rows that don't go up
    IncrementNotPositive,
    // the table has no cell on that side of the point
    OutsideTable,
    // the tangent of such an angle isn't promised
    AngleTooLarge,
    // something to be handed out, or to build on, isn't a number
    AnswerNotFinite,
    // too large for a cell, though an f64 holds it
    CellInfinite,
    // work that was never begun by us, or was tampered with
    ImpossibleRecord,
    // a program can't read its input
    NotTheForm,
    // two listings to compare aren't of one size
    SizesDiffer,
    // the ray of a pixel doesn't point forwards: its point would be mirrored, or nowhere
    RayNotForward,
    // an OpenCV camera that our parameters can't hold
    NotOurs,
    // a strict job met a border sample that didn't settle
    SampleUnsettled,
    // too far for a cell of sixteen bits
    TooFar,
}

impl fmt::Display for Refusal {
    fn fmt<W: fmt::Write>(&self, f: &mut fmt::Formatter<W>) -> fmt::Result {
        f.write_str(match self {
            Refusal::UnknownModel => "no model goes by that name",
            Refusal::NoParameterJacobian => "the model has no derivative by its parameters",
            Refusal::WrongCount => "too many parameters, or too few",
            Refusal::NotFinite => "something handed in is not a number",
            Refusal::ZeroFocalLength => "a focal length shrinks its axis to nothing",
            Refusal::WrongSize => "the columns or rows are too few, or too many",
            Refusal::WrongLength => "the memory does not match what is to be written",
            Refusal::IncrementNotPositive => "the columns or rows do not go up",
            Refusal::OutsideTable => "the point lies outside the table",
            Refusal::AngleTooLarge => "the angle is too large for its tangent",
            Refusal::AnswerNotFinite => "the answer is not a number",
            Refusal::CellInfinite => "the number is too large for a cell",
            Refusal::ImpossibleRecord => "the record was never begun by us, or was tampered with",
            Refusal::NotTheForm => "the input is not of the form that is read",
            Refusal::SizesDiffer => "the two listings are not of one size",
            Refusal::RayNotForward => "the ray of a pixel does not point forwards",
            Refusal::NotOurs => "our parameters cannot hold this camera",
            Refusal::SampleUnsettled => "a border sample did not settle",
            Refusal::TooFar => "the number is too far for a cell of sixteen bits",
        })
    }
}

impl Error for Refusal {}

// EPS as a call, so that a contract ties the constant to the definition.
pub fn eps() -> f64
    ensures { result ≡ eps }
{
    EPS
}

// A refusal's number.
pub fn number(refusal: Refusal) -> u8
    ensures { result ≡ number refusal }
{
    match refusal {
        Refusal::UnknownModel => 1,
        Refusal::NoParameterJacobian => 2,
        Refusal::WrongCount => 3,
        Refusal::NotFinite => 4,
        Refusal::ZeroFocalLength => 5,
        Refusal::WrongSize => 6,
        Refusal::WrongLength => 7,
        Refusal::IncrementNotPositive => 8,
        Refusal::OutsideTable => 9,
        Refusal::AngleTooLarge => 10,
        Refusal::AnswerNotFinite => 11,
        Refusal::CellInfinite => 12,
        Refusal::ImpossibleRecord => 13,
        Refusal::NotTheForm => 14,
        Refusal::SizesDiffer => 15,
        Refusal::RayNotForward => 16,
        Refusal::NotOurs => 17,
        Refusal::SampleUnsettled => 18,
        Refusal::TooFar => 19,
    }
}

// A point that took no update to find: 0 updates, and the flag says yes.
pub fn direct(point: Point) -> Settled
    ensures { result ≡ direct point }
{
    Settled {
        point,
        updates: 0,
        flag: true,
    }
}

// The number at place i of the two rows one after the other, and 0.0 past them.
fn placed(top: &[f64], bottom: &[f64], i: usize) -> f64
    ensures { result ≡ get_or (top.now ++ bottom.now) i zeros }
{
    if i < top.len() {
        return top[i];
    }
    let j = i - top.len();
    if j < bottom.len() { bottom[j] } else { 0.0 }
}

// The Jacobian of two rows, of any number of columns: each place is written from the rows. The models store theirs one
// by one, which costs less; that of a refused call, of no columns, comes from here. What does not fit the record is cut
// off.
pub fn two_rows(top: &[f64], bottom: &[f64]) -> Jacobian
    ensures { result ≡ two_rows top.now bottom.now }
{
    let mut entries = [0.0; ENTRIES];
    for i in 0..ENTRIES {
        entries[i] = placed(top, bottom, i);
    }
    Jacobian {
        entries,
        columns: top.len(),
    }
}

// The Jacobian of two columns, a b above c d. Stored one by one: every model's derivative by the point ends here, and
// the loop of `two_rows` over all places costs far more (docs/COST.md).
pub fn two_columns(a: f64, b: f64, c: f64, d: f64) -> Jacobian
    ensures { result ≡ two_rows (a ∷ b ∷ []) (c ∷ d ∷ []) }
{
    let mut entries = [0.0; ENTRIES];
    entries[0] = a;
    entries[1] = b;
    entries[2] = c;
    entries[3] = d;
    Jacobian {
        entries,
        columns: 2,
    }
}

// The squared distance of (x, y) from the axis, as every model that asks for it works it out.
pub fn squared_radius(x: f64, y: f64) -> f64
    ensures { result ≡ squared_radius x y }
{
    x * x + y * y
}

// The mark of a list: 0.0 if every number is finite, and NaN if one isn't. By twos, since the compiler subtracts and
// adds two numbers at once, and never changes the order in which a sum is added. A `for` over `chunks_exact(2)` is no
// plainer: of each pair it has to be shown again that it has two places, and the odd last number is asked for elsewhere.
pub fn marks(numbers: &[f64]) -> f64
    ensures { result ≡ mark (all_finite numbers.now) }
{
    let mut left = 0.0;
    let mut right = 0.0;
    let mut i = 0;
    while i + 1 < numbers.len() {
        left = left + exact::mark(numbers[i]);
        right = right + exact::mark(numbers[i + 1]);
        i += 2;
    }
    if i < numbers.len() {
        return left + exact::mark(numbers[i]) + right;
    }
    left + right
}

// Whether every number of a list is finite: what 4 and 11 ask of parameters, points and answers.
pub fn all_finite(numbers: &[f64]) -> bool
    ensures { result ≡ all_finite numbers.now }
{
    let sum = marks(numbers);
    sum == sum
}

// The same of the two numbers of a point or a pixel.
pub fn both_finite(x: f64, y: f64) -> bool
    ensures { result ≡ (finite x && finite y) }
{
    let sum = exact::mark(x) + exact::mark(y);
    sum == sum
}

// 11 for a pixel that isn't finite.
pub fn finite_pixel(pixel: Pixel) -> Result<Pixel, Refusal>
    ensures { result ≡ finite_pixel pixel }
{
    if both_finite(pixel.0, pixel.1) {
        return Ok(pixel);
    }
    Err(Refusal::AnswerNotFinite)
}
