// The text of a camera file: a camera's name and size, and its parameters' bit patterns, as a program is handed them.
#![tactic(auto)]

ghost use Rattle.std.specs.Prelude.{◌≡◌};
ghost use Rattle.decimal.specs.Text.{all, before, past};
ghost use Rattle.params_line.specs.Params.{at, params_of};
ghost use Rattle.camera.specs.Numbers.{first_of, most};
ghost use Rattle.camera_file.specs.Text.{letter};
ghost use Rattle.camera_file.specs.Reading.{is_name};
ghost use Rattle.camera_file.specs.Asked.{model, camera_of, asked_of, parsed};

use camera::Camera;
use camera::numbers::MOST;
use lens::Refusal;
use std::array;

// The most bytes that a text has.
pub const LONGEST: usize = 4096;

// The most bytes that a name has.
const NAME: usize = 16;

// What a camera file asks for: a camera, and the size of its table.
#[derive(Clone, Copy)]
pub struct Asked {
    pub camera: Camera,
    pub width: usize,
    pub height: usize,
}

// What stands before the first b of a text, and what after it. Where there is no b nothing is left, and is refused as
// such.
fn cut(text: &[u8], b: u8) -> (&[u8], &[u8])
    ensures first { result.0.now ≡ before b text.now }
    ensures rest { result.1.now ≡ past b text.now }
{
    let end = decimal::place(text, b);
    if end < text.len() {
        (&text[..end], &text[end + 1..])
    } else {
        (text, &[])
    }
}

// Whether b may stand in a name.
fn letter(b: u8) -> bool
    ensures { result ≡ letter b }
{
    b.is_ascii_lowercase() || b.is_ascii_digit()
}

// Whether every byte of a field may.
fn all_letters(field: &[u8]) -> bool
    ensures { result ≡ all letter field.now }
{
    field.iter().all(|b| letter(*b))
}

// Whether a field is a name.
fn is_name(field: &[u8]) -> bool
    ensures { result ≡ is_name field.now }
{
    if field.is_empty() || field.len() > NAME {
        return false;
    }
    all_letters(field)
}

// The number of the model that a name stands for. A match on byte strings was tried: its proof falls into 25 goals, one
// for each byte that may differ, under names that change.
fn model_of(name: &[u8]) -> Option<u8>
    ensures { result ≡ model name.now }
{
    if name == b"affine".as_slice() {
        Some(0)
    } else if name == b"eucm".as_slice() {
        Some(1)
    } else if name == b"kb".as_slice() {
        Some(2)
    } else if name == b"bc".as_slice() {
        Some(3)
    } else if name == b"bc12".as_slice() {
        Some(4)
    } else {
        None
    }
}

// The first parameters of a line, as many as any model has, zeros for those that are missing.
fn numbers(line: &[u8]) -> [f64; MOST]
    ensures { result ≡ first_of most (at (params_of line.now)) }
{
    array::from_fn(|k| params_line::at(line, k))
}

// The camera of a params line that has as many parameters as the model.
fn camera_of(model: u8, line: &[u8]) -> Camera
    ensures { result ≡ camera_of model (params_of line.now) }
{
    camera::numbers::camera_of(model, &numbers(line))
}

// What is asked for, or 1, then 3.
fn asked_of(model: Option<u8>, width: usize, height: usize, line: &[u8]) -> Result<Asked, Refusal>
    ensures { result ≡ asked_of model width height (params_of line.now) }
{
    let model = model.ok_or(Refusal::UnknownModel)?;
    if params_line::many(line) != usize::from(camera::numbers::count(model)) {
        return Err(Refusal::WrongCount);
    }
    Ok(Asked {
        camera: camera_of(model, line),
        width,
        height,
    })
}

// What a text asks for, or why it asks for nothing: 14, then 1, then 3. The length is tested before a byte is looked at,
// and each field before the next is, so that what is refused costs no more than the bytes up to there.
pub fn parse(text: &[u8]) -> Result<Asked, Refusal>
    ensures { result ≡ parsed text.now }
{
    if text.len() > LONGEST {
        return Err(Refusal::NotTheForm);
    }
    let (word, named) = cut(text, b'\t');
    if word != b"camera".as_slice() {
        return Err(Refusal::NotTheForm);
    }
    let (name, sized) = cut(named, b'\t');
    if !is_name(name) {
        return Err(Refusal::NotTheForm);
    }
    let (width, high) = cut(sized, b'\t');
    let width = decimal::number_in(width).ok_or(Refusal::NotTheForm)?;
    let (height, line) = cut(high, b'\n');
    let height = decimal::number_in(height).ok_or(Refusal::NotTheForm)?;
    if !params_line::is_line(b"params", line) {
        return Err(Refusal::NotTheForm);
    }
    asked_of(model_of(name), width, height, line)
}
