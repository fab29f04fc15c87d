// Calls what the port offers to Rattle and C goes around: the camera's four operations, and the list of observations in
// its first form, a lent slice of records. C's own calls judge a camera while they read it, and go on by `placed` and
// the functions whose names end in `_judged`. The gate runs this on the file stdin and holds what it writes to the file
// stdout; tools/make_port_calls.py makes both, and asks the questions of test_camera_calls' models.
//
// A line has 24 fields with tabs between, each of 16 lower-case hexadecimal digits: the model; what is done; sixteen
// words, which are the parameters' bit patterns; and three pairs of f64s. What is done:
//
//   0 to 3  distort, undistort, dx_distort_x or dx_distort_params, at the first pair
//   4       the three pairs are the pixels of a list of three records, which is observed
//
// The answer to an operation is its number, and after a 0 the words of what it gives: the pixel; the point, and the
// updates with 2^32 added for the flag; the 32 entries of the Jacobian and its columns. The answer to a list is the
// number that is returned, and six words of each record as it is then: pixel, answer, flag and number. A line that is
// not of that form is answered by `bad`. The last line says how many there were.
#![tactic(auto)]

use camera::Camera;
use lens::{Jacobian, Pixel, Point, Refusal, Settled};
use observations::Observation;
use std::io::Write;
use std::{array, io};

// The fields of a line, and its bytes: a field has 16 digits, and a tab or the line's end after them.
const FIELDS: usize = 24;

const LINE: usize = 408;

// The fields that the first of the words and the first pair stand in.
const FIRST: usize = 2;

const PAIRS: usize = 18;

// ---- what a line says

fn camera_asked(q: &[u64; FIELDS]) -> Camera {
    let numbers = array::from_fn(|i| exact::of_bits(q[FIRST + i]));
    camera::numbers::camera_of((q[0] % 256) as u8, &numbers)
}

// A record before the call. All that the call is to write holds something else.
fn record_asked(u: u64, v: u64) -> Observation {
    Observation {
        pixel: Pixel(exact::of_bits(u), exact::of_bits(v)),
        answer: Point(99.0, -99.0),
        flag: true,
        number: 99,
    }
}

// ---- writing

// Writes the number of an operation's answer, and behind a 0 what it gives.
fn say<T: Drop, W: Write, F: FnOnce(T, &mut W) -> io::Result<()>>(
    answer: Result<T, Refusal>,
    out: &mut W,
    give: F,
) -> io::Result<()>
    requires { F.IsAlwaysCallable give }
{
    match answer {
        Ok(given) => {
            write!(out, "0")?;
            give(given, out)
        }
        Err(refusal) => write!(out, "{}", lens::number(refusal)),
    }
}

fn say_pixel(pixel: Pixel, out: &mut impl Write) -> io::Result<()> {
    parts::say_floats(out, &[pixel.0, pixel.1])
}

// The updates have 2^32 more for a yes.
fn say_settled(settled: Settled, out: &mut impl Write) -> io::Result<()> {
    parts::say_floats(out, &[settled.point.0, settled.point.1])?;
    let ended = u64::from(settled.updates) | u64::from(settled.flag) << 32;
    write!(out, "\t{ended:016x}")
}

fn say_jacobian(jacobian: Jacobian, out: &mut impl Write) -> io::Result<()> {
    parts::say_floats(out, &jacobian.entries)?;
    write!(out, "\t{:016x}", jacobian.columns)
}

fn say_record(record: Observation, out: &mut impl Write) -> io::Result<()> {
    let Observation {
        pixel,
        answer,
        flag,
        number,
    } = record;
    parts::say_floats(out, &[pixel.0, pixel.1, answer.0, answer.1])?;
    write!(out, "\t{:016x}\t{number:016x}", u64::from(flag))
}

// ---- a call

// Answers a question of the form, if there is such a model and such a call.
fn answer_question(q: &[u64; FIELDS], out: &mut impl Write) -> io::Result<()> {
    if q[0] > 4 {
        return write!(out, "bad");
    }
    let camera = camera_asked(q);
    let x = exact::of_bits(q[PAIRS]);
    let y = exact::of_bits(q[PAIRS + 1]);
    match q[1] {
        0 => say(
            camera::distort(camera, Point(x, y)),
            out,
            |given, out| say_pixel(given, out),
        ),
        1 => say(
            camera::undistort(camera, Pixel(x, y)),
            out,
            |given, out| say_settled(given, out),
        ),
        2 => say(
            camera::dx_distort_x(camera, Point(x, y)),
            out,
            |given, out| say_jacobian(given, out),
        ),
        3 => say(
            camera::dx_distort_params(camera, Point(x, y)),
            out,
            |given, out| say_jacobian(given, out),
        ),
        4 => {
            let mut list = [
                record_asked(q[PAIRS], q[PAIRS + 1]),
                record_asked(q[PAIRS + 2], q[PAIRS + 3]),
                record_asked(q[PAIRS + 4], q[PAIRS + 5]),
            ];
            write!(out, "{}", observations::observe_all(camera, &mut list))?;
            for record in list {
                say_record(record, out)?;
            }
            Ok(())
        }
        _ => write!(out, "bad"),
    }
}

// Answers one line, if it is of the form.
fn answer(line: &[u8], out: &mut impl Write) -> io::Result<()> {
    match parts::numbers(line) {
        Some(q) => answer_question(&q, out)?,
        None => write!(out, "bad")?,
    }
    writeln!(out)
}

fn main(rt: HostRuntime) {
    parts::answer_lines(&rt, &mut [0; LINE], |line, out| answer(line, out));
}
