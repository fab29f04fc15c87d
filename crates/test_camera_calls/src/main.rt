// Calls what C calls of a camera: the four operations, the list of observations, and the functions of one number,
// each call or row of calls a line of the input. The gate runs this on the file stdin and holds what it writes to
// the file stdout; tools/make_camera_calls.py makes both, and joins to its own questions a sample of the oracle's.
//
// A line has 22 fields with tabs between, each of 16 lower-case hexadecimal digits: the model; what is done; how
// many bytes of parameters are handed over, at most 304, and how many are lent, at most 4,000; sixteen words, which
// are the parameters' bit patterns; x and y. What is done:
//
//   0 to 3  the four operations, as in lens_c's header
//   4       the root of x, 5 its tangent, 8 its arctangent
//   6       the list of observations that starts at the byte of the lent ones that x counts
//   7       the sixteen words are put there, to stay. This has no answer
//
// and with 16 r added to it, all calls of a row, n from 0 to 300: n bytes are lent (r = 1), handed over (2) or both
// (3), or n is the model (4). All lent bytes are a5 before the first line is read, and after a call they are what
// they were before it.
//
// A call is answered by a line: the number returned, and after a 0 the words of what was lent. The line of a row
// has n before that, and stands only for n = 0, for a 0, and where the number is another than that of the call
// before. Where a refused call changed a byte, or another one a byte that was not lent, the line has `touched`. A
// line that starts with # is a heading, written as it is; any other is answered by `bad`. The last line says how
// many there were.
#![tactic(auto)]

ghost use Rattle.std.specs.Prelude.{◌≤◌};

use std::io;
use std::io::Write;

// The fields of a line, and its bytes: a field has 16 digits, and a tab or the line's end after them.
const FIELDS: usize = 22;

const LINE: usize = 374;

// The words of a line, and the fields that the first of them, x and y stand in.
const WORDS: usize = camera::numbers::MOST;

const FIRST: usize = 4;

const X: usize = 20;

const Y: usize = 21;

// The most bytes that are handed over, and lent.
const HANDED: usize = 304;

const LENT: usize = 4000;

// What those bytes hold at first.
const FILL: u8 = 0xa5;

// What a call is given beside its numbers. The bytes that are lent start at one of all.
#[derive(Clone, Copy)]
struct Call {
    model: u8,
    handed: usize,
    at: usize,
    lent: usize,
}

// ---- what a line says

// The call that a line asks for, or the one with n of its row. All that is no byte is named by a model that there is
// none of.
fn asked(q: &[u64; FIELDS], n: usize) -> Call {
    let row = q[1] / 16;
    Call {
        model: if row == 4 {
            (n % 256) as u8
        } else {
            u8::try_from(q[0]).unwrap_or(255)
        },
        handed: if matches!(row, 2 | 3) {
            n
        } else {
            q[2] as usize
        },
        at: if q[1] % 16 == 6 { q[X] as usize } else { 0 },
        lent: if matches!(row, 1 | 3) {
            n
        } else {
            q[3] as usize
        },
    }
}

// How many calls a line asks for.
fn calls(q: &[u64; FIELDS]) -> usize {
    if q[1] < 16 { 1 } else { 301 }
}

// Puts the words of a line. What does not fit is left out.
fn put_words(q: &[u64; FIELDS], bytes: &mut [u8], at: usize)
    requires { at ≤ 4000 }
{
    for i in 0..WORDS {
        little_endian::put(bytes, at + 8 * i, 8, q[FIRST + i]);
    }
}

// ---- a call

fn called(q: &[u64; FIELDS], model: u8, params: &[u8], lent: &mut [u8]) -> u8 {
    let x = exact::of_bits(q[X]);
    let y = exact::of_bits(q[Y]);
    match q[1] % 16 {
        0 => lens_c::lens_distort(model, params, x, y, lent),
        1 => lens_c::lens_undistort(model, params, x, y, lent),
        2 => lens_c::lens_dx_distort_x(model, params, x, y, lent),
        3 => lens_c::lens_dx_distort_params(model, params, x, y, lent),
        5 => lens_c::lens_tangent(x, lent),
        _ => lens_c::lens_observe(model, params, lent),
    }
}

// Hands over and lends as much as is asked. More than there is has no call.
fn call_with(q: &[u64; FIELDS], call: Call, params: &[u8], lent: &mut [u8]) -> Option<u8> {
    let params = params.get(..call.handed)?;
    let lent = lent.get_mut(call.at..)?.get_mut(..call.lent)?;
    Some(called(q, call.model, params, lent))
}

// Whether every byte outside the part that may be written is as it was.
fn kept(before: &[u8; LENT], after: &[u8; LENT], at: usize, count: usize) -> bool {
    let start = at.min(LENT);
    let end = start.saturating_add(count).min(LENT);
    before[..start] == after[..start] && before[end..] == after[end..]
}

// Writes each word of a part of the bytes.
fn say_words(bytes: &[u8], at: usize, count: usize, out: &mut impl Write) -> io::Result<()> {
    if let Some(part) = bytes.get(at..).and_then(|rest| rest.get(..count)) {
        for word in part.chunks_exact(8) {
            write!(out, "\t{:016x}", little_endian::word(word, 0))?;
        }
    }
    Ok(())
}

// Calls, writes what is to be said of it, and gives the number. Then all that was lent is as before.
fn answer_call(
    q: &[u64; FIELDS],
    n: usize,
    last: Option<u8>,
    lent: &mut [u8; LENT],
    out: &mut impl Write,
) -> io::Result<Option<u8>> {
    let mut params = [FILL; HANDED];
    put_words(q, &mut params, 0);
    let call = asked(q, n);
    let before = *lent;
    let number = call_with(q, call, &params, lent);
    let written = if number == Some(0) { call.lent } else { 0 };
    let whole = kept(&before, lent, call.at, written);
    if n == 0 || number == Some(0) || number != last || !whole {
        if 16 <= q[1] {
            write!(out, "{n}\t")?;
        }
        match number {
            Some(number) => write!(out, "{number}")?,
            None => write!(out, "bad")?,
        }
        say_words(lent, call.at, written, out)?;
        if !whole {
            write!(out, "\ttouched")?;
        }
        writeln!(out)?;
    }
    *lent = before;
    Ok(number)
}

// ---- the lines

// Answers with the f64 that a function of one number gives: it refuses none.
fn answer_float(x: f64, out: &mut impl Write) -> io::Result<()> {
    write!(out, "0")?;
    parts::say_floats(out, &[x])?;
    writeln!(out)
}

// Does what a line says.
fn answer_question(
    q: &[u64; FIELDS],
    lent: &mut [u8; LENT],
    out: &mut impl Write,
) -> io::Result<()> {
    let x = exact::of_bits(q[X]);
    match q[1] {
        4 => answer_float(lens_c::lens_root(x), out),
        8 => answer_float(lens_c::lens_arctangent(x), out),
        7 if q[X] <= 4000 => {
            put_words(q, lent, q[X] as usize);
            Ok(())
        }
        done if done < 80 && matches!(done % 16, 0..=3 | 5 | 6) => {
            let mut last = None;
            for n in 0..calls(q) {
                last = answer_call(q, n, last, lent, out)?;
            }
            Ok(())
        }
        _ => writeln!(out, "bad"),
    }
}

// Does what one line says, if it is of the form.
fn answer(line: &[u8], lent: &mut [u8; LENT], out: &mut impl Write) -> io::Result<()> {
    if line.starts_with(b"#") {
        return out.write_all(line);
    }
    match parts::numbers(line) {
        Some(q) => answer_question(&q, lent, out),
        None => writeln!(out, "bad"),
    }
}

fn main(rt: HostRuntime) {
    let mut lent = [FILL; LENT];
    parts::answer_lines(
        &rt,
        &mut [0; LINE],
        |line, out| answer(line, &mut lent, out),
    );
}
