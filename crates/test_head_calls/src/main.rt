// Calls the functions that a camera head calls, lens_job_new, lens_turn, lens_turn16, lens_observe and lens_lookup,
// each call a line of the input. The gate runs this on the file stdin and holds what it writes to the file stdout;
// tools/make_head_calls.py makes both.
//
// Four buffers last from line to line: one to read from (parameters or a region), one to lend (a job or a list), a
// table of f32s and one of i16s. An answer is written into bytes that are all a5 before the call. A line has 12 fields
// with tabs between, each of 16 lower-case hexadecimal digits. The first says what is done:
//
//   0  every byte becomes a5, every number of both tables 12345
//   1  words are put, eight bytes each, into the buffer to read from; 2: into the one to lend; 3: f64s that are f32s,
//      into their table. Then the place of the first, how many (at most 8), and 8 words
//   4  lens_job_new    5  lens_turn    6  lens_observe    7  lens_lookup    9  lens_turn16
//   8  lens_turn with each bit lent flipped in turn; 10: lens_turn16
//      Then 1 if the bytes lent and the table that come back are to stay, 0 if all is to be as before the call; the
//      model; how much is handed over: bytes to read, bytes lent, bytes for the answer, numbers of the table; width;
//      height; x; y; the allowance, or the strict mark of a fresh job
//
// A call is answered by a line: what is returned, and each buffer that the call may write, as it is after the call, or
// `kept` if it is bit for bit as it was. An i16 is written as the f32 that is the same number. For 8 and 10 that is a
// line for each bit of the bytes lent, from the lowest of the first byte on: one turn with that bit flipped and no
// other; and then a line with how many there were. A line that starts with # is a heading, written as it is; any other
// is answered by `bad`.
#![tactic(auto)]

use std::io;
use std::io::Write;

// The fields of a line, and its bytes: a field has 16 digits, and a tab or the line's end after them.
const FIELDS: usize = 12;

const LINE: usize = 204;

// How long the buffers are, and what stands in the bytes at first.
const BYTES: usize = 512;

const NUMBERS: usize = 64;

const FILL: u8 = 0xa5;

// A byte's bits, the lowest first.
const BITS: [u8; 8] = [1, 2, 4, 8, 16, 32, 64, 128];

// What lasts from line to line.
#[derive(Clone, Copy)]
struct Buffers {
    read: [u8; BYTES],
    lent: [u8; BYTES],
    table: [f32; NUMBERS],
    table16: [i16; NUMBERS],
}

fn filled() -> Buffers {
    Buffers {
        read: [FILL; BYTES],
        lent: [FILL; BYTES],
        table: [12345.0; NUMBERS],
        table16: [12345; NUMBERS],
    }
}

// What a buffer holds, as it is compared and written: by its bits, in so many digits.
trait Shown: Copy {
    const DIGITS: usize;

    fn bits(self) -> u32;
}

impl Shown for u8 {
    const DIGITS: usize = 2;

    fn bits(self) -> u32 {
        u32::from(self)
    }
}

impl Shown for f32 {
    const DIGITS: usize = 8;

    fn bits(self) -> u32 {
        exact::to_bits32(self)
    }
}

impl Shown for i16 {
    const DIGITS: usize = 8;

    fn bits(self) -> u32 {
        exact::to_bits32(f32::from(self))
    }
}

// A number of a table, and the turn that fills such a table.
trait Number: Shown {
    fn turn(job: &mut [u8], table: &mut [Self], allowance: u64, answer: &mut [u8]) -> u8;
}

impl Number for f32 {
    fn turn(job: &mut [u8], table: &mut [f32], allowance: u64, answer: &mut [u8]) -> u8 {
        lens_c::lens_turn(job, table, allowance, answer)
    }
}

impl Number for i16 {
    fn turn(job: &mut [u8], table: &mut [i16], allowance: u64, answer: &mut [u8]) -> u8 {
        lens_c::lens_turn16(job, table, allowance, answer)
    }
}

// ---- writing

// Writes the number that was returned, or 255 where there was no call.
fn say_number(number: Option<u8>, out: &mut impl Write) -> io::Result<()> {
    write!(out, "{}", number.unwrap_or(255))
}

// Writes the first n of a buffer as they are after a call, or that all are kept.
fn say_after<T: Shown>(
    before: &[T],
    after: &[T],
    n: usize,
    out: &mut impl Write,
) -> io::Result<()> {
    let digits = T::DIGITS;
    write!(out, "\t")?;
    if before.iter().zip(after).all(|(a, b)| a.bits() == b.bits()) {
        write!(out, "kept")?;
    } else if let Some(part) = after.get(..n) {
        for x in part {
            write!(out, "{:0digits$x}", x.bits())?;
        }
    }
    Ok(())
}

// ---- putting

// Puts a line's words into a buffer. What does not fit is left out.
fn put_words(q: &[u64; FIELDS], bytes: &mut [u8; BYTES]) {
    let (places, _) = bytes.as_chunks_mut::<8>();
    let words = q[3..].iter().take(q[2].min(8) as usize);
    for (place, word) in places.iter_mut().skip(q[1] as usize).zip(words) {
        *place = word.to_le_bytes();
    }
}

// Puts a line's numbers into the table.
fn put_numbers(q: &[u64; FIELDS], table: &mut [f32; NUMBERS]) {
    let numbers = q[3..].iter().take(q[2].min(8) as usize);
    for (place, bits) in table.iter_mut().skip(q[1] as usize).zip(numbers) {
        *place = narrow::narrow(exact::of_bits(*bits));
    }
}

// ---- the calls, each with as much of its buffers as its line says. More than there is has no call

// The model that a line names.
fn model_of(q: &[u64; FIELDS]) -> u8 {
    (q[2] % 256) as u8
}

// A width or a height.
fn size_of(field: u64) -> u32 {
    (field % 0x1_0000_0000) as u32
}

// A fresh job, or a list.
fn call_with_camera(q: &[u64; FIELDS], params: &[u8], lent: &mut [u8]) -> Option<u8> {
    let params = params.get(..q[3] as usize)?;
    let lent = lent.get_mut(..q[4] as usize)?;
    let model = model_of(q);
    if q[0] == 4 {
        let strict = (q[11] % 256) as u8;
        Some(lens_c::lens_job_new(model, params, size_of(q[7]), size_of(q[8]), strict, lent))
    } else {
        Some(lens_c::lens_observe(model, params, lent))
    }
}

fn call_turn<N: Number>(
    q: &[u64; FIELDS],
    job: &mut [u8],
    table: &mut [N],
    answer: &mut [u8],
) -> Option<u8> {
    let job = job.get_mut(..q[4] as usize)?;
    let answer = answer.get_mut(..q[5] as usize)?;
    let table = table.get_mut(..q[6] as usize)?;
    Some(N::turn(job, table, q[11], answer))
}

fn call_lookup(q: &[u64; FIELDS], table: &[f32], region: &[u8], answer: &mut [u8]) -> Option<u8> {
    let region = region.get(..q[3] as usize)?;
    let answer = answer.get_mut(..q[5] as usize)?;
    let table = table.get(..q[6] as usize)?;
    let x = exact::of_bits(q[9]);
    let y = exact::of_bits(q[10]);
    Some(lens_c::lens_lookup(table, region, size_of(q[7]), size_of(q[8]), x, y, answer))
}

// ---- the calls, with what comes back said, and kept or put back

fn job_or_list(
    q: &[u64; FIELDS],
    read: &[u8; BYTES],
    lent: &mut [u8; BYTES],
    out: &mut impl Write,
) -> io::Result<()> {
    let before = *lent;
    say_number(call_with_camera(q, read, lent), out)?;
    say_after(&before, lent, q[4] as usize, out)?;
    if q[1] == 0 {
        *lent = before;
    }
    Ok(())
}

fn turn<N: Number>(
    q: &[u64; FIELDS],
    lent: &mut [u8; BYTES],
    table: &mut [N; NUMBERS],
    out: &mut impl Write,
) -> io::Result<()> {
    let lent_before = *lent;
    let table_before = *table;
    let mut answer = [FILL; BYTES];
    say_number(call_turn(q, lent, table, &mut answer), out)?;
    say_after(&lent_before, lent, q[4] as usize, out)?;
    say_after(&table_before, table, q[6] as usize, out)?;
    say_after(&[FILL; BYTES], &answer, q[5] as usize, out)?;
    if q[1] == 0 {
        *lent = lent_before;
        *table = table_before;
    }
    Ok(())
}

// A turn over copies with each bit of the bytes lent flipped, the lowest of the first byte first.
fn turn_flipped<N: Number>(
    q: &[u64; FIELDS],
    lent: &[u8; BYTES],
    table: &[N; NUMBERS],
    out: &mut impl Write,
) -> io::Result<()> {
    let count = q[4].min(512) as usize;
    for at in 0..count {
        for bit in BITS {
            let mut damaged = *lent;
            let mut cells = *table;
            damaged[at] ^= bit;
            turn(q, &mut damaged, &mut cells, out)?;
            writeln!(out)?;
        }
    }
    write!(out, "bits\t{}", 8 * count)
}

fn look_up(
    q: &[u64; FIELDS],
    read: &[u8; BYTES],
    table: &[f32; NUMBERS],
    out: &mut impl Write,
) -> io::Result<()> {
    let mut answer = [FILL; BYTES];
    say_number(call_lookup(q, table, read, &mut answer), out)?;
    say_after(&[FILL; BYTES], &answer, q[5] as usize, out)
}

// ---- the lines

// Does what a line says.
fn answer_question(
    q: &[u64; FIELDS],
    buffers: &mut Buffers,
    out: &mut impl Write,
) -> io::Result<()> {
    match q[0] {
        0 => *buffers = filled(),
        1 => put_words(q, &mut buffers.read),
        2 => put_words(q, &mut buffers.lent),
        3 => put_numbers(q, &mut buffers.table),
        4 | 6 => job_or_list(q, &buffers.read, &mut buffers.lent, out)?,
        5 => turn(q, &mut buffers.lent, &mut buffers.table, out)?,
        7 => look_up(q, &buffers.read, &buffers.table, out)?,
        8 => turn_flipped(q, &buffers.lent, &buffers.table, out)?,
        9 => turn(q, &mut buffers.lent, &mut buffers.table16, out)?,
        10 => turn_flipped(q, &buffers.lent, &buffers.table16, out)?,
        _ => write!(out, "bad")?,
    }
    if q[0] > 3 {
        writeln!(out)?;
    }
    Ok(())
}

// Does what one line says, if it is of the form.
fn answer(line: &[u8], buffers: &mut Buffers, out: &mut impl Write) -> io::Result<()> {
    if line.starts_with(b"#") {
        return out.write_all(line);
    }
    match parts::numbers(line) {
        Some(q) => answer_question(&q, buffers, out),
        None => writeln!(out, "bad"),
    }
}

fn main(rt: HostRuntime) {
    let mut buffers = filled();
    parts::answer_lines(
        &rt,
        &mut [0; LINE],
        |line, out| answer(line, &mut buffers, out),
    );
}
