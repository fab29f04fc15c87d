// Runs arctangent and tangent over outside values, which tools/make_angle_vectors.py makes with exact
// fractions. The gate runs this on the file stdin, and holds what it writes to the file stdout.
//
// A line of the input is `arctangent` or `tangent`, the argument, and the least and the largest f64
// that may be answered, with tabs between; each number is the 16 lower-case hexadecimal digits of a
// bit pattern. Its first two fields are written again with a tab and a verdict: `within`, `outside`,
// `nan` or `refused`. A line that is not of that form is answered by `bad`. The last line says how many
// were answered.
#![tactic(auto)]

use std::io;
use std::io::Write;

// A question by its bit patterns: the argument, and the least and the largest answer.
#[derive(Clone, Copy)]
struct Question {
    argument: u64,
    low: u64,
    high: u64,
}

// What a line asks after word, if it asks anything. The two last fields have 17 bytes each, with the tab before them.
fn asked(word: &[u8], line: &[u8]) -> Option<Question> {
    let (rest, high) = line.split_last_chunk::<17>()?;
    let (first, low) = rest.split_last_chunk::<17>()?;
    Some(Question {
        argument: hexadecimal::after(word, first)?,
        low: hexadecimal::after(b"\t", low)?,
        high: hexadecimal::after(b"\t", high)?,
    })
}

// Whether an answer that is no NaN may be given. Where only one may, the bits are compared, so that a
// zero is held to its sign.
fn allowed(answer: f64, q: Question) -> bool {
    if q.low == q.high {
        exact::to_bits(answer) == q.low
    } else {
        exact::of_bits(q.low) <= answer && answer <= exact::of_bits(q.high)
    }
}

// The verdict on an answer, which may be refused.
fn judged(answer: Option<f64>, q: Question) -> &'static str {
    match answer {
        None => "refused",
        Some(x) if x.is_nan() => "nan",
        Some(x) if allowed(x, q) => "within",
        Some(_) => "outside",
    }
}

// Answers one line, given without its end. A number has one spelling, so the argument is written as it was read.
fn answer(line: &[u8], out: &mut impl Write) -> io::Result<()> {
    if let Some(q) = asked(b"arctangent\t", line) {
        let verdict = judged(Some(arctan::arctangent(exact::of_bits(q.argument))), q);
        writeln!(out, "arctangent\t{:016x}\t{verdict}", q.argument)
    } else if let Some(q) = asked(b"tangent\t", line) {
        let verdict = judged(arctan::tangent(exact::of_bits(q.argument)), q);
        writeln!(out, "tangent\t{:016x}\t{verdict}", q.argument)
    } else {
        writeln!(out, "bad")
    }
}

fn main(rt: HostRuntime) {
    parts::answer_text(&rt, |line, out| answer(line, out));
}
