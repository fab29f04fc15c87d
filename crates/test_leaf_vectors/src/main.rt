// Runs root, narrow and thirty_seconds over outside vectors, which tools/make_leaf_vectors.py makes by
// whole-number arithmetic. The gate runs this on the file stdin, and holds what it writes to the file
// stdout.
//
// A line of the input is `root`, `narrow` or `thirty_seconds`, a tab and the 16 lower-case hexadecimal
// digits of an f64's bit pattern. It is written again with a tab and the answer's bit pattern; a number
// of thirty-seconds is written as an f64, or as `too far`. A line that is not of that form is answered
// by `bad`. The last line says how many were answered.
#![tactic(auto)]

use std::io;
use std::io::Write;

// Answers one line, given without its end.
fn answer(line: &[u8], out: &mut impl Write) -> io::Result<()> {
    let asked = |word: &[u8]| hexadecimal::after(word, line).map(|bits| exact::of_bits(bits));
    if let Some(x) = asked(b"root\t") {
        out.write_all(line)?;
        writeln!(out, "\t{:016x}", exact::to_bits(root::root(x)))
    } else if let Some(x) = asked(b"narrow\t") {
        out.write_all(line)?;
        writeln!(out, "\t{:08x}", exact::to_bits32(narrow::narrow(x)))
    } else if let Some(x) = asked(b"thirty_seconds\t") {
        out.write_all(line)?;
        match thirty_seconds::thirty_seconds(x) {
            Some(n) => writeln!(out, "\t{:016x}", exact::to_bits(f64::from(n))),
            None => writeln!(out, "\ttoo far"),
        }
    } else {
        writeln!(out, "bad")
    }
}

fn main(rt: HostRuntime) {
    parts::answer_text(&rt, |line, out| answer(line, out));
}
