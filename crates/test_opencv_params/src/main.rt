// Moves one text after the other: cameras of ours and of OpenCV's, every refusal at its edge, every text cut short at
// each byte, and random cameras there and back. The gate runs this on the file stdin, and holds what it writes to the
// file stdout; tools/make_opencv_inputs.py makes both.
//
// A case is two parts: the line to write above its answer, and the text. What a part is stands in
// crates/parts.
#![tactic(auto)]

use std::io;
use std::io::{Read, Write};

// The longest part: one byte more than a text may have.
const PART: usize = 4097;

// Reads a text, and writes what it gives.
fn answer(input: &mut impl Read, out: &mut impl Write) -> io::Result<()> {
    let mut room = [0; PART];
    let mut output = [0; opencv::OUTPUT];
    let written = opencv::convert(parts::read_part(input, &mut room), &mut output);
    out.write_all(&output[..written])
}

fn main(rt: HostRuntime) {
    parts::answer_cases(&rt, &mut [0; PART], |input, out| answer(input, out));
}
