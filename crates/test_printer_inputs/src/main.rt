// Prints the table of one input after the other: every refusal that the printer can give, texts that are nearly of the
// form, and a table of each model. The gate runs this on the file stdin, and holds what it writes to the file stdout;
// tools/make_printer_inputs.py makes both.
//
// A case is two parts: the line to write above its answer, and the input. What a part is stands in
// crates/parts.
#![tactic(auto)]

use std::io;
use std::io::{Read, Write};

// The longest part: one byte more than a camera file may have.
const PART: usize = 4097;

// Reads an input, and writes what is printed for it.
fn answer(input: &mut impl Read, out: &mut impl Write) -> io::Result<()> {
    let mut room = [0; PART];
    let mut output = [0; printer::OUTPUT];
    let printed = printer::print(parts::read_part(input, &mut room), &mut output);
    out.write_all(&output[..printed])
}

fn main(rt: HostRuntime) {
    parts::answer_cases(&rt, &mut [0; PART], |input, out| answer(input, out));
}
