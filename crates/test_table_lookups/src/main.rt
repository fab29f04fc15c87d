// Looks points up in lens tables, as outside vectors ask: first the table of the rules' example, at its edges and
// with every refusal, which the script lists for a person to read; then tables of every kind. The gate runs this on
// the file stdin, and holds what it writes to the file stdout; tools/make_table_lookups.py makes both.
//
// A line of the input has 33 fields with tabs between, each of 16 lower-case hexadecimal digits: width, height, how
// many places the table has, and then bit patterns of f64s: the region's four edges, the point's two coordinates,
// and 24 numbers that are f32s, of which the table has as many as it has places. The answer is 0, u and v with tabs
// between, or the refusal's number. A line that is not of that form, or has more than 24 places, is answered by
// `bad`. The last line says how many were answered.
#![tactic(auto)]

use lens::{Pixel, Point, Refusal};
use region::Region;
use std::io::Write;
use std::{array, io};

// The fields of a line, and its bytes: a field has 16 digits, and a tab or the line's end after them.
const FIELDS: usize = 33;

const LINE: usize = 561;

// The places that a table may have, and the field that the first stands in.
const PLACES: usize = 24;

const FIRST: usize = 9;

// Looks up what a line of numbers asks for, if the table has room.
fn looked_up(q: [u64; FIELDS]) -> Option<Result<Pixel, Refusal>> {
    let [width, height, places, left, top, right, bottom, x, y, ..] = q;
    let table: [f32; PLACES] = array::from_fn(|i| narrow::narrow(exact::of_bits(q[FIRST + i])));
    let region = Region {
        left: exact::of_bits(left),
        top: exact::of_bits(top),
        right: exact::of_bits(right),
        bottom: exact::of_bits(bottom),
    };
    let point = Point(exact::of_bits(x), exact::of_bits(y));
    let table = table.get(..places as usize)?;
    Some(lookup::lookup(table, region, width as usize, height as usize, point))
}

// Answers one line.
fn answer(line: &[u8], out: &mut impl Write) -> io::Result<()> {
    match parts::numbers(line).and_then(looked_up) {
        Some(Ok(Pixel(u, v))) => {
            write!(out, "0")?;
            parts::say_floats(out, &[u, v])?;
            writeln!(out)
        }
        Some(Err(refusal)) => writeln!(out, "{}", lens::number(refusal)),
        None => writeln!(out, "bad"),
    }
}

fn main(rt: HostRuntime) {
    parts::answer_lines(&rt, &mut [0; LINE], |line, out| answer(line, out));
}
