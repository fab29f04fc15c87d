// Mends one listing after the other: of each model, damaged in each way; lines that are nearly a cell's, texts that are
// no listing, every refusal of the printer. The gate runs this on the file stdin, and holds what it writes to the file
// stdout; tools/make_mend_inputs.py makes both.
//
// A case is some parts: the line to write above its answer, the camera file, and the listing, which is mended at once.
// Or that is empty, and the pieces follow that the listing is handed over in, and then an empty one. What a part is
// stands in crates/parts.
#![tactic(auto)]

use mending::{LINE, MAP, OUTPUT};
use printer::NUMBERS;
use std::io;
use std::io::{Read, Write};

// The longest part: one byte more than a camera file may have; and the longest listing.
const PART: usize = 4097;

const LISTING: usize = 100000;

// Keeps what the pieces give of a table of this size. No input has more pieces than a u64 counts.
fn keep_all(input: &mut impl Read, map: &mut [u32; MAP], width: usize, height: usize) {
    let mut room = [0; PART];
    let mut line = [0; LINE];
    let mut held = 0;
    for _ in 0..u64::MAX {
        let piece = parts::read_part(input, &mut room);
        if piece.is_empty() {
            return;
        }
        held = mending::feed(map, &mut line, held, width, height, piece);
    }
}

// Mends the listing in pieces, by the table that the camera file asks for. Behind a refused camera the pieces are read
// past: a table of no size keeps nothing.
fn mend_in_pieces(camera: &[u8], input: &mut impl Read, out: &mut impl Write) -> io::Result<()> {
    let mut room = [0.0; NUMBERS];
    let mut map = [0; MAP];
    let mut printed = [0; OUTPUT];
    let n = match printer::build(camera, &mut room) {
        Ok(built) => {
            keep_all(input, &mut map, built.width, built.height);
            mending::write_mended(
                &mut printed,
                built.width,
                built.height,
                built.updates,
                built.region,
                &room,
                &map,
            )
        }
        Err(refusal) => {
            keep_all(input, &mut map, 0, 0);
            listing_lines::refused_line(&mut printed, 0, refusal)
        }
    };
    out.write_all(&printed[..parts::held(n, &printed)])
}

// Mends it at once.
fn mend_at_once(camera: &[u8], listing: &[u8], out: &mut impl Write) -> io::Result<()> {
    let mut printed = [0; OUTPUT];
    let n = mending::mend(camera, listing, &mut printed);
    out.write_all(&printed[..n])
}

// Reads a camera file and a listing, or its pieces, and writes what is printed for them.
fn answer(input: &mut impl Read, out: &mut impl Write) -> io::Result<()> {
    let mut camera = [0; PART];
    let mut listing = [0; LISTING];
    let camera = parts::read_part(input, &mut camera);
    let listing = parts::read_part(input, &mut listing);
    if listing.is_empty() {
        mend_in_pieces(camera, input, out)
    } else {
        mend_at_once(camera, listing, out)
    }
}

fn main(rt: HostRuntime) {
    parts::answer_cases(&rt, &mut [0; PART], |input, out| answer(input, out));
}
