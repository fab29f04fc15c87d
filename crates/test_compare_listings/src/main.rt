// Compares one pair of texts after the other: listings that differ in each way, every refusal in both places, texts
// that are nearly listings. The gate runs this on the file stdin, and holds what it writes to the file stdout;
// tools/make_compare_inputs.py makes both.
//
// A case is three parts: the line to write above its answer, the old text, the new one. What a part is
// stands in crates/parts.
#![tactic(auto)]

ghost use Rattle.std.specs.Prelude.{length};
ghost use Rattle.std.specs.Iterator.{at_most};

use compare::{Judging, LINE};
use std::io;
use std::io::{Read, Write};

// The longest line above an answer, and the longest other part.
const WORDS: usize = 4096;

const PART: usize = 300000;

// The lines of a text, with their ends. Of one that is longer than a listing's each piece is a line.
#[derive(Drop)]
struct Lines<'a>(&'a [u8]);

impl<'a> Iterator for Lines<'a> {
    type Item = &'a [u8];

    ghost remaining = { λ s. at_most (length s.0.now) };

    fn next(&mut self) -> Option<&'a [u8]> {
        let (line, rest) = self.0.split_at_checked(compare::line_end(self.0, LINE))?;
        self.0 = rest;
        if line.is_empty() { None } else { Some(line) }
    }
}

// Judges a text.
fn judge(text: &[u8]) -> Judging {
    Lines(text).fold(
        compare::start(),
        |judging, line| compare::step(judging, line),
    )
}

// Writes what is told of two texts of one size line by line, and answers the count.
fn compare_texts(old: &[u8], new: &[u8], out: &mut impl Write) -> io::Result<u64> {
    let mut count = 0;
    for (old, new) in Lines(old).zip(Lines(new)) {
        let mut told = [0; 2 * LINE];
        let difference = compare::compare(old, new);
        let n = compare::tell(&mut told, 0, difference, old, new);
        out.write_all(&told[..parts::held(n, &told)])?;
        count = compare::counted(count, difference);
    }
    Ok(count)
}

// Reads two texts, and writes all that is printed of them.
fn answer(input: &mut impl Read, out: &mut impl Write) -> io::Result<()> {
    let mut old = [0; PART];
    let mut new = [0; PART];
    let old = parts::read_part(input, &mut old);
    let new = parts::read_part(input, &mut new);
    let mut line = [0; LINE];
    let n = match compare::verdict(judge(old), judge(new)) {
        Ok(()) => listing_lines::count_line(&mut line, 0, compare_texts(old, new, out)?),
        Err(refusal) => listing_lines::refused_line(&mut line, 0, refusal),
    };
    out.write_all(&line[..parts::held(n, &line)])
}

fn main(rt: HostRuntime) {
    parts::answer_cases(&rt, &mut [0; WORDS], |input, out| answer(input, out));
}
