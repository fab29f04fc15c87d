// Builds lens tables in turns, as outside vectors ask, which tools/make_table_vectors.py makes from the
// text of the Rust. The gate runs this on the file stdin, and holds what it writes to the file stdout.
//
// A line of the input has 22 fields with tabs between, each of 16 lower-case hexadecimal digits: the
// model, from 0 to 4, the width, the height, the allowance of every turn, 1 for a strict job or else 0, 1
// for cells of sixteen bits or 0 for f32s, and then bit patterns of f64s: sixteen parameters, of which a
// model takes as many as it has. The answer is
// `fresh`, or `refused` and a number and nothing more. Then comes a line for each turn, by its status:
// `running`, `finished`, or `refused` and a number, with the units done, the updates, how many samples did
// not settle and the position of the first. A turn follows as long as the status is running, but none
// follows a turn of allowance 0. Then the edges and the region, and every place of the table as it is then,
// two for each cell: one that was not written has 3f000000, as before the first turn. A number of sixteen
// bits is written as an f32: 41800000, which is 16, where none was written.
// A line that is not of that form, or asks for more cells than there is room for, is answered by `bad`.
// The last line says how many were answered.
#![tactic(auto)]

use cell::CellNumber;
use distortion_table::Status;
use job::Job;
use region::Region;
use std::io::Write;
use std::{array, io};

// The fields of a line, and its bytes: a field has 16 digits, and a tab or the line's end after them.
// All lines are of one length, so that one is read at a time, and there may be any number of them.
const FIELDS: usize = 22;

const LINE: usize = 374;

// The field that the first parameter stands in.
const FIRST: usize = 6;

// The places of the 3,072 cells that a table may have here: two for each.
const PLACES: usize = 6144;

// A turn that is running with an allowance has done a unit, so there are no more turns than units. Of all
// tables with so many cells the one of 2 by 1536 has the most: 3,080 samples and 3,072 cells.
const TURNS: usize = 6152;

// A number of a table, which is written by the bits of the f32 that is the same number.
trait Number: CellNumber {
    fn bits(self) -> u32;
}

impl Number for f32 {
    fn bits(self) -> u32 {
        exact::to_bits32(self)
    }
}

impl Number for i16 {
    fn bits(self) -> u32 {
        exact::to_bits32(f32::from(self))
    }
}

// Takes turn after turn, writes a line for each, and gives the last record.
fn take_turns<N: Number>(
    table: &mut [N],
    fresh: Job,
    allowance: usize,
    out: &mut impl Write,
) -> io::Result<Job> {
    let mut job = fresh;
    for _ in 0..TURNS {
        let turned = distortion_table::turn(job, table, allowance);
        job = turned.job;
        match turned.status {
            Status::Finished => write!(out, "finished")?,
            Status::Refused(refusal) => write!(out, "refused\t{}", lens::number(refusal))?,
            Status::Running => write!(out, "running")?,
        }
        let at = job.at;
        writeln!(
            out,
            "\t{}\t{}\t{}\t{}",
            at.done, at.updates, at.unsettled, at.first
        )?;
        if allowance == 0 || !matches!(turned.status, Status::Running) {
            break;
        }
    }
    Ok(job)
}

// Writes a box: lower x, lower y, upper x, upper y.
fn say_box(word: &str, region: Region, out: &mut impl Write) -> io::Result<()> {
    write!(out, "{word}")?;
    parts::say_floats(out, &[region.left, region.top, region.right, region.bottom])?;
    writeln!(out)
}

// Builds the table of a fresh record, if there is room for it, and writes what comes of it.
fn build<N: Number>(
    q: &[u64; FIELDS],
    fresh: Job,
    room: &mut [N],
    out: &mut impl Write,
) -> io::Result<()> {
    let cells = (q[1] as usize).saturating_mul(q[2] as usize);
    let Some(table) = room.get_mut(..cells.saturating_mul(2)) else {
        return writeln!(out, "bad");
    };
    writeln!(out, "fresh")?;
    let last = take_turns(table, fresh, q[3] as usize, out)?.at;
    say_box("edges", last.edges, out)?;
    say_box("region", last.region, out)?;
    write!(out, "table")?;
    for x in table.iter() {
        write!(out, "\t{:08x}", x.bits())?;
    }
    writeln!(out)
}

// Answers a line of numbers, if there is such a model, such a mark and such a kind of cell.
fn answer_question(q: &[u64; FIELDS], out: &mut impl Write) -> io::Result<()> {
    let &[model, width, height, _, strict, sixteen, ..] = q;
    if model > u64::from(camera::numbers::LAST) || strict > 1 || sixteen > 1 {
        return writeln!(out, "bad");
    }
    let numbers = array::from_fn(|i| exact::of_bits(q[FIRST + i]));
    let camera = camera::numbers::camera_of((model % 256) as u8, &numbers);
    match job::fresh(camera, width as usize, height as usize, strict == 1) {
        Err(refusal) => writeln!(out, "refused\t{}", lens::number(refusal)),
        Ok(job) if sixteen == 1 => build(q, job, &mut [16i16; PLACES], out),
        Ok(job) => build(q, job, &mut [0.5f32; PLACES], out),
    }
}

// Answers one line, if it is of the form.
fn answer(line: &[u8], out: &mut impl Write) -> io::Result<()> {
    match parts::numbers(line) {
        Some(q) => answer_question(&q, out),
        None => writeln!(out, "bad"),
    }
}

fn main(rt: HostRuntime) {
    parts::answer_lines(&rt, &mut [0; LINE], |line, out| answer(line, out));
}
