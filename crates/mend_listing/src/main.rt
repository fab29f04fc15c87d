// Mends a listing. The first argument names a camera file, the second a listing of its table that may be damaged: what
// the listing's lines still give is kept, the rest is filled from a fresh build, and what was filled or differs is told
// behind the listing. Or one line says why the camera file has no table. A listing may be of any length: it is read
// once, a piece at a time. What can't be read is said on standard error, and then nothing is printed.
#![tactic(auto)]

use lens::Refusal;
use mending::{LINE, MAP, OUTPUT};
use parts::{Blame, Failure};
use printer::{Built, NUMBERS};
use std::fs::File;
use std::io;
use std::io::{Error, ErrorKind, Read};

// The longest name of a file.
const NAME: usize = 4096;

// One byte more than a camera file may have: a longer one is seen to be longer and refused, not cut.
const INPUT: usize = 4097;

// What is read of a listing at once.
const PIECE: usize = 4096;

// What is said to have failed where not all could be written.
const STANDARD_OUTPUT: &[u8] = b"standard output";

// Reads a camera file, or as much of it as is looked at. A read that failed is let go where the next one says that the
// file ends, and a file that ended and then went on is refused.
fn read_camera<'a>(file: &mut File, room: &'a mut [u8; INPUT]) -> io::Result<&'a [u8]> {
    let (n, ended) = parts::fill(file, room);
    if n < INPUT && file.read(&mut [0; 1])? > 0 {
        // One that ended and then went on has no error of its own.
        return Err(ended.err().unwrap_or(Error::from_raw_os_error(0)));
    }
    Ok(&room[..parts::held(n, room)])
}

// Keeps what a file gives of a table of this size, to its end. No file has more pieces than a u64 counts.
fn keep_all(file: &mut File, map: &mut [u32; MAP], width: usize, height: usize) -> io::Result<()> {
    let mut piece = [0; PIECE];
    let mut line = [0; LINE];
    let mut held = 0;
    for _ in 0..u64::MAX {
        let n = file.read(&mut piece)?;
        if n == 0 {
            return Ok(());
        }
        held = mending::feed(map, &mut line, held, width, height, &piece[..n]);
    }
    Err(Error::from(ErrorKind::FileTooLarge))
}

// Mends a listing by a fresh table, whose numbers stand in the room, and writes what is printed. Its own rooms are made
// only here: a camera that is refused has no use for them.
fn mend<'a>(
    rt: &HostRuntime,
    listing: &mut File,
    listing_name: &'a [u8],
    built: Built,
    room: &[f32; NUMBERS],
) -> Result<(), Failure<'a>> {
    let Built {
        width,
        height,
        updates,
        region,
    } = built;
    let mut map = [0; MAP];
    keep_all(listing, &mut map, width, height).blame(listing_name)?;
    let mut out = [0; OUTPUT];
    let n = mending::write_mended(&mut out, width, height, updates, region, room, &map);
    rt.write_all(&out[..n]).blame(STANDARD_OUTPUT)
}

// Writes a refusal's line.
fn refuse<'a>(rt: &HostRuntime, refusal: Refusal) -> Result<(), Failure<'a>> {
    let mut out = [0; LINE];
    let n = listing_lines::refused_line(&mut out, 0, refusal);
    rt.write_all(&out[..parts::held(n, &out)])
        .blame(STANDARD_OUTPUT)
}

// Builds the camera's table, and mends the listing by it.
fn run<'a>(
    rt: &HostRuntime,
    camera_name: &'a [u8],
    listing_name: &'a [u8],
) -> Result<(), Failure<'a>> {
    let mut camera = parts::open(rt, camera_name).blame(camera_name)?;
    let mut listing = parts::open(rt, listing_name).blame(listing_name)?;
    let mut input = [0; INPUT];
    let input = read_camera(&mut camera, &mut input).blame(camera_name)?;
    let mut room = [0.0; NUMBERS];
    match printer::build(input, &mut room) {
        Ok(built) => mend(rt, &mut listing, listing_name, built, &room),
        Err(refusal) => refuse(rt, refusal),
    }
}

fn main(rt: HostRuntime) {
    if !parts::is_given(&rt, 2) || parts::is_given(&rt, 3) {
        let _ = eprintln!(rt; "usage: mend_listing CAMERA LISTING");
        return;
    }
    let mut camera = [0; NAME];
    let mut listing = [0; NAME];
    let camera = parts::argument(&rt, 1, &mut camera);
    let listing = parts::argument(&rt, 2, &mut listing);
    if let Err(failure) = run(&rt, camera, listing) {
        failure.tell(&rt);
    }
}
