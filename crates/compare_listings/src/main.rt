// Compares two listings, named by its first two arguments: one line for each cell whose bits differ, and their count;
// or one line that says which refusal. Both files are read through once to be judged, and once more to be compared; one
// line of each is held at a time. What is no refusal (a file that can't be read, or that changes between the two
// readings) is said on standard error, and then no count is printed.
#![tactic(auto)]

use compare::{Judging, LINE};
use parts::{Blame, Failure};
use std::fs::File;
use std::io;
use std::io::{Error, ErrorKind, Print, Read, Seek};

// What is read ahead of a file, and what is gathered before it is written.
const AHEAD: usize = 4096;

// What is told of a pair of lines fits behind so many bytes: two lines, or one.
const GATHERED: usize = 3904;

// The longest name of a file.
const NAME: usize = 4096;

// What is said to have failed where not all could be written.
const OUTPUT: &[u8] = b"standard output";

// A file, and what is read ahead of it: the bytes from `from` to `end` are still to be taken. std's reader would ask for
// memory, and none of the programs does.
#[derive(Drop)]
struct Ahead {
    file: File,
    room: [u8; AHEAD],
    from: usize,
    end: usize,
}

impl Ahead {
    // What is still to be taken, after a read where that is nothing. Where it is nothing all the same, the file ends.
    fn left(&mut self) -> io::Result<&[u8]> {
        if self.from >= self.end {
            self.end = self.file.read(&mut self.room)?;
            self.from = 0;
        }
        Ok(self.room.get(self.from..self.end).unwrap_or(&[]))
    }
}

// A file that is read line by line, and its last line: whole, or as much of it as is held of one.
#[derive(Drop)]
struct Lines {
    ahead: Ahead,
    line: [u8; LINE],
    length: usize,
}

// Opens a file that can be read twice.
fn open(rt: &HostRuntime, name: &[u8]) -> io::Result<File> {
    let mut file = parts::open(rt, name)?;
    if file.stream_position().is_err() {
        return Err(Error::new(ErrorKind::NotSeekable, "cannot be read twice"));
    }
    Ok(file)
}

impl Lines {
    // The lines of a file, from its start. It is no Result that the rooms would be moved through.
    fn of(file: File) -> Lines {
        Lines {
            ahead: Ahead {
                file,
                room: [0; AHEAD],
                from: 0,
                end: 0,
            },
            line: [0; LINE],
            length: 0,
        }
    }

    // Goes back to the start.
    fn rewind(&mut self) -> io::Result<()> {
        self.ahead.from = 0;
        self.ahead.end = 0;
        self.ahead.file.rewind()
    }

    // The line as far as it is read.
    fn held(&self) -> &[u8] {
        &self.line[..parts::held(self.length, &self.line)]
    }

    // Takes the next line. One of no bytes says that there are no more. Each turn takes a byte, or is the last.
    fn next_line(&mut self) -> io::Result<()> {
        self.length = 0;
        for _ in 0..LINE {
            let left = self.ahead.left()?;
            let n = compare::line_end(left, LINE.saturating_sub(self.length));
            let piece = &left[..parts::held(n, left)];
            if piece.is_empty() {
                break;
            }
            let (taken, ended) = (piece.len(), piece.last() == Some(&b'\n'));
            self.length = put_text::put(&mut self.line, self.length, piece);
            self.ahead.from = self.ahead.from.saturating_add(taken);
            if ended || self.length >= LINE {
                break;
            }
        }
        Ok(())
    }

    // Judges the file to its end. No file has more lines than a u64 counts.
    fn judge(&mut self) -> io::Result<Judging> {
        let mut judging = compare::start();
        for _ in 0..u64::MAX {
            self.next_line()?;
            let line = self.held();
            if line.is_empty() {
                return Ok(judging);
            }
            judging = compare::step(judging, line);
        }
        Err(Error::from(ErrorKind::FileTooLarge))
    }
}

// What is gathered to be written, and with what a write failed, the last one that did. What couldn't be written is
// dropped, and what comes after it is tried all the same.
#[derive(Drop)]
struct Gathered {
    room: [u8; AHEAD],
    n: usize,
    written: io::Result<()>,
}

impl Gathered {
    // Writes what is gathered.
    fn flush(&mut self, rt: &HostRuntime) {
        let n = parts::held(self.n, &self.room);
        self.n = 0;
        self.written = rt.write_all(&self.room[..n]).and(self.written);
    }
}

// Compares two files line by line, and gathers what is told as long as both have a listing's lines. Answers how many
// cells differ, if both were listings of one size this time too. Of two that can't be read the first is blamed. No file
// has more lines than a u64 counts.
fn compare_lines<'a>(
    rt: &HostRuntime,
    first: &mut Lines,
    second: &mut Lines,
    first_name: &'a [u8],
    second_name: &'a [u8],
    out: &mut Gathered,
) -> Result<Option<u64>, Failure<'a>> {
    let mut s = compare::start();
    let mut t = compare::start();
    let mut count = 0;
    for _ in 0..u64::MAX {
        let first_read = first.next_line();
        let second_read = second.next_line();
        first_read.blame(first_name)?;
        second_read.blame(second_name)?;
        let (old, new) = (first.held(), second.held());
        if old.is_empty() || new.is_empty() {
            break;
        }
        s = compare::step(s, old);
        t = compare::step(t, new);
        if s == Judging::Bad || t == Judging::Bad {
            break;
        }
        if out.n > GATHERED {
            out.flush(rt);
        }
        let difference = compare::compare(old, new);
        out.n = compare::tell(&mut out.room, out.n, difference, old, new);
        count = compare::counted(count, difference);
    }
    let ended = first.length == 0 && second.length == 0;
    Ok((ended && compare::verdict(s, t).is_ok()).then_some(count))
}

// The same, and writes what is told. That not all could be written is said only of files that can be read. Answers how
// many cells differ, if both files were as before.
fn compare_files<'a>(
    rt: &HostRuntime,
    first: &mut Lines,
    second: &mut Lines,
    first_name: &'a [u8],
    second_name: &'a [u8],
) -> Result<Option<u64>, Failure<'a>> {
    let mut out = Gathered {
        room: [0; AHEAD],
        n: 0,
        written: Ok(()),
    };
    let compared = compare_lines(rt, first, second, first_name, second_name, &mut out);
    out.flush(rt);
    let count = compared?;
    out.written.blame(OUTPUT)?;
    Ok(count)
}

// Judges two files, and compares them if both are taken. The last line tells how many cells differ, or which refusal;
// where it can't be written, nobody is left to tell.
fn run<'a>(
    rt: &HostRuntime,
    first_name: &'a [u8],
    second_name: &'a [u8],
) -> Result<(), Failure<'a>> {
    let first = open(rt, first_name).blame(first_name)?;
    let second = open(rt, second_name).blame(second_name)?;
    let mut first = Lines::of(first);
    let mut second = Lines::of(second);
    let s = first.judge().blame(first_name)?;
    let t = second.judge().blame(second_name)?;
    let mut line = [0; LINE];
    let n = match compare::verdict(s, t) {
        Ok(()) => {
            first.rewind().blame(first_name)?;
            second.rewind().blame(second_name)?;
            match compare_files(rt, &mut first, &mut second, first_name, second_name)? {
                Some(count) => listing_lines::count_line(&mut line, 0, count),
                None => {
                    let _ = eprintln!(rt; "the files changed while they were read");
                    0
                }
            }
        }
        Err(refusal) => listing_lines::refused_line(&mut line, 0, refusal),
    };
    let _ = rt.write_all(&line[..parts::held(n, &line)]);
    Ok(())
}

fn main(rt: HostRuntime) {
    if !parts::is_given(&rt, 2) || parts::is_given(&rt, 3) {
        let _ = eprintln!(rt; "usage: compare_listings OLD NEW");
        return;
    }
    let mut first = [0; NAME];
    let mut second = [0; NAME];
    let first = parts::argument(&rt, 1, &mut first);
    let second = parts::argument(&rt, 2, &mut second);
    if let Err(failure) = run(&rt, first, second) {
        failure.tell(&rt);
    }
}
