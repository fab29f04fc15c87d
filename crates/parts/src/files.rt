// What programs that read files by name share: their arguments, opening a file, and saying why that, or reading one,
// failed.
ghost use Rattle.std.specs.Prelude.{◌≤◌, length};
ghost use Rattle.io.specs.Counts.{IsPrefixLen};

use crate::held;
use std::env::{Env, FillError};
use std::fs;
use std::fs::Files;
use std::io::{Cursor, Error, ErrorKind, Result, Write};

// Room for the words that std has for an error.
const WORDS: usize = 256;

// Whether the program was given argument i; argument 0 is its own name.
pub fn is_given(rt: &impl Env, i: usize) -> bool {
    !matches!(rt.arg(i, &mut [0; 1]), Err(FillError::NotPresent))
}

// Argument i, at the start of the room: nothing where it is missing, or too long. It need not be UTF-8, so it is none of
// std's strings.
pub fn argument<'a>(rt: &impl Env, i: usize, room: &'a mut [u8]) -> &'a [u8]
    ensures { length result.now ≤ length room.old }
{
    let n = rt.arg(i, room).unwrap_or(0);
    &room[..n]
}

// Opens a file for reading. std opens names in UTF-8 alone.
pub fn open<R: Files>(rt: &R, path: &[u8]) -> Result<R::File> {
    match str::from_utf8(path) {
        Ok(name) => fs::open(rt, name),
        Err(_) => Err(Error::new(ErrorKind::InvalidFilename, "the name is not UTF-8")),
    }
}

// What failed, a file by its name or a stream, and why.
#[derive(Clone, Copy)]
pub struct Failure<'a> {
    pub what: &'a [u8],
    pub error: Error,
}

// How many bytes of std's words for an error are the system's: behind these std puts the error's number.
fn of_the_system(words: &[u8]) -> usize
    ensures { IsPrefixLen result words.now }
{
    let number = b" (os error ".as_slice();
    match words.windows(number.len()).position(|w| w == number) {
        Some(n) => held(n, words),
        None => words.len(),
    }
}

impl Failure<'_> {
    // Writes a line to standard error: what failed, a colon, and the system's words for why. Where that can't be
    // written, nobody is left to tell; no memory is asked for, so that one who has none is told too.
    pub fn tell(self, rt: &HostRuntime) {
        let Failure { what, error } = self;
        let mut words = Cursor::new([0u8; WORDS]);
        let _ = write!(words, "{error}");
        let n = words.position() as usize;
        let words = words.into_inner();
        let words = &words[..held(n, &words)];
        let mut out = rt.stderr();
        for part in [what, b": ", &words[..of_the_system(words)], b"\n"] {
            let _ = out.write_all(part);
        }
    }
}

// Says of a step that failed what it failed with.
pub trait Blame<T> {
    fn blame<'a>(self, what: &'a [u8]) -> std::result::Result<T, Failure<'a>>;
}

impl<T: Drop> Blame<T> for Result<T> {
    fn blame<'a>(self, what: &'a [u8]) -> std::result::Result<T, Failure<'a>> {
        self.map_err(|error| Failure { what, error })
    }
}
