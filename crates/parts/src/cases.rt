// What programs that only test share: they answer the cases of standard input on standard output, and tell at the end
// how many there were. What can't be written is let go, as nobody is left to tell. A case is a line, or some parts. A
// part is four bytes that tell its length, the least first, and so many bytes.
ghost use Rattle.std.specs.Prelude.{◌≤◌, length};

use crate::held;
use std::io;
use std::io::{Printer, Read, StdinLock, Write};

// The longest text that is read line by line.
const TEXT: usize = 65536;

// As much as a test gathers before it is written.
const GATHERED: usize = 1024;

// Where a test writes: what is written is gathered until the answer is whole. It is gathered here and not by std's
// writer, which would ask for memory, as none of the programs does. What can't be written is let go, and nothing fails.
#[derive(Drop)]
pub struct Out<'a> {
    to: Printer<'a, HostRuntime>,
    room: [u8; GATHERED],
    n: usize,
}

impl Out<'_> {
    // Puts bytes behind what is gathered, and answers whether there was room for them.
    fn gather(&mut self, bytes: &[u8]) -> bool {
        let end = self.n.saturating_add(bytes.len());
        let Some(place) = self.room.get_mut(self.n..end) else {
            return false;
        };
        if place.len() != bytes.len() {
            return false;
        }
        place.copy_from_slice(bytes);
        self.n = end;
        true
    }

    // Writes what is gathered.
    fn hand_on(&mut self) {
        let n = held(self.n, &self.room);
        self.n = 0;
        let _ = self.to.write_all(&self.room[..n]);
    }

    // Gathers bytes, behind a write of what was gathered where there is no room. More than there is ever room for go out
    // as they are.
    fn put(&mut self, bytes: &[u8]) {
        if !self.gather(bytes) {
            self.hand_on();
            if !self.gather(bytes) {
                let _ = self.to.write_all(bytes);
            }
        }
    }
}

impl Write for Out<'_> {
    fn write(&mut self, bytes: &[u8]) -> io::Result<usize> {
        self.put(bytes);
        Ok(bytes.len())
    }

    fn flush(&mut self) -> io::Result<()> {
        self.hand_on();
        Ok(())
    }

    // std's own would ask `write` again and again.
    fn write_all(&mut self, bytes: &[u8]) -> io::Result<()> {
        self.put(bytes);
        Ok(())
    }
}

// Reads until the room is full, the input ends or a read fails, and answers how many bytes were read, and with what it
// failed.
pub fn fill<R: Read>(input: &mut R, room: &mut [u8]) -> (usize, io::Result<()>)
    ensures { result.0 ≤ length room.new }
{
    let mut n = 0;
    while n < room.len() {
        match input.read(&mut room[n..]) {
            Ok(0) => break,
            Ok(more) => n += more,
            // It goes out with the count of what was read before, which `?` would lose.
            Err(error) => return (n, Err(error)),
        }
    }
    (n, Ok(()))
}

// The same, and gives what was read.
pub fn read_full<'a, R: Read>(input: &mut R, room: &'a mut [u8]) -> &'a [u8]
    ensures { length result.now ≤ length room.old }
{
    let (n, _) = fill(input, room);
    &room[..n]
}

// Reads the next part: nothing where it is empty, where the input ends, or where it tells of more than there is room
// for.
pub fn read_part<'a, R: Read>(input: &mut R, room: &'a mut [u8]) -> &'a [u8]
    ensures { length result.now ≤ length room.old }
{
    let mut length = [0u8; 4];
    if read_full(input, &mut length).len() < 4 {
        return &[];
    }
    let n = u32::from_le_bytes(length) as usize;
    match room.get_mut(..n) {
        Some(part) => read_full(input, part),
        None => &[],
    }
}

// The numbers of a line, if it has so many fields and each is a number.
pub fn numbers<const FIELDS: usize>(line: &[u8]) -> Option<[u64; FIELDS]> {
    let mut numbers = [0; FIELDS];
    hexadecimal::fields(line, &mut numbers).then_some(numbers)
}

// Answers one case after the other, as long as `answer` says that there was one, and writes how many there were. Each
// answer goes out before the next case is read, so that who asks may wait for it. No input has more cases than a u64
// counts.
fn count_answered<W: Write, F: FnMut(&mut W) -> io::Result<bool>>(
    out: &mut W,
    name: &str,
    mut answer: F,
) -> io::Result<()>
    requires { (state : F) (out : _) → F.pre state out }
{
    let mut count = 0;
    for n in 1..=u64::MAX {
        if !answer(out)? {
            break;
        }
        out.flush()?;
        count = n;
    }
    writeln!(out, "{name}\t{count}")?;
    out.flush()
}

// Answers the cases of standard input, which `answer` reads.
pub fn answer_all<F: FnMut(&mut StdinLock<'_>, &mut Out<'_>) -> io::Result<bool>>(
    rt: &HostRuntime,
    name: &str,
    mut answer: F,
)
    requires { (state : F) (input : _) (out : _) → F.pre state input out }
{
    let mut input = rt.reader();
    let mut out = Out {
        to: io::writer(rt),
        room: [0; GATHERED],
        n: 0,
    };
    let _ = count_answered(&mut out, name, |out| answer(&mut input, out));
}

// Answers cases of parts: `answer` reads those behind the first, which is a line to write above the answer. None is left
// where that has nothing.
pub fn answer_cases<F: FnMut(&mut StdinLock<'_>, &mut Out<'_>) -> io::Result<()>>(
    rt: &HostRuntime,
    room: &mut [u8],
    mut answer: F,
)
    requires { (state : F) (input : _) (out : _) → F.pre state input out }
{
    answer_all(rt, "cases", |input, out| {
        let words = read_part(input, room);
        if words.is_empty() {
            return Ok(false);
        }
        out.write_all(words)?;
        answer(input, out)?;
        Ok(true)
    });
}

// Answers lines that are as long as the room. A last line that the input cuts off is bad, however much of it is there.
pub fn answer_lines<F: FnMut(&[u8], &mut Out<'_>) -> io::Result<()>>(
    rt: &HostRuntime,
    room: &mut [u8],
    mut answer: F,
)
    requires { (state : F) (line : _) (out : _) → F.pre state line out }
{
    let most = room.len();
    answer_all(rt, "lines", |input, out| {
        let line = read_full(input, room);
        if line.is_empty() {
            return Ok(false);
        }
        if line.len() < most {
            out.write_all(b"bad\n")?;
        } else {
            answer(line, out)?;
        }
        Ok(true)
    });
}

// Answers the lines of a text, given without their ends. At most 64 KiB of it are read. A last line that the text cuts
// off is bad, however much of it is there.
pub fn answer_text<F: FnMut(&[u8], &mut Out<'_>) -> io::Result<()>>(rt: &HostRuntime, mut answer: F)
    requires { (state : F) (line : _) (out : _) → F.pre state line out }
{
    let mut room = [0u8; TEXT];
    let text = read_full(&mut rt.reader(), &mut room);
    let mut lines = text.split_inclusive(|byte| *byte == b'\n');
    answer_all(rt, "lines", |_, out| {
        match lines.next() {
            Some([line @ .., b'\n']) => answer(line, out)?,
            Some(_) => out.write_all(b"bad\n")?,
            None => return Ok(false),
        }
        Ok(true)
    });
}

// Writes a tab and the bit pattern of each number.
pub fn say_floats<W: Write>(out: &mut W, numbers: &[f64]) -> io::Result<()> {
    for x in numbers {
        write!(out, "\t{:016x}", exact::to_bits(*x))?;
    }
    Ok(())
}
