// Two listings, line by line: whether each text is one, and what is printed of the two.
#![tactic(auto)]

ghost use Rattle.std.specs.Prelude.{◌≡◌};
ghost use Rattle.put_text.specs.Placed.{written, each_placed};
ghost use Rattle.compare.specs.Judged.{line_end, after_table, after_region, next_cell, after_cell, step, whole};
ghost use Rattle.compare.specs.Judged.{is_size, same_size, verdict};
ghost use Rattle.compare.specs.declared.Judging.TheVariants.{Start};
ghost use Rattle.compare.specs.Told.{cells_told, told, counted, told_lines};

use lens::Refusal;
use listing_lines::{CellLine, RegionLine, TableLine};

// As many bytes of a line as are held. The longest of a listing has 75; of a longer one the first piece is no line.
pub const LINE: usize = 96;

// 2^32, where counting stops: no listing has so many cells.
const MOST: u64 = 4294967296;

// How far a text is judged.
#[derive(Clone, Copy, Debug, PartialEq, Eq)]
pub enum Judging {
    // the table's line comes next
    Start,
    // the region's
    Sized {
        width: u32,
        height: u32,
    },
    // the line of the cell (u, v), and none behind the last row
    Cells {
        width: u32,
        height: u32,
        u: u32,
        v: u32,
    },
    // there was a line that is none of a listing's, or stands where another should
    Bad,
}

// What is told of two lines that stand at one place of two listings: nothing, both lines, or a cell whose bits differ,
// with its old pair and its new.
#[derive(Clone, Copy, Debug, PartialEq, Eq)]
pub enum Difference {
    Same,
    Lines,
    Cells {
        u: u32,
        v: u32,
        a: u32,
        b: u32,
        c: u32,
        d: u32,
    },
}

// How many bytes of a text are its first line, with the line's end, or as much of it as there is room for.
pub fn line_end(text: &[u8], room: usize) -> usize
    ensures { result ≡ line_end room text.now }
{
    for (i, b) in text.iter().enumerate() {
        if i == room {
            return i;
        }
        if *b == b'\n' {
            return i + 1;
        }
    }
    text.len()
}

// Before the first line.
pub fn start() -> Judging
    ensures { result ≡ Start }
{
    Judging::Start
}

// After the first line.
fn after_table(told: Option<TableLine>) -> Judging
    ensures { result ≡ after_table told }
{
    match told {
        Some(TableLine { width, height, .. }) if region::sized(width as usize, height as usize) => {
            Judging::Sized { width, height }
        }
        _ => Judging::Bad,
    }
}

// After the second.
fn after_region(width: u32, height: u32, told: Option<RegionLine>) -> Judging
    ensures { result ≡ after_region width height told }
{
    match told {
        Some(_) => Judging::Cells {
            width,
            height,
            u: 0,
            v: 0,
        },
        None => Judging::Bad,
    }
}

// After the line of the cell (x, y), where that of (u, v) comes next.
fn next_cell(width: u32, height: u32, u: u32, v: u32, x: u32, y: u32) -> Judging
    ensures { result ≡ next_cell width height u v x y }
{
    if x != u || y != v || u >= width || v >= height {
        return Judging::Bad;
    }
    if u + 1 == width {
        Judging::Cells {
            width,
            height,
            u: 0,
            v: v + 1,
        }
    } else {
        Judging::Cells {
            width,
            height,
            u: u + 1,
            v,
        }
    }
}

// After a line from the third on.
fn after_cell(width: u32, height: u32, u: u32, v: u32, told: Option<CellLine>) -> Judging
    ensures { result ≡ after_cell width height u v told }
{
    match told {
        Some(cell) => next_cell(width, height, u, v, cell.u, cell.v),
        None => Judging::Bad,
    }
}

// The judgement with one line more.
pub fn step(s: Judging, line: &[u8]) -> Judging
    ensures { result ≡ step s line.now }
{
    match s {
        Judging::Start => after_table(listing_lines::read_table(line)),
        Judging::Sized { width, height } => after_region(
            width,
            height,
            listing_lines::read_region(line),
        ),
        Judging::Cells {
            width,
            height,
            u,
            v,
        } => { after_cell(width, height, u, v, listing_lines::read_cell(line)) }
        Judging::Bad => Judging::Bad,
    }
}

// Whether the lines judged are a whole listing.
pub fn whole(s: Judging) -> bool
    ensures { result ≡ whole s }
{
    matches!(s, Judging::Cells { height, v, .. } if v == height)
}

// Whether a listing is of this size,
fn is_size(width: u32, height: u32, t: Judging) -> bool
    ensures { result ≡ is_size width height t }
{
    matches!(t, Judging::Cells { width: w, height: h, .. } if width == w && height == h)
}

// and whether two are of one size.
fn same_size(s: Judging, t: Judging) -> bool
    ensures { result ≡ same_size s t }
{
    match s {
        Judging::Cells { width, height, .. } => is_size(width, height, t),
        _ => false,
    }
}

// Whether two texts that are judged to the end are compared: 14 where either is no listing, then 15 where their sizes
// differ.
pub fn verdict(s: Judging, t: Judging) -> Result<(), Refusal>
    ensures { result ≡ verdict s t }
{
    if whole(s) {
        if whole(t) {
            if same_size(s, t) {
                return Ok(());
            }
            return Err(Refusal::SizesDiffer);
        }
        return Err(Refusal::NotTheForm);
    }
    Err(Refusal::NotTheForm)
}

// What is told of two lines that are not the same.
fn cells_told(old: Option<CellLine>, new: Option<CellLine>) -> Difference
    ensures { result ≡ cells_told old new }
{
    let (Some(old), Some(new)) = (old, new) else {
        return Difference::Lines;
    };
    Difference::Cells {
        u: old.u,
        v: old.v,
        a: old.a,
        b: old.b,
        c: new.a,
        d: new.b,
    }
}

// What is told of two lines.
pub fn compare(old: &[u8], new: &[u8]) -> Difference
    ensures { result ≡ told old.now new.now }
{
    if old == new {
        return Difference::Same;
    }
    cells_told(listing_lines::read_cell(old), listing_lines::read_cell(new))
}

// How many cells differ, with what is told of one more pair of lines. It stops at MOST.
pub fn counted(count: u64, told: Difference) -> u64
    ensures { result ≡ counted count told }
{
    match told {
        Difference::Same => count,
        Difference::Lines => count,
        Difference::Cells { .. } => if count < MOST { count + 1 } else { count },
    }
}

// Puts what is printed of two lines and answers the place behind it; a line that does not fit is left out.
pub fn tell(out: &mut [u8], at: usize, told: Difference, old: &[u8], new: &[u8]) -> usize
    ensures { written out.new result ≡
        each_placed (written out.old at) (told_lines told old.now new.now) }
{
    match told {
        Difference::Same => at,
        Difference::Lines => {
            let next = put_text::put(out, at, old);
            put_text::put(out, next, new)
        }
        Difference::Cells { u, v, a, b, c, d } => listing_lines::difference_line(
            out, at, u, v, a, b, c, d,
        ),
    }
}
