// The lines of a table's listing, each written into a buffer that the caller lends.
#![tactic(auto)]

ghost use Rattle.std.specs.Prelude.{◌≡◌, [], ◌∷◌, ◌+◌, ◌%◌, ◌^◌, ◌≤◌, length};
ghost use Rattle.decimal.specs.Decimal.{decimal};
ghost use Rattle.decimal.specs.Text.{same};
ghost use Rattle.lens.specs.Refusal.{number};
ghost use Rattle.put_text.specs.Placed.{written, placed};
ghost use Rattle.listing_lines.specs.Line.{hex, line, table_line, region_text, region_line, cell_text, cell_line};
ghost use Rattle.listing_lines.specs.Line.{refused_line, difference_line, count_line, filled_line, differs_line};
ghost use Rattle.listing_lines.specs.Numeral.{pushed, left_after, number_after, numeral};
ghost use Rattle.listing_lines.specs.Read.{header_text, read_table, edges_text, read_region, text_of_cell, read_cell};
ghost use Rattle.listing_lines.specs.Grown.{Grown};

use lens::Refusal;
use region::Region;

// What a line tells of a cell: its place, across and down, and the bit patterns of its two numbers.
#[derive(Clone, Copy, Debug, PartialEq, Eq)]
pub struct CellLine {
    pub u: u32,
    pub v: u32,
    pub a: u32,
    pub b: u32,
}

// What it tells of a table: its size, and the updates that it took.
#[derive(Clone, Copy, Debug, PartialEq, Eq)]
pub struct TableLine {
    pub width: u32,
    pub height: u32,
    pub updates: u32,
}

// What it tells of a region: the bit patterns of lower x and y, upper x and y.
#[derive(Clone, Copy, Debug, PartialEq, Eq)]
pub struct RegionLine {
    pub left: u64,
    pub top: u64,
    pub right: u64,
    pub bottom: u64,
}

// A line is made here before it is put, so that one that does not fit leaves no trace. The longest is a region's, of 75
// bytes; the proofs count 21 for each field.
const LINE: usize = 96;

// 2^60: a number below it has room for a digit more.
const FULL: u64 = 1152921504606846976;

// 2^32.
const WORD: u64 = 4294967296;

// Puts text into a line behind its first at bytes, and answers how many there are then.
fn grow(line: &mut [u8; LINE], at: usize, text: &[u8]) -> usize
    requires { (at + length text.now ≤ 96) × (length text.now ≤ 21) }
    ensures { Grown line.old at text.now line.new result }
{
    put_text::put(line, at, text)
}

// The same of a tab and a number in decimal. The kit's io writes the digits: std says which bytes it prints only to a
// String, which needs heap.
fn grow_decimal(line: &mut [u8; LINE], at: usize, n: u64) -> usize
    requires { at ≤ 75 }
    ensures { Grown line.old at (9 ∷ decimal n) line.new result }
{
    let mut digits = [0u8; 20];
    let k = io::decimal(n, &mut digits);
    let next = grow(line, at, b"\t");
    put_text::put(line, next, &digits[..k])
}

// The same of a number in decimal, at the start of a line.
fn grow_first(line: &mut [u8; LINE], n: u64) -> usize
    ensures { Grown line.old 0 (decimal n) line.new result }
{
    let mut digits = [0u8; 20];
    let k = io::decimal(n, &mut digits);
    grow(line, 0, &digits[..k])
}

// The same of a tab and a bit pattern of 32 bits,
fn grow_single(line: &mut [u8; LINE], at: usize, n: u32) -> usize
    requires { at ≤ 75 }
    ensures grown { Grown line.old at (9 ∷ hex 8 n) line.new result }
    ensures upper_bound { result ≤ at + 9 }
{
    let mut digits = [0u8; 16];
    let k = io::hex(n as u64, 8, &mut digits);
    let next = grow(line, at, b"\t");
    put_text::put(line, next, &digits[..k])
}

// and of 64.
fn grow_double(line: &mut [u8; LINE], at: usize, n: u64) -> usize
    requires { at ≤ 75 }
    ensures { Grown line.old at (9 ∷ hex 16 n) line.new result }
{
    let mut digits = [0u8; 16];
    let k = io::hex(n, 16, &mut digits);
    let next = grow(line, at, b"\t");
    put_text::put(line, next, &digits[..k])
}

// Puts the line `table`, width, height, updates.
pub fn table_line(out: &mut [u8], at: usize, width: usize, height: usize, updates: u32) -> usize
    ensures { written out.new result ≡ placed (written out.old at) (table_line width height updates) }
{
    let mut line = [0u8; LINE];
    let word = grow(&mut line, 0, b"table");
    let first = grow_decimal(&mut line, word, width as u64);
    let second = grow_decimal(&mut line, first, height as u64);
    let third = grow_decimal(&mut line, second, updates as u64);
    let end = grow(&mut line, third, b"\n");
    put_text::put(out, at, &line[..end])
}

// Puts the line `region` and the bit patterns of the four edges: lower x and y, upper x and y.
pub fn region_text(out: &mut [u8], at: usize, left: u64, top: u64, right: u64, bottom: u64) -> usize
    ensures { written out.new result ≡ placed (written out.old at) (region_text left top right bottom) }
{
    let mut line = [0u8; LINE];
    let word = grow(&mut line, 0, b"region");
    let first = grow_double(&mut line, word, left);
    let second = grow_double(&mut line, first, top);
    let third = grow_double(&mut line, second, right);
    let fourth = grow_double(&mut line, third, bottom);
    let end = grow(&mut line, fourth, b"\n");
    put_text::put(out, at, &line[..end])
}

// The same of a region.
pub fn region_line(out: &mut [u8], at: usize, region: Region) -> usize
    ensures { written out.new result ≡ placed (written out.old at) (region_line region) }
{
    let left = exact::to_bits(region.left);
    let top = exact::to_bits(region.top);
    let right = exact::to_bits(region.right);
    let bottom = exact::to_bits(region.bottom);
    region_text(out, at, left, top, right, bottom)
}

// Puts the line `cell`, the cell's place across and down, the bit patterns of its two numbers.
pub fn cell_text(out: &mut [u8], at: usize, u: usize, v: usize, a: u32, b: u32) -> usize
    ensures { written out.new result ≡ placed (written out.old at) (cell_text u v a b) }
{
    let mut line = [0u8; LINE];
    let word = grow(&mut line, 0, b"cell");
    let first = grow_decimal(&mut line, word, u as u64);
    let second = grow_decimal(&mut line, first, v as u64);
    let third = grow_single(&mut line, second, a);
    let fourth = grow_single(&mut line, third, b);
    let end = grow(&mut line, fourth, b"\n");
    put_text::put(out, at, &line[..end])
}

// The same of two f32.
pub fn cell_line(out: &mut [u8], at: usize, u: usize, v: usize, a: f32, b: f32) -> usize
    ensures { written out.new result ≡ placed (written out.old at) (cell_line u v a b) }
{
    cell_text(out, at, u, v, exact::to_bits32(a), exact::to_bits32(b))
}

// Puts the line `refused` and the refusal's number.
pub fn refused_line(out: &mut [u8], at: usize, refusal: Refusal) -> usize
    ensures { written out.new result ≡ placed (written out.old at) (refused_line (number refusal)) }
{
    let mut line = [0u8; LINE];
    let word = grow(&mut line, 0, b"refused");
    let first = grow_decimal(&mut line, word, lens::number(refusal) as u64);
    let end = grow(&mut line, first, b"\n");
    put_text::put(out, at, &line[..end])
}

// Puts the line of a cell that differs: its place, its old pair, its new.
pub fn difference_line(
    out: &mut [u8],
    at: usize,
    u: u32,
    v: u32,
    a: u32,
    b: u32,
    c: u32,
    d: u32,
) -> usize
    ensures { written out.new result ≡ placed (written out.old at) (difference_line u v a b c d) }
{
    let mut line = [0u8; LINE];
    let column = grow_first(&mut line, u as u64);
    let row = grow_decimal(&mut line, column, v as u64);
    let first = grow_single(&mut line, row, a);
    let second = grow_single(&mut line, first, b);
    let third = grow_single(&mut line, second, c);
    let last = grow_single(&mut line, third, d);
    let end = grow(&mut line, last, b"\n");
    put_text::put(out, at, &line[..end])
}

// Puts the line `count` and a number.
pub fn count_line(out: &mut [u8], at: usize, n: u64) -> usize
    ensures { written out.new result ≡ placed (written out.old at) (count_line n) }
{
    let mut line = [0u8; LINE];
    let word = grow(&mut line, 0, b"count");
    let first = grow_decimal(&mut line, word, n);
    let end = grow(&mut line, first, b"\n");
    put_text::put(out, at, &line[..end])
}

// A cell's place behind a word,
fn place_line(out: &mut [u8], at: usize, word: &[u8], u: usize, v: usize) -> usize
    requires { length word.now ≤ 21 }
    ensures { written out.new result ≡
        placed (written out.old at) (line word.now (decimal u ∷ decimal v ∷ [])) }
{
    let mut line = [0u8; LINE];
    let start = grow(&mut line, 0, word);
    let column = grow_decimal(&mut line, start, u as u64);
    let row = grow_decimal(&mut line, column, v as u64);
    let end = grow(&mut line, row, b"\n");
    put_text::put(out, at, &line[..end])
}

// as in the line of a cell that was filled,
pub fn filled_line(out: &mut [u8], at: usize, u: usize, v: usize) -> usize
    ensures { written out.new result ≡ placed (written out.old at) (filled_line u v) }
{
    place_line(out, at, b"filled", u, v)
}

// and of one that differs from the fresh table.
pub fn differs_line(out: &mut [u8], at: usize, u: usize, v: usize) -> usize
    ensures { written out.new result ≡ placed (written out.old at) (differs_line u v) }
{
    place_line(out, at, b"differs", u, v)
}

// A number with a digit after it, where there is room.
fn pushed(base: u64, n: u64, b: u8) -> u64
    requires { base ≤ 16 }
    ensures { result ≡ pushed base n b }
{
    match hexadecimal::digit(b) {
        Some(d) if n < FULL => n * base + u64::from(d),
        _ => n,
    }
}

// How many fields are left once byte b is passed.
fn left_after(left: usize, b: u8) -> usize
    ensures { result ≡ left_after left b }
{
    if b == b'\t' {
        left.saturating_sub(1)
    } else {
        left
    }
}

// The number so far, once byte b is passed.
fn number_after(base: u64, left: usize, n: u64, b: u8) -> u64
    requires { base ≤ 16 }
    ensures { result ≡ number_after base left n b }
{
    if left == 1 { pushed(base, n, b) } else { n }
}

// The number in a field of a line, of which the word is the first: right where the line is one that was written.
fn numeral(base: u64, field: usize, text: &[u8]) -> u64
    requires { base ≤ 16 }
    ensures { result ≡ numeral base field 0 text.now }
{
    let mut left = field;
    let mut n = 0;
    for b in text {
        n = number_after(base, left, n, *b);
        left = left_after(left, *b);
    }
    n
}

// Its lowest 32 bits.
fn single(base: u64, field: usize, text: &[u8]) -> u32
    requires { base ≤ 16 }
    ensures { result ≡ numeral base field 0 text.now % 2 ^ 32 }
{
    (numeral(base, field, text) % WORD) as u32
}

// Whether text is the line of a cell,
fn is_cell(text: &[u8], cell: CellLine) -> bool
    ensures { result ≡ same text.now (text_of_cell cell) }
{
    let mut line = [0u8; LINE];
    let end = cell_text(
        &mut line,
        0,
        cell.u as usize,
        cell.v as usize,
        cell.a,
        cell.b,
    );
    text == &line[..end]
}

// a table,
fn is_table(text: &[u8], table: TableLine) -> bool
    ensures { result ≡ same text.now (header_text table) }
{
    let mut line = [0u8; LINE];
    let end = table_line(
        &mut line,
        0,
        table.width as usize,
        table.height as usize,
        table.updates,
    );
    text == &line[..end]
}

// a region.
fn is_region(text: &[u8], region: RegionLine) -> bool
    ensures { result ≡ same text.now (edges_text region) }
{
    let mut line = [0u8; LINE];
    let end = region_text(
        &mut line,
        0,
        region.left,
        region.top,
        region.right,
        region.bottom,
    );
    text == &line[..end]
}

// What a line tells of a cell. Its numbers are guessed and written again: a line is read if it is what is written.
pub fn read_cell(text: &[u8]) -> Option<CellLine>
    ensures { result ≡ read_cell text.now }
{
    let cell = CellLine {
        u: single(10, 2, text),
        v: single(10, 3, text),
        a: single(16, 4, text),
        b: single(16, 5, text),
    };
    is_cell(text, cell).then_some(cell)
}

// What it tells of a table,
pub fn read_table(text: &[u8]) -> Option<TableLine>
    ensures { result ≡ read_table text.now }
{
    let table = TableLine {
        width: single(10, 2, text),
        height: single(10, 3, text),
        updates: single(10, 4, text),
    };
    is_table(text, table).then_some(table)
}

// and of a region.
pub fn read_region(text: &[u8]) -> Option<RegionLine>
    ensures { result ≡ read_region text.now }
{
    let region = RegionLine {
        left: numeral(16, 2, text),
        top: numeral(16, 3, text),
        right: numeral(16, 4, text),
        bottom: numeral(16, 5, text),
    };
    is_region(text, region).then_some(region)
}
