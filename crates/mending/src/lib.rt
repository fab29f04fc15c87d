// A damaged listing mended: what its lines still give is kept, what they do not is filled from a fresh build.
#![tactic(auto)]

ghost use Rattle.std.specs.Prelude.{◌≡◌, ◌+◌, ◌*◌, ◌<◌, ◌≤◌, ◌^◌, length};
ghost use Rattle.io.specs.Counts.{IsPrefixLen};
ghost use Rattle.region.specs.Size.{Sized};
ghost use Rattle.put_text.specs.Placed.{written, with_text, each_placed};
ghost use Rattle.listing.specs.Read.{listed, lines};
ghost use Rattle.printer.specs.Made.{most_cells, a_table, told_built, HasRoom, held};
ghost use Rattle.mending.specs.Mended.{differing_cell};
ghost use Rattle.mending.specs.Kept.{kept_from, kept, keep_first, keep_cell, keep};
ghost use Rattle.mending.specs.Fed.{fed, feed_byte, feed};
ghost use Rattle.mending.specs.Written.{told, given_as, bits_of, cells_told, lines_told};
ghost use Rattle.mending.specs.Written.{ready, most_mended, written_mended};
ghost use Rattle.mending.specs.Parts.{Matched};
ghost use Rattle.mending.specs.Texts.{mended_text, mend};

use lens::Refusal;
use printer::{Built, NUMBERS};
use region::Region;

// A map of what was given, three numbers for each cell of a table: 1 where a line gave it, else 0, and its two bit
// patterns. This is room for the largest table that is printed.
pub const MAP: usize = 12288;

// Room for a line that is held: no cell's has more than 45 bytes, and of a longer one no more is held than there is
// room for.
pub const LINE: usize = 64;

// Room for all that is printed, whatever the inputs: for each of 4,096 cells its line and one line of the report.
pub const OUTPUT: usize = 212992;

// What is told of a cell: its line, whether it was filled, whether what was given differs.
#[derive(Clone, Copy, Debug, PartialEq, Eq)]
enum Kind {
    Line,
    Filled,
    Differs,
}

// Keeps a cell whose three numbers stand from place k on, if it is the first.
fn keep_first(map: &mut [u32], k: usize, a: u32, b: u32)
    requires { k < 2 ^ 32 }
    ensures { map.new ≡ keep_first map.old k a b }
{
    if map.len() < k + 3 || map[k] != 0 {
        return;
    }
    map[k] = 1;
    map[k + 1] = a;
    map[k + 2] = b;
}

// Keeps what a line gives of a cell, if that lies in the table and is the first.
fn keep_cell(map: &mut [u32], width: usize, height: usize, u: usize, v: usize, a: u32, b: u32)
    ensures { map.new ≡ keep_cell map.old width height u v a b }
{
    if !region::sized(width, height) || u >= width || v >= height {
        return;
    }
    keep_first(map, 3 * (v * width + u), a, b);
}

// Keeps what a line gives, if it is a line of a cell of the table, and the first. Else all is as it was.
pub fn keep(map: &mut [u32], width: usize, height: usize, line: &[u8])
    ensures { map.new ≡ keep width height map.old line.now }
{
    if let Some(cell) = listing_lines::read_cell(line) {
        keep_cell(
            map,
            width,
            height,
            cell.u as usize,
            cell.v as usize,
            cell.a,
            cell.b,
        );
    }
}

// Takes one byte more: into the line that is held, if there is room. At the line's end a line that is held whole is
// kept, and the next begins. A longer one is none of a cell.
fn feed_byte(
    map: &mut [u32],
    line: &mut [u8],
    n: usize,
    width: usize,
    height: usize,
    b: u8,
) -> usize
    ensures { fed map.new line.new result ≡
        feed_byte width height (fed map.old line.old n) b }
{
    if n >= line.len() {
        return if b == b'\n' { 0 } else { n };
    }
    line[n] = b;
    if b == b'\n' {
        keep(map, width, height, &line[..n + 1]);
        return 0;
    }
    n + 1
}

// Takes the next piece of a text, of which the first n bytes of line are held from before. Answers how many are held
// then. In which pieces a text comes makes no difference.
pub fn feed(
    map: &mut [u32],
    line: &mut [u8],
    n: usize,
    width: usize,
    height: usize,
    piece: &[u8],
) -> usize
    ensures { fed map.new line.new result ≡
        feed width height (fed map.old line.old n) piece.now }
{
    let mut held = n;
    for b in piece {
        held = feed_byte(map, line, held, width, height, *b);
    }
    held
}

// Whether the cell (u, v), which is a and b in the fresh table and was given as c and d, differs.
fn tell_differing(
    out: &mut [u8],
    at: usize,
    u: usize,
    v: usize,
    a: u32,
    b: u32,
    c: u32,
    d: u32,
) -> usize
    ensures { written out.new result ≡
        each_placed (written out.old at) (differing_cell (given_as u v c d) u v a b) }
{
    if c != a || d != b {
        return listing_lines::differs_line(out, at, u, v);
    }
    at
}

// What is told of the cell (u, v), which is a and b in the fresh table, where it was given as c and d,
fn tell_given(
    out: &mut [u8],
    at: usize,
    kind: Kind,
    u: usize,
    v: usize,
    a: u32,
    b: u32,
    c: u32,
    d: u32,
) -> usize
    ensures { written out.new result ≡
        each_placed (written out.old at) (told kind (given_as u v c d) u v a b) }
{
    match kind {
        Kind::Line => listing_lines::cell_text(out, at, u, v, c, d),
        Kind::Filled => at,
        Kind::Differs => { tell_differing(out, at, u, v, a, b, c, d) }
    }
}

// and where it was not.
fn tell_missing(out: &mut [u8], at: usize, kind: Kind, u: usize, v: usize, a: u32, b: u32) -> usize
    ensures { written out.new result ≡
        each_placed (written out.old at) (told kind None u v a b) }
{
    match kind {
        Kind::Line => listing_lines::cell_text(out, at, u, v, a, b),
        Kind::Filled => listing_lines::filled_line(out, at, u, v),
        Kind::Differs => at,
    }
}

// What is told of it by a map in which its three numbers stand from place k on.
fn tell(
    out: &mut [u8],
    at: usize,
    kind: Kind,
    map: &[u32],
    k: usize,
    u: usize,
    v: usize,
    a: u32,
    b: u32,
) -> usize
    requires { k + 2 < length map.now }
    ensures { written out.new result ≡
        each_placed (written out.old at) (told kind (kept_from map.now k u v) u v a b) }
{
    if map[k] == 0 {
        return tell_missing(out, at, kind, u, v, a, b);
    }
    tell_given(out, at, kind, u, v, a, b, map[k + 1], map[k + 2])
}

// What is told of all cells, row by row.
fn tell_all(
    out: &mut [u8],
    at: usize,
    kind: Kind,
    width: usize,
    table: &[f32],
    map: &[u32],
) -> usize
    requires { Matched width (length table.now) (length map.now) }
    ensures { written out.new result ≡
        each_placed
        (written out.old at)
        (cells_told kind (kept map.now width) width (bits_of table.now)) }
{
    let mut next = at;
    for k in 0..table.len() / 2 {
        let a = exact::to_bits32(table[2 * k]);
        let b = exact::to_bits32(table[2 * k + 1]);
        next = tell(out, next, kind, map, 3 * k, k % width, k / width, a, b);
    }
    next
}

// All lines: the listing, the cells that were filled, those that differ.
fn tell_lines(
    out: &mut [u8],
    width: usize,
    height: usize,
    updates: u32,
    region: Region,
    table: &[f32],
    map: &[u32],
) -> usize
    requires { Matched width (length table.now) (length map.now) }
    ensures { written out.new result ≡
        each_placed
        (written out.old 0)
        (lines_told (kept map.now width) (listed width height updates region table.now)) }
{
    let first = listing_lines::table_line(out, 0, width, height, updates);
    let second = listing_lines::region_line(out, first, region);
    let third = tell_all(out, second, Kind::Line, width, table, map);
    let fourth = tell_all(out, third, Kind::Filled, width, table, map);
    tell_all(out, fourth, Kind::Differs, width, table, map)
}

// Whether a table of this size is mended, and a table's numbers and a map are long enough for it.
fn ready(width: usize, height: usize, numbers: usize, places: usize) -> bool
    ensures { result ≡ ready width height numbers places }
{
    if !region::sized(width, height) {
        return false;
    }
    let cells = width * height;
    if printer::CELLS < cells || numbers < 2 * cells {
        return false;
    }
    3 * cells <= places
}

// Writes the mended listing of a fresh table and the report to the start of out, and answers how many bytes that is.
// Nothing is written, and 0 is answered, if out has fewer than OUTPUT bytes, if the size is none of a table that is
// printed, or if table or map is too short for it.
pub fn write_mended(
    out: &mut [u8],
    width: usize,
    height: usize,
    updates: u32,
    region: Region,
    table: &[f32],
    map: &[u32],
) -> usize
    ensures result_after { written out.new result ≡
        written_mended width height updates region table.now map.now out.old }
    ensures prefix_len { IsPrefixLen result out.new }
{
    if out.len() < OUTPUT {
        return 0;
    }
    if !ready(width, height, table.len(), map.len()) {
        return 0;
    }
    let n = 2 * (width * height);
    tell_lines(out, width, height, updates, region, &table[..n], map)
}

// The same of a fresh table and the text of a listing.
fn mend_table(
    out: &mut [u8],
    width: usize,
    height: usize,
    updates: u32,
    region: Region,
    table: &[f32],
    text: &[u8],
) -> usize
    requires sized { Sized width height × (width * height ≤ most_cells) }
    requires table_len { (length table.now ≡ 2 * most_cells) × (most_mended ≤ length out.old) }
    ensures { written out.new result ≡
        with_text
        (written out.old 0)
        (mended_text (held (a_table width height updates region) table.now) (lines text.now)) }
{
    let mut map = [0u32; MAP];
    let mut line = [0u8; LINE];
    feed(&mut map, &mut line, 0, width, height, text);
    write_mended(out, width, height, updates, region, table, &map)
}

// The same of what the printer built; of a refusal its line alone.
fn mend_built(out: &mut [u8], built: Result<Built, Refusal>, table: &[f32], text: &[u8]) -> usize
    requires has_room { HasRoom (told_built built) }
    requires table_len { (length table.now ≡ 2 * most_cells) × (most_mended ≤ length out.old) }
    ensures { written out.new result ≡
        with_text
        (written out.old 0)
        (mended_text (held (told_built built) table.now) (lines text.now)) }
{
    match built {
        Err(refusal) => listing_lines::refused_line(out, 0, refusal),
        Ok(
            Built {
                width,
                height,
                updates,
                region,
            },
        ) => mend_table(out, width, height, updates, region, table, text),
    }
}

// Writes all that is printed of a camera file's text and a listing's, whatever they are, to the start of out, and
// answers how many bytes that is. A buffer of fewer than OUTPUT bytes is left as it is, and 0 is answered.
pub fn mend(input: &[u8], text: &[u8], out: &mut [u8]) -> usize
    ensures result_after { written out.new result ≡
        mend input.now text.now out.old }
    ensures prefix_len { IsPrefixLen result out.new }
{
    if out.len() < OUTPUT {
        return 0;
    }
    let mut table = [0.0f32; NUMBERS];
    let built = printer::build(input, &mut table);
    mend_built(out, built, &table, text)
}
