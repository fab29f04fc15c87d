// A table's listing, line by line into a buffer that the caller lends.
#![tactic(auto)]

ghost use Rattle.std.specs.Prelude.{◌≡◌, ◌<◌, ◌^◌};
ghost use Rattle.put_text.specs.Placed.{written, placed_all};
ghost use Rattle.listing.specs.Listing.{across, down, cell_lines, listing_lines};

use region::Region;

// The place across after u, and the place down after (u, v).
fn across(width: usize, u: usize) -> usize
    requires { u < 2 ^ 63 }
    ensures { result ≡ across width u }
{
    if u + 1 == width { 0 } else { u + 1 }
}

fn down(width: usize, u: usize, v: usize) -> usize
    requires { (u < 2 ^ 63) × (v < 2 ^ 63) }
    ensures { result ≡ down width u v }
{
    if u + 1 == width { v + 1 } else { v }
}

// Puts the lines of a table's cells row by row, up to the first that does not fit, and answers the place behind the
// last one put.
pub fn cells(out: &mut [u8], at: usize, table: &[f32], width: usize, height: usize) -> usize
    ensures { written out.new result ≡
        placed_all (written out.old at) (cell_lines width height 0 0 table.now) }
{
    let mut next = at;
    let mut u = 0;
    let mut v = 0;
    for pair in table.chunks_exact(2) {
        if v >= height {
            return next;
        }
        let behind = listing_lines::cell_line(out, next, u, v, pair[0], pair[1]);
        if behind == next {
            return next;
        }
        next = behind;
        v = down(width, u, v);
        u = across(width, u);
    }
    next
}

// Puts a table's whole listing line by line, up to the first line that does not fit, and answers the place behind the
// last one put.
pub fn write_listing(
    out: &mut [u8],
    at: usize,
    width: usize,
    height: usize,
    updates: u32,
    region: Region,
    table: &[f32],
) -> usize
    ensures { written out.new result ≡
        placed_all (written out.old at) (listing_lines width height updates region table.now) }
{
    let first = listing_lines::table_line(out, at, width, height, updates);
    if first == at {
        return at;
    }
    let second = listing_lines::region_line(out, first, region);
    if second == first {
        return first;
    }
    cells(out, second, table, width, height)
}
