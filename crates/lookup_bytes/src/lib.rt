// The lookup in a table, over bytes: the region as 32 bytes, the pixel in a buffer that the caller lends.
#![tactic(auto)]

ghost use Rattle.std.specs.Prelude.{◌≡◌};
ghost use Rattle.given.specs.Given.{given};
ghost use Rattle.lookup_bytes.specs.Lookup.{lookup_bytes};

use answer_bytes::ToldPixel;
use lens::Point;

// The pixel at the point (x, y) between a table's cells: u and v, 16 bytes. The region is 32 bytes: left, top, right,
// bottom. Past its end stand zeros, so that the lower refusals are told even of a region that is cut short.
pub fn lookup(
    table: &[f32],
    region: &[u8],
    width: u32,
    height: u32,
    x: f64,
    y: f64,
    answer: &mut [u8],
) -> u8
    ensures { given result answer.new ≡
        lookup_bytes table.now region.now width height x y answer.old }
{
    let told = answer_bytes::told_pixel(lookup::lookup(
        table,
        region_bytes::box_at(region, 0),
        width as usize,
        height as usize,
        Point(x, y),
    ));
    let number = given::code(told.number, region.len() == 32);
    let pixel = told.pixel;
    answer_bytes::give_pixel(ToldPixel { number, pixel }, answer)
}
