// A box as 32 bytes: left, top, right and bottom, one f64 after the other. A job has two, a lookup from C is handed
// one.
#![tactic(auto)]

ghost use Rattle.std.specs.Prelude.{◌≡◌};
ghost use Rattle.little_endian.specs.Bytes.{floats, put};
ghost use Rattle.region.specs.Region.{four};
ghost use Rattle.region_bytes.specs.Box.{box_at};

use region::Region;

// The box at a place. Past the end stand zeros. A place of 32 bits, so that no place is too high to add to.
pub fn box_at(bytes: &[u8], at: u32) -> Region
    ensures { result ≡ box_at bytes.now at }
{
    let at = at as usize;
    Region {
        left: little_endian::float(bytes, at),
        top: little_endian::float(bytes, at + 8),
        right: little_endian::float(bytes, at + 16),
        bottom: little_endian::float(bytes, at + 24),
    }
}

// Puts a box at a place, if all of it fits.
pub fn put_box(region: Region, at: usize, out: &mut [u8])
    ensures { out.new ≡ put at (floats (four region)) out.old }
{
    little_endian::put_floats(
        out,
        at,
        &[region.left, region.top, region.right, region.bottom],
    );
}
