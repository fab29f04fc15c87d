// What the table printer writes for an input, whatever the input: a camera file's table, or one line that says which
// refusal. The table is built by a function of its own, for whoever wants it and not its listing.
#![tactic(auto)]

ghost use Rattle.std.specs.Prelude.{◌≡◌, ◌++◌, ◌*◌, ◌≤◌, length, take, drop};
ghost use Rattle.region.specs.Size.{Sized};
ghost use Rattle.io.specs.Counts.{IsPrefixLen};
ghost use Rattle.distortion_table.specs.Answer.{told_status, told_turned, whole_table};
ghost use Rattle.put_text.specs.Placed.{written, with_text};
ghost use Rattle.printer.specs.Made.{most_cells, told_built, HasRoom, in_room, outcome_of};
ghost use Rattle.printer.specs.Made.{build_sized, build_asked, build, held};
ghost use Rattle.printer.specs.Printed.{made_text, print};

use camera::Camera;
use distortion_table::{Status, Turned};
use lens::Refusal;
use region::Region;

// The most cells of a table that is built and printed, and the numbers these hold.
pub const CELLS: usize = 4096;

pub const NUMBERS: usize = 8192;

// Room for all that is printed, whatever the input: 34 bytes for each of so many cells. No cell's line is longer than
// 33, and what is over holds the two lines above them.
pub const OUTPUT: usize = 139264;

// A table that was built, whose numbers are the first 2·w·h of the room.
#[derive(Clone, Copy)]
pub struct Built {
    pub width: usize,
    pub height: usize,
    pub updates: u32,
    pub region: Region,
}

// The table into the first n numbers of the room.
fn fill(room: &mut [f32], n: usize, camera: Camera, width: usize, height: usize) -> Turned
    requires { n ≤ length room.old }
    ensures room_after { told_turned result (take n room.new) ≡
        whole_table camera width height (take n room.old) }
    ensures room_after_2 { room.new ≡ take n room.new ++ drop n room.old }
{
    distortion_table::distort_table(camera, width, height, &mut room[..n])
}

// What a turn comes to that may do enough units for any table: it isn't running at its end.
fn outcome_of(turned: Turned) -> Result<Built, Refusal>
    ensures { told_built result ≡ outcome_of (told_status turned.status) turned.job }
{
    if let Status::Refused(refusal) = turned.status {
        return Err(refusal);
    }
    let job = turned.job;
    Ok(Built {
        width: job.width,
        height: job.height,
        updates: job.at.updates,
        region: job.at.region,
    })
}

// A table of a size that is taken: 6 for one with too many cells.
fn build_sized(
    room: &mut [f32],
    camera: Camera,
    width: usize,
    height: usize,
) -> Result<Built, Refusal>
    requires { Sized width height × (length room.old ≡ 2 * most_cells) }
    ensures { in_room (told_built result) room.new ≡
        build_sized room.old camera width height }
{
    if CELLS < width * height {
        return Err(Refusal::WrongSize);
    }
    outcome_of(fill(room, 2 * (width * height), camera, width, height))
}

// 4, 5, 6, and then the table.
fn build_asked(
    room: &mut [f32],
    camera: Camera,
    width: usize,
    height: usize,
) -> Result<Built, Refusal>
    requires { length room.old ≡ 2 * most_cells }
    ensures { in_room (told_built result) room.new ≡
        build_asked room.old camera width height }
{
    job::fresh(camera, width, height, false)?;
    build_sized(room, camera, width, height)
}

// The table of a camera file, over the first numbers of the room, or a refusal. One before the first unit of work
// leaves the room as it is; one at a unit leaves what was filled before it.
pub fn build(input: &[u8], room: &mut [f32; NUMBERS]) -> Result<Built, Refusal>
    ensures room_after { in_room (told_built result) room.new ≡ build input.now room.old }
    ensures has_room { HasRoom (told_built result) }
    ensures room_len { length room.new ≡ 2 * most_cells }
{
    let asked = camera_file::parse(input)?;
    build_asked(room, asked.camera, asked.width, asked.height)
}

// Writes what was built in a room to the start of out, where all of it fits.
fn show(out: &mut [u8], built: Result<Built, Refusal>, room: &[f32]) -> usize
    requires has_room { HasRoom (told_built built) × (2 * most_cells ≤ length room.now) }
    requires room_in_bounds { length (made_text (held (told_built built) room.now)) ≤ length out.old }
    ensures { written out.new result ≡
        with_text (written out.old 0) (made_text (held (told_built built) room.now)) }
{
    match built {
        Err(refusal) => listing_lines::refused_line(out, 0, refusal),
        Ok(
            Built {
                width,
                height,
                updates,
                region,
            },
        ) => {
            let n = 2 * (width * height);
            listing::write_listing(out, 0, width, height, updates, region, &room[..n])
        }
    }
}

// Writes all that is printed for the input to the start of out, and answers how many bytes that is. A buffer of fewer
// than OUTPUT bytes is left as it is, and 0 is answered: half a listing is none.
pub fn print(input: &[u8], out: &mut [u8]) -> usize
    ensures result_after { written out.new result ≡ print input.now out.old }
    ensures prefix_len { IsPrefixLen result out.new }
{
    if out.len() < OUTPUT {
        return 0;
    }
    let mut room = [0.0f32; NUMBERS];
    let built = build(input, &mut room);
    show(out, built, &room)
}
