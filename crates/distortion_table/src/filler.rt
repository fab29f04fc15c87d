// The cells of a table, of either kind: runs of cells into the part of the table that is lent.
ghost use Rattle.std.specs.Prelude.{◌≡◌, ◌+◌, ◌*◌, ◌^◌, ◌≤◌, ◌<◌, length};
ghost use Rattle.engine.specs.Engine.{distort};
ghost use Rattle.turns.specs.Turns.{turn, met};
ghost use Rattle.plans.specs.Loops.{filled, Lent};
ghost use Rattle.cell.specs.Cell.{cell_by};
ghost use Rattle.sweep.specs.Sweep.{told_refusal};
ghost use Rattle.distortion_table.specs.Answer.{plan_of};
ghost use Rattle.distortion_table.specs.Parts.{told_filled, InPlace};

use crate::{Filled, Place, Run};
use camera::Camera;
use cell::CellNumber;
use job::Job;
use region::{Increments, Region};

// The place after a place, row by row, whatever a cell holds.
pub(crate) fn next_place(place: Place, width: usize) -> Place
    requires { (place.u < width) × (place.v < 2 ^ 32) }
    ensures { (result.u < width) × (result.v * width + result.u ≡ place.v * width + place.u + 1) }
{
    let u = place.u + 1;
    if u < width {
        return Place { u, v: place.v };
    }
    Place {
        u: 0,
        v: place.v + 1,
    }
}

// So many cells, or fewer if one refuses, into the part of the table that begins with the first.
fn fill<N: CellNumber>(
    rest: &mut [N],
    camera: Camera,
    short: bool,
    region: Region,
    by: Increments,
    width: usize,
    first: usize,
    count: usize,
) -> Filled
    requires { (0 < width) × (first + count < 2 ^ 32) × (2 * count ≤ length rest.old) }
    ensures { told_filled result rest.new
        ≡ met (turn (filled (cell_by (distort camera short) N.kind.holds region by) width first) count
        record { done = 0; cells = rest.old }) }
{
    let mut place = Place {
        u: first % width,
        v: first / width,
    };
    for i in 0..count {
        // A refusal goes out with the count of the cells before it, which `?` would lose.
        let (a, b) = match cell::cell_at(camera, short, region, by, place.u, place.v) {
            Ok(cell) => cell,
            Err(refusal) => {
                return Filled {
                    done: i,
                    refusal: Err(refusal),
                };
            }
        };
        rest[2 * i] = a;
        rest[2 * i + 1] = b;
        place = next_place(place, width);
    }
    Filled {
        done: count,
        refusal: Ok(()),
    }
}

// A turn's cells: the part of the table that begins with the first is lent to the filler, and what is ahead of it is
// not.
pub(crate) fn lend<N: CellNumber>(table: &mut [N], job: Job, run: Run) -> Filled
    requires { InPlace job.width run.first run.count (length table.old) }
    ensures { Lent ((plan_of N.kind job).cell run.at.region) job.width run.first run.count
        table.old result.done (told_refusal result.refusal) table.new }
{
    let camera = job.camera;
    let width = job.width;
    let region = run.at.region;
    let by = region::increments_of(region, width, job.height);
    let short = engine::short_for(camera);
    let first = run.first;
    let start = 2 * first;
    fill(
        &mut table[start..],
        camera,
        short,
        region,
        by,
        width,
        first,
        run.count,
    )
}
