// distortion_table.rs: the lens table of a camera, built in turns. First the border of the image is undistorted, half a
// pixel outside it, a sample at a time; twice the box around the points found is the table's region. Then each cell is
// filled with the pixel of its point, row by row. A sample is a unit of work, and so is a cell.
#![tactic(auto)]

ghost use Rattle.std.specs.Prelude.{◌≡◌, ◌+◌, ◌≤◌};
ghost use Rattle.region.specs.Size.{Sized};
ghost use Rattle.plans.specs.Loops.{reached, after_run};
ghost use Rattle.plans.specs.Plan.{with_done};
ghost use Rattle.sweep.specs.Sweep.{told_refusal};
ghost use Rattle.distortion_table.specs.Answer.{turn_of, told_status, told_turned, whole_table};
ghost use Rattle.distortion_table.specs.Parts.{told_due, behind_border, by_border, to_do, handed};

mod filler;

use camera::Camera;
use cell::CellNumber;
use job::Job;
use lens::Refusal;
use plans::Progress;

// A cell's column and row.
#[derive(Clone, Copy)]
struct Place {
    pub u: usize,
    pub v: usize,
}

// How many cells a run filled, and what refused the next one if anything did: of the shape of a sweep's `Stop`.
#[derive(Clone, Copy)]
struct Filled {
    pub done: usize,
    pub refusal: Result<(), Refusal>,
}

// A turn's cells, once its border units are done: how far the build has come by then, all units of the table, the
// number of the first cell, and how many.
#[derive(Clone, Copy)]
struct Run {
    pub at: Progress,
    pub all: usize,
    pub first: usize,
    pub count: usize,
}

// How a turn ends, and how far the build has come by then.
#[derive(Clone, Copy)]
struct Ended {
    pub status: Status,
    pub at: Progress,
}

// What a turn says at its end: one of three, which a Result around the other two would make no plainer.
#[derive(Clone, Copy)]
pub enum Status {
    Finished,
    Refused(Refusal),
    Running,
}

// The status, and the record to hand to the next turn.
#[derive(Clone, Copy)]
pub struct Turned {
    pub status: Status,
    pub job: Job,
}

// What is left of a turn whose border units are done, so many of its allowance being left: its cells, or it is over.
fn cells_due(width: usize, height: usize, at: Progress, left: usize) -> Result<Run, Ended>
    requires { Sized width height }
    ensures { told_due result ≡ behind_border width height left at }
{
    let border = border::samples(width as u32, height as u32);
    let all = border + width * height;
    let done = at.done;
    if done < border {
        return Err(Ended {
            status: Status::Running,
            at,
        });
    }
    let count = sweep::due(done, all, left);
    Ok(Run {
        at,
        all,
        first: done - border,
        count,
    })
}

// The border units of a turn whose record is admitted, and what is left of it.
fn border_due(job: Job, allowance: usize) -> Result<Run, Ended>
    requires { Sized job.width job.height }
    ensures { told_due result ≡ by_border job allowance }
{
    let camera = job.camera;
    let at = job.at;
    let width = job.width;
    let height = job.height;
    let border = border::samples(width as u32, height as u32);
    let count = sweep::due(at.done, border, allowance);
    let stop = sweep::sweep(camera, width, height, job.strict, at, allowance);
    let refusal = stop.refusal;
    let after = stop.at;
    // A refusal goes out with how far the sweep has come, which `?` would lose.
    match refusal {
        Err(r) => Err(Ended {
            status: Status::Refused(r),
            at: after,
        }),
        Ok(()) => cells_due(width, height, after, allowance - count),
    }
}

// A turn up to its cells, whatever these hold: the record is judged, and its border units are done. `places` is the
// length of the table.
fn up_to_cells(job: Job, places: usize, allowance: usize) -> Result<Run, Ended>
    ensures { told_due result ≡ to_do job places allowance }
{
    let at = job.at;
    // So does this one, with where the build stood.
    match job::admitted(job, places) {
        Err(refusal) => Err(Ended {
            status: Status::Refused(refusal),
            at,
        }),
        Ok(()) => border_due(job, allowance),
    }
}

// An answer with the record put together again.
fn handed(job: Job, ended: Ended) -> Turned
    ensures { result ≡ handed job ended }
{
    Turned {
        status: ended.status,
        job: Job {
            at: ended.at,
            ..job
        },
    }
}

// A progress with another count of units.
fn with_done(at: Progress, done: usize) -> Progress
    ensures { result ≡ with_done at done }
{
    Progress { done, ..at }
}

// What a turn says that nothing refused.
fn reached(done: usize, all: usize) -> Status
    ensures { told_status result ≡ reached done all }
{
    if done < all {
        Status::Running
    } else {
        Status::Finished
    }
}

// A turn's end behind its cells: with those done that were filled, unless one refused.
fn end(run: Run, filled: Filled) -> Ended
    requires { run.at.done + filled.done ≤ run.all }
    ensures { (result.at ≡ with_done run.at (run.at.done + filled.done))
        × (told_status result.status
        ≡ after_run (told_refusal filled.refusal) (reached (run.at.done + filled.done) run.all)) }
{
    let at = run.at;
    let done = at.done + filled.done;
    let after = with_done(at, done);
    let refusal = filled.refusal;
    match refusal {
        Err(r) => Ended {
            status: Status::Refused(r),
            at: after,
        },
        Ok(()) => {
            let status = reached(done, run.all);
            Ended { status, at: after }
        }
    }
}

// One turn: so many units, or fewer if one refuses or none is left.
pub fn turn<N: CellNumber>(job: Job, table: &mut [N], allowance: usize) -> Turned
    ensures { told_turned result table.new ≡ turn_of N.kind job table.old allowance }
{
    match up_to_cells(job, table.len(), allowance) {
        Err(ended) => handed(job, ended),
        Ok(run) => handed(job, end(run, filler::lend(table, job, run))),
    }
}

// Units enough for the largest table that is taken: 4,096 by 4,096.
pub const ENOUGH: usize = 16_793_600;

// The whole table at once: one turn of a fresh record that isn't strict, which no allowance cuts short. Its camera and
// size are judged by the turn.
pub fn distort_table(camera: Camera, width: usize, height: usize, table: &mut [f32]) -> Turned
    ensures { told_turned result table.new ≡ whole_table camera width height table.old }
{
    turn(job::begun(camera, width, height, false), table, ENOUGH)
}
