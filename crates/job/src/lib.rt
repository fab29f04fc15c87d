// The record of a table that is being built, as it is handed from turn to turn: a fresh one, and which records no turn
// takes.
#![tactic(auto)]

ghost use Rattle.std.specs.Prelude.{◌≡◌, ◌||◌, ◌*◌, ◌^◌, ◌≤◌, ◌<◌, min, leb, eqb};
ghost use Rattle.lens.specs.Judgement.{verdict};
ghost use Rattle.region.specs.Region.{increments, wrong};
ghost use Rattle.region.specs.Size.{Sized};
ghost use Rattle.plans.specs.Plan.{nowhere};
ghost use Rattle.plans.specs.Calls.{tallied, possible, sound};
ghost use Rattle.table_plans.specs.Tables.{opens_for, sweep_of};
ghost use Rattle.job.specs.Job.{fresh_job, fresh, told_started, admitted};

use camera::Camera;
use lens::Refusal;
use plans::Progress;
use region::Region;

// A table that is being built: what it is for, whether it stops at a sample that didn't settle, and how far it has
// come.
#[derive(Clone, Copy)]
pub struct Job {
    pub camera: Camera,
    pub width: usize,
    pub height: usize,
    pub strict: bool,
    pub at: Progress,
}

// The box of a fresh record: zeros, until the first sample.
fn nowhere() -> Region
    ensures { result ≡ nowhere }
{
    Region {
        left: 0.0,
        top: 0.0,
        right: 0.0,
        bottom: 0.0,
    }
}

// A record with no unit done, its camera and size not judged yet.
pub fn begun(camera: Camera, width: usize, height: usize, strict: bool) -> Job
    ensures { result ≡ fresh_job camera width height strict }
{
    Job {
        camera,
        width,
        height,
        strict,
        at: Progress {
            done: 0,
            edges: nowhere(),
            region: nowhere(),
            updates: 0,
            unsettled: 0,
            first: 0,
        },
    }
}

// 4, 5, 6: what refuses a record before its table is looked at.
fn opens(camera: Camera, width: usize, height: usize, region: Region) -> Result<(), Refusal>
    ensures { result ≡ opens_for camera width height region }
{
    if !camera::finite_parameters(camera) || !region::finite_region(region) {
        return Err(Refusal::NotFinite);
    }
    if camera::zero_focal(camera) {
        return Err(Refusal::ZeroFocalLength);
    }
    if !region::sized(width, height) {
        return Err(Refusal::WrongSize);
    }
    Ok(())
}

// A fresh record, with no unit done.
pub fn fresh(camera: Camera, width: usize, height: usize, strict: bool) -> Result<Job, Refusal>
    ensures { result ≡ fresh camera width height strict }
{
    opens(camera, width, height, nowhere())?;
    Ok(begun(camera, width, height, strict))
}

// Whether no more updates were made than the samples done can have made.
fn few(limit: usize, samples: usize, updates: usize) -> bool
    requires { (limit ≤ 50) × (samples < 2 ^ 32) }
    ensures { result ≡ leb updates (limit * samples) }
{
    updates <= limit * samples
}

// Whether of so many samples so many can have failed to settle, the first of them at such a position.
fn tallied(strict: bool, samples: usize, unsettled: usize, first: usize) -> bool
    ensures { result ≡ tallied strict samples unsettled first }
{
    if samples < unsettled || samples < first {
        return false;
    }
    if unsettled == 0 {
        return first == 0;
    }
    first != 0 && !strict
}

// Whether the border isn't behind it yet, or its region has increments that will do.
fn fine(region: Region, width: usize, height: usize, before: bool) -> bool
    ensures { result ≡ (before || eqb (verdict (wrong (increments region width height))) 0) }
{
    before || region::wrong(region::increments_of(region, width, height)).is_ok()
}

// Whether a build can have come to this.
fn possible(camera: Camera, width: usize, height: usize, strict: bool, at: Progress) -> bool
    requires { Sized width height }
    ensures { result ≡ possible (sweep_of camera width height strict) at }
{
    let all = border::samples(width as u32, height as u32);
    if all + width * height < at.done {
        return false;
    }
    let samples = at.done.min(all);
    if !few(camera::limit(camera) as usize, samples, at.updates as usize) {
        return false;
    }
    if !region::finite_region(at.edges) {
        return false;
    }
    if !fine(at.region, width, height, at.done < all) {
        return false;
    }
    tallied(strict, samples, at.unsettled, at.first)
}

// 4, 5, 6, 7, 13, before any unit.
pub fn admitted(job: Job, places: usize) -> Result<(), Refusal>
    ensures { result ≡ admitted job places }
{
    let camera = job.camera;
    let at = job.at;
    let width = job.width;
    let height = job.height;
    opens(camera, width, height, at.region)?;
    sound(camera, width, height, job.strict, at, places)
}

// 7, 13, once camera and size are taken.
fn sound(
    camera: Camera,
    width: usize,
    height: usize,
    strict: bool,
    at: Progress,
    places: usize,
) -> Result<(), Refusal>
    requires { Sized width height }
    ensures { result ≡ sound (sweep_of camera width height strict) at places }
{
    if places != 2 * (width * height) {
        return Err(Refusal::WrongLength);
    }
    if possible(camera, width, height, strict, at) {
        return Ok(());
    }
    Err(Refusal::ImpossibleRecord)
}
