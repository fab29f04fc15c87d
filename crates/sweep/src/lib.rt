// The border of the image, a sample at a time: the edges of the points found, and behind the last sample the table's
// region.
#![tactic(auto)]

ghost use Rattle.std.specs.Prelude.{◌≡◌, not, ◌&&◌, ◌+◌, ◌-◌, ◌*◌, ◌^◌, ◌≤◌, ◌<◌, min};
ghost use Rattle.turns.specs.Turns.{turn, met};
ghost use Rattle.border.specs.Border.{samples};
ghost use Rattle.plans.specs.Plan.{one_no, first_after, sampled, closed, swept};
ghost use Rattle.sweep.specs.Sweep.{roomy, by_mark, run, told_swept, told_stop};

use camera::Camera;
use lens::{Refusal, Settled};
use plans::Progress;

// Where a run of border units stopped, and what refused the next one if anything did.
#[derive(Clone, Copy)]
pub struct Stop {
    pub at: Progress,
    pub refusal: Result<(), Refusal>,
}

// More than any build counts: from there on a sum might wrap.
const MANY: usize = 2_147_483_648;

// One more that didn't settle, or not.
fn one_no(flag: bool) -> usize
    ensures { result ≡ one_no flag }
{
    if flag { 0 } else { 1 }
}

// Where the first stands that didn't settle.
fn first_after(done: usize, first: usize, flag: bool) -> usize
    requires { done < 2 ^ 32 }
    ensures { result ≡ first_after done first flag }
{
    if first == 0 {
        if flag { 0 } else { done + 1 }
    } else {
        first
    }
}

// Whether a strict job stops at a sample.
fn too_strict(strict: bool, flag: bool) -> bool
    ensures { result ≡ (strict && not flag) }
{
    strict && !flag
}

// The progress after the sample that found `settled`.
fn sampled(at: Progress, settled: Settled) -> Progress
    requires { (at.done < 2 ^ 32) × (at.updates + settled.updates < 2 ^ 32) × (at.unsettled < 2 ^ 32) }
    ensures { result ≡ sampled at settled }
{
    Progress {
        done: at.done + 1,
        edges: border::edges_after(at.done, at.edges, settled.point),
        updates: at.updates + settled.updates,
        unsettled: at.unsettled + one_no(settled.flag),
        first: first_after(at.done, at.first, settled.flag),
        ..at
    }
}

// The last border unit's own: the region, and whether its increments will do.
fn closed(width: usize, height: usize, at: Progress) -> Result<Progress, Refusal>
    ensures { told_swept result ≡ closed width height at }
{
    let region = border::doubled(at.edges);
    region::wrong(region::increments_of(region, width, height))?;
    Ok(Progress { region, ..at })
}

// One border unit of `all`.
fn sweep_one(
    camera: Camera,
    short: bool,
    width: usize,
    height: usize,
    strict: bool,
    all: usize,
    at: Progress,
) -> Result<Progress, Refusal>
    requires { (all ≡ samples width height) × (at.done < 2 ^ 32) × (at.updates + 50 < 2 ^ 32)
        × (at.unsettled < 2 ^ 32) }
    ensures { told_swept result ≡ swept (by_mark camera short width height strict) at }
{
    let settled = engine::undistort(camera, short, border::border_pixel(width, height, at.done))?;
    if too_strict(strict, settled.flag) {
        return Err(Refusal::SampleUnsettled);
    }
    let next = sampled(at, settled);
    if next.done < all {
        return Ok(next);
    }
    closed(width, height, next)
}

// So many border units of `all`, or fewer if one refuses.
fn units(
    camera: Camera,
    short: bool,
    width: usize,
    height: usize,
    strict: bool,
    all: usize,
    from: Progress,
    count: usize,
) -> Stop
    requires { (all ≡ samples width height) × (all < 2 ^ 32) × (count ≤ all - from.done)
        × (from.updates + 50 * count < 2 ^ 32) × (from.unsettled + count < 2 ^ 32) }
    ensures { told_stop result ≡ met (turn (swept (by_mark camera short width height strict)) count from) }
{
    let mut at = from;
    for _done in 0..count {
        match sweep_one(camera, short, width, height, strict, all, at) {
            Ok(next) => at = next,
            Err(refusal) => {
                return Stop {
                    at,
                    refusal: Err(refusal),
                };
            }
        }
    }
    Stop {
        at,
        refusal: Ok(()),
    }
}

// How many border units an allowance does.
pub fn due(done: usize, all: usize, allowance: usize) -> usize
    ensures { result ≡ min allowance (all - done) }
{
    allowance.min(all.saturating_sub(done))
}

// Whether the size is taken and no sum of a run can wrap.
fn roomy(width: usize, height: usize, from: Progress) -> bool
    ensures { result ≡ roomy width height from }
{
    region::sized(width, height) && (from.updates as usize) < MANY && from.unsettled < MANY
}

// The border units of an allowance: as many as are left of the border, or fewer if one refuses. 13 for a progress whose
// sums might wrap, and that no build can have.
pub fn sweep(
    camera: Camera,
    width: usize,
    height: usize,
    strict: bool,
    from: Progress,
    allowance: usize,
) -> Stop
    ensures { told_stop result ≡ run camera width height strict allowance from }
{
    if roomy(width, height, from) {
        let all = border::samples(width as u32, height as u32);
        let count = due(from.done, all, allowance);
        let short = engine::short_for(camera);
        return units(camera, short, width, height, strict, all, from, count);
    }
    Stop {
        at: from,
        refusal: Err(Refusal::ImpossibleRecord),
    }
}
