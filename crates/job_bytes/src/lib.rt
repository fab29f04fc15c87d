// The record of a table that is being built, as bytes at fixed places: what C keeps between two turns. The last eight
// are a check word over all others.
#![tactic(auto)]

ghost use Rattle.std.specs.Prelude.{◌≡◌, ◌≤◌, length};
ghost use Rattle.little_endian.specs.Bytes.{half, put};
ghost use Rattle.camera.specs.Numbers.{model_number};
ghost use Rattle.given.specs.Given.{given, answered};
ghost use Rattle.job.specs.Job.{told_started};
ghost use Rattle.job_bytes.specs.Places.{params_place, width_place, edges_place, unsettled_place, record_length};
ghost use Rattle.job_bytes.specs.Check.{check_of, intact, whole};
ghost use Rattle.job_bytes.specs.Bytes.{mark, camera_part, size_part, boxes, tallies, job_at, record_bytes};
ghost use Rattle.job_bytes.specs.Bytes.{record_read, known_mark, started, give_started, fresh_bytes};

use camera::Camera;
use camera::numbers::{LAST, MOST};
use job::Job;
use lens::Refusal;
use plans::Progress;
use region::Region;

// Where the parts of a record stand, behind the model at 0 (specs/Places). include/lens.h tells the numbers.
const UPDATES: usize = 4;

const PARAMS: usize = 8;

const WIDTH: usize = PARAMS + 8 * MOST;

const HEIGHT: usize = WIDTH + 4;

const DONE: usize = HEIGHT + 4;

const EDGES: usize = DONE + 8;

const REGION: usize = EDGES + 32;

const UNSETTLED: usize = REGION + 32;

const FIRST: usize = UNSETTLED + 4;

const MARK: usize = FIRST + 4;

const CHECK: usize = MARK + 8;

// How many bytes a record has.
pub const LENGTH: usize = CHECK + 8;

// What the check word's sum starts from: the bytes "LENSJOB2".
const CHECK_START: u64 = 0x32424f4a534e454c;

// What stands at each place, of a model that there is. The boxes are read number by number, and not by region_bytes: a
// record's length is known, and so the compiler tests none of their places.
fn job_at(bytes: &[u8], model: u8) -> Job
    requires { (model ≡ half bytes.now 0) × (params_place ≤ length bytes.now) }
    ensures { result ≡ job_at bytes.now }
{
    Job {
        camera: camera_bytes::camera_of(model, &bytes[PARAMS..]),
        width: little_endian::half(bytes, WIDTH) as usize,
        height: little_endian::half(bytes, HEIGHT) as usize,
        strict: little_endian::word(bytes, MARK) == 1,
        at: Progress {
            done: little_endian::word(bytes, DONE) as usize,
            edges: Region {
                left: little_endian::float(bytes, EDGES),
                top: little_endian::float(bytes, EDGES + 8),
                right: little_endian::float(bytes, EDGES + 16),
                bottom: little_endian::float(bytes, EDGES + 24),
            },
            region: Region {
                left: little_endian::float(bytes, REGION),
                top: little_endian::float(bytes, REGION + 8),
                right: little_endian::float(bytes, REGION + 16),
                bottom: little_endian::float(bytes, REGION + 24),
            },
            updates: little_endian::half(bytes, UPDATES),
            unsettled: little_endian::half(bytes, UNSETTLED) as usize,
            first: little_endian::half(bytes, FIRST) as usize,
        },
    }
}

// Any bytes at all are a record, once their length and model are right: which records no build can have, and which were
// damaged, is for the turn to say.
pub fn read(bytes: &[u8]) -> Result<Job, Refusal>
    ensures { result ≡ record_read bytes.now }
{
    if bytes.len() != LENGTH {
        return Err(Refusal::WrongLength);
    }
    let model = little_endian::half(bytes, 0);
    if (LAST as u32) < model {
        return Err(Refusal::UnknownModel);
    }
    Ok(job_at(bytes, model as u8))
}

// The check word of the words that stand before it: their sum.
fn check_word(bytes: &[u8]) -> u64
    ensures { result ≡ check_of bytes.now }
{
    let mut sum = CHECK_START;
    for i in 0..CHECK / 8 {
        sum = sum.wrapping_add(little_endian::word(bytes, 8 * i));
    }
    sum
}

// Whether a record's check word is right.
fn intact(bytes: &[u8]) -> bool
    ensures { result ≡ intact bytes.now }
{
    little_endian::word(bytes, CHECK) == check_word(bytes)
}

// Whether its strict mark is one and its check word is right. A record that isn't of the right length is not judged
// here.
pub fn whole(bytes: &[u8]) -> bool
    ensures { result ≡ whole bytes.now }
{
    if 1 < little_endian::word(bytes, MARK) {
        return false;
    }
    intact(bytes)
}

// A camera's model by its number.
fn model_number(camera: Camera) -> u64
    ensures { result ≡ model_number camera }
{
    camera::numbers::model_number(camera) as u64
}

fn put_camera(job: Job, out: &mut [u8])
    requires { record_length ≤ length out.old }
    ensures { out.new ≡ put 0 (camera_part job) out.old }
{
    let camera = job.camera;
    let at = job.at;
    let numbers = camera::numbers::padded(camera);
    little_endian::put(out, 0, 4, model_number(camera));
    little_endian::put(out, UPDATES, 4, at.updates as u64);
    little_endian::put_floats(out, PARAMS, &numbers);
}

fn put_size(job: Job, out: &mut [u8])
    requires { record_length ≤ length out.old }
    ensures { out.new ≡ put width_place (size_part job) out.old }
{
    let at = job.at;
    little_endian::put(out, WIDTH, 4, job.width as u64);
    little_endian::put(out, HEIGHT, 4, job.height as u64);
    little_endian::put(out, DONE, 8, at.done as u64);
}

fn put_boxes(job: Job, out: &mut [u8])
    requires { record_length ≤ length out.old }
    ensures { out.new ≡ put edges_place (boxes job) out.old }
{
    let at = job.at;
    let edges = at.edges;
    let region = at.region;
    region_bytes::put_box(edges, EDGES, out);
    region_bytes::put_box(region, REGION, out);
}

// The strict mark.
fn mark(strict: bool) -> u64
    ensures { result ≡ mark strict }
{
    if strict { 1 } else { 0 }
}

// What the record tells of samples that didn't settle.
fn put_tallies(job: Job, out: &mut [u8])
    requires { record_length ≤ length out.old }
    ensures { out.new ≡ put unsettled_place (tallies job) out.old }
{
    let at = job.at;
    little_endian::put(out, UNSETTLED, 4, at.unsettled as u64);
    little_endian::put(out, FIRST, 4, at.first as u64);
    little_endian::put(out, MARK, 8, mark(job.strict));
}

// Writes a record at the buffer's start, if all of it fits. Else the buffer is left as it is. The sum is taken of a
// slice whose length the compiler knows, so that it tests none of the words' places.
pub fn write(job: Job, out: &mut [u8])
    ensures { out.new ≡ put 0 (record_bytes job) out.old }
{
    if LENGTH <= out.len() {
        put_camera(job, out);
        put_size(job, out);
        put_boxes(job, out);
        put_tallies(job, out);
        let check = check_word(&out[0..LENGTH]);
        little_endian::put(out, CHECK, 8, check);
    }
}

// 13 for a mark that is neither 0 nor 1.
fn known_mark(mark: u8, started: Result<Job, Refusal>) -> Result<Job, Refusal>
    ensures { result ≡ known_mark mark started }
{
    let job = started?;
    if mark <= 1 {
        return Ok(job);
    }
    Err(Refusal::ImpossibleRecord)
}

// A fresh record of the camera that is asked for, or why there is none.
fn started(
    asked: Result<Camera, Refusal>,
    width: usize,
    height: usize,
    mark: u8,
) -> Result<Job, Refusal>
    ensures { result ≡ started asked width height mark }
{
    let camera = asked?;
    known_mark(mark, job::fresh(camera, width, height, mark == 1))
}

// Hands a record over, if the buffer is of its length.
fn give_job(job: Job, out: &mut [u8]) -> u8
    ensures { given result out.new ≡ answered record_length 0 (record_bytes job) out.old }
{
    let code = given::code(0, out.len() == LENGTH);
    if code == 0 {
        write(job, out);
    }
    code
}

fn give_started(started: Result<Job, Refusal>, out: &mut [u8]) -> u8
    ensures { given result out.new ≡ give_started (told_started started) out.old }
{
    match started {
        Ok(job) => give_job(job, out),
        Err(refusal) => given::code(lens::number(refusal), out.len() == LENGTH),
    }
}

// The bytes of a fresh record: 1, 3, 4, 5, 6, 7, 13, or 0 and all of them.
pub fn fresh(model: u8, params: &[u8], width: u32, height: u32, mark: u8, out: &mut [u8]) -> u8
    ensures { given result out.new ≡
        fresh_bytes model params.now width height mark out.old }
{
    let started = started(
        camera_bytes::read(model, params),
        width as usize,
        height as usize,
        mark,
    );
    give_started(started, out)
}
