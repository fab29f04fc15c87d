// One turn of a table over bytes: the record, the table and the answer are lent by the caller. A call that is refused
// before any unit writes nothing.
#![tactic(auto)]

ghost use Rattle.std.specs.Prelude.{◌≡◌, length};
ghost use Rattle.region.specs.Size.{Sized};
ghost use Rattle.border.specs.Border.{all_units};
ghost use Rattle.plans.specs.Calls.{said_number};
ghost use Rattle.distortion_table.specs.Answer.{told_status};
ghost use Rattle.job_bytes.specs.Places.{record_length};
ghost use Rattle.job_bytes.specs.Bytes.{record_bytes};
ghost use Rattle.turn_bytes.specs.Turn.{handed, answer_length, status_number, report, answer_bytes, Takes, Starts};
ghost use Rattle.turn_bytes.specs.Turn.{turn_bytes};

use cell::CellNumber;
use distortion_table::{Status, Turned};
use job::Job;
use lens::Refusal;
use plans::Progress;

// How many bytes an answer has.
pub const ANSWER: usize = 48;

// A status by its number, as it stands in the answer.
fn status_number(status: Status) -> u64
    ensures { result ≡ status_number (told_status status) }
{
    match status {
        Status::Running => 0,
        Status::Finished => 1,
        Status::Refused(_) => 2,
    }
}

// What a call is answered whose units were begun: the number of the unit that refused, or 0.
fn unit_number(status: Status) -> u8
    ensures { result ≡ said_number (told_status status) }
{
    match status {
        Status::Running => 0,
        Status::Finished => 0,
        Status::Refused(refusal) => lens::number(refusal),
    }
}

// All units of a table, border and cells.
fn all_units(width: usize, height: usize) -> usize
    requires { Sized width height }
    ensures { result ≡ all_units width height }
{
    border::samples(width as u32, height as u32) + width * height
}

// What a turn came to, six numbers of eight bytes each, over the whole answer.
fn put_report(status: u64, all: u64, at: Progress, out: &mut [u8])
    requires { length out.old ≡ answer_length }
    ensures { out.new ≡ report status all at }
{
    little_endian::put(out, 0, 8, status);
    little_endian::put(out, 8, 8, at.done as u64);
    little_endian::put(out, 16, 8, all);
    little_endian::put(out, 24, 8, at.updates as u64);
    little_endian::put(out, 32, 8, at.unsettled as u64);
    little_endian::put(out, 40, 8, at.first as u64);
}

// Writes what a turn hands back.
fn give(turned: Turned, job: &mut [u8], answer: &mut [u8]) -> u8
    requires { Sized turned.job.width turned.job.height
        × (length job.old ≡ record_length)
        × (length answer.old ≡ answer_length) }
    ensures { (result ≡ said_number (told_status turned.status))
        × (job.new ≡ record_bytes turned.job)
        × (answer.new ≡ answer_bytes (told_status turned.status) turned.job) }
{
    let said = turned.status;
    let held = turned.job;
    let at = held.at;
    let all = all_units(held.width, held.height);
    job_bytes::write(held, job);
    put_report(status_number(said), all as u64, at, answer);
    unit_number(said)
}

// The record that is read out of bytes for a table of so many places, or its own refusal: 1, 4, 5, 6, 7, 13. Its mark
// and its check word are judged last, and only where all else is right.
fn taken(job: &[u8], places: usize) -> Result<Job, Refusal>
    ensures { Takes job.now places result }
{
    let held = job_bytes::read(job)?;
    job::admitted(held, places)?;
    if job_bytes::whole(job) {
        return Ok(held);
    }
    Err(Refusal::ImpossibleRecord)
}

// How a call starts, whatever the table holds: 1, 4, 5, 6, 7, 13 before any unit, 7 for an answer of another length too.
fn begin(job: &[u8], places: usize, room: usize) -> Result<Job, u8>
    ensures { Starts job.now places room result }
{
    let right = room == ANSWER;
    // A refusal goes out by the number that C is told, and each arm has its own.
    match taken(job, places) {
        Err(refusal) => Err(given::code(lens::number(refusal), right)),
        Ok(held) if right => Ok(held),
        Ok(_) => Err(lens::number(Refusal::WrongLength)),
    }
}

// One turn: as many units as the allowance says, or fewer if one refuses or none is left. Record, table and answer are
// written up to there.
pub fn turn<N: CellNumber>(job: &mut [u8], table: &mut [N], allowance: u64, answer: &mut [u8]) -> u8
    ensures { handed result job.new table.new answer.new
        ≡ turn_bytes N.kind job.old table.old allowance answer.old }
{
    match begin(job, table.len(), answer.len()) {
        Err(code) => code,
        Ok(held) => give(
            distortion_table::turn(held, table, allowance as usize),
            job,
            answer,
        ),
    }
}
