// What C calls, each one call of a function with the same contract: numbers and bytes in, a number out, the answer's
// bytes in a buffer that the caller lends. What is refused writes nothing.
#![tactic(auto)]

ghost use Rattle.std.specs.Prelude.{◌≡◌};
ghost use Rattle.root.specs.Root.{root};
ghost use Rattle.arctan.specs.Arctangent.{arctangent};
ghost use Rattle.arctan.specs.Owed.{Tangent};
ghost use Rattle.arctan.specs.Series.{Arctangent};
ghost use Rattle.arctan.specs.Tangent.{tangent};
ghost use Rattle.given.specs.Given.{given};
ghost use Rattle.number_bytes.specs.Number.{tangent_bytes};
ghost use Rattle.answer_bytes.specs.Answer.{distort_bytes, undistort_bytes, dx_distort_x_bytes, dx_distort_params_bytes};
ghost use Rattle.lookup_bytes.specs.Lookup.{lookup_bytes};
ghost use Rattle.job_bytes.specs.Bytes.{fresh_bytes};
ghost use Rattle.observation_bytes.specs.Bytes.{observe_bytes};
ghost use Rattle.table_plans.specs.Tables.{f32s, i16s};
ghost use Rattle.turn_bytes.specs.Turn.{handed, turn_bytes};

// The pixel of a point: u and v, 16 bytes.
#[unsafe(no_mangle)]
pub extern "C" fn lens_distort(model: u8, params: &[u8], x: f64, y: f64, answer: &mut [u8]) -> u8
    ensures { given result answer.new ≡
        distort_bytes model params.now x y answer.old }
{
    answer_bytes::distort(model, params, x, y, answer)
}

// The point of a pixel: x and y, the updates, the flag, three zeros, 24 bytes.
#[unsafe(no_mangle)]
pub extern "C" fn lens_undistort(model: u8, params: &[u8], u: f64, v: f64, answer: &mut [u8]) -> u8
    ensures { given result answer.new ≡
        undistort_bytes model params.now u v answer.old }
{
    answer_bytes::undistort(model, params, u, v, answer)
}

// The derivative of distort by the point: 32 numbers row by row, then how many columns, 264 bytes.
#[unsafe(no_mangle)]
pub extern "C" fn lens_dx_distort_x(
    model: u8,
    params: &[u8],
    x: f64,
    y: f64,
    answer: &mut [u8],
) -> u8
    ensures { given result answer.new ≡
        dx_distort_x_bytes model params.now x y answer.old }
{
    answer_bytes::dx_distort_x(model, params, x, y, answer)
}

// The derivative of distort by the parameters, in the same form.
#[unsafe(no_mangle)]
pub extern "C" fn lens_dx_distort_params(
    model: u8,
    params: &[u8],
    x: f64,
    y: f64,
    answer: &mut [u8],
) -> u8
    ensures { given result answer.new ≡
        dx_distort_params_bytes model params.now x y answer.old }
{
    answer_bytes::dx_distort_params(model, params, x, y, answer)
}

// The root of x.
#[unsafe(no_mangle)]
pub extern "C" fn lens_root(x: f64) -> f64
    ensures { result ≡ root x }
{
    root::root(x)
}

// The arctangent of x.
#[unsafe(no_mangle)]
pub extern "C" fn lens_arctangent(x: f64) -> f64
    ensures is { result ≡ arctangent x }
    ensures near { Arctangent x result }
{
    arctan::arctangent(x)
}

// The tangent of theta, 8 bytes. Every NaN is written as 7ff8000000000000.
#[unsafe(no_mangle)]
pub extern "C" fn lens_tangent(theta: f64, answer: &mut [u8]) -> u8
    ensures is { given result answer.new ≡ tangent_bytes theta answer.old }
    ensures near { Tangent theta (tangent theta) }
{
    number_bytes::tangent(theta, answer)
}

// The pixel at the point (x, y) between a table's cells: u and v, 16 bytes. The region is 32 bytes: left, top, right,
// bottom.
#[unsafe(no_mangle)]
pub extern "C" fn lens_lookup(
    table: &[f32],
    region: &[u8],
    width: u32,
    height: u32,
    x: f64,
    y: f64,
    answer: &mut [u8],
) -> u8
    ensures { given result answer.new ≡
        lookup_bytes table.now region.now width height x y answer.old }
{
    lookup_bytes::lookup(table, region, width, height, x, y, answer)
}

// The point of every pixel of a list, whose records have 40 bytes.
#[unsafe(no_mangle)]
pub extern "C" fn lens_observe(model: u8, params: &[u8], list: &mut [u8]) -> u8
    ensures { given result list.new ≡ observe_bytes model params.now list.old }
{
    observation_bytes::observe(model, params, list)
}

// A fresh record of a table that is to be built, 240 bytes. The mark is 1 for a strict one, else 0.
#[unsafe(no_mangle)]
pub extern "C" fn lens_job_new(
    model: u8,
    params: &[u8],
    width: u32,
    height: u32,
    strict: u8,
    job: &mut [u8],
) -> u8
    ensures { given result job.new ≡
        fresh_bytes model params.now width height strict job.old }
{
    job_bytes::fresh(model, params, width, height, strict, job)
}

// A turn of a table that is being built: so many units, or fewer if one refuses or none is left. What it came to is
// 48 bytes.
#[unsafe(no_mangle)]
pub extern "C" fn lens_turn(
    job: &mut [u8],
    table: &mut [f32],
    allowance: u64,
    answer: &mut [u8],
) -> u8
    ensures { handed result job.new table.new answer.new ≡
        turn_bytes f32s job.old table.old allowance answer.old }
{
    turn_bytes::turn(job, table, allowance, answer)
}

// The same of a table of sixteen-bit numbers, thirty-seconds of a pixel.
#[unsafe(no_mangle)]
pub extern "C" fn lens_turn16(
    job: &mut [u8],
    table: &mut [i16],
    allowance: u64,
    answer: &mut [u8],
) -> u8
    ensures { handed result job.new table.new answer.new ≡
        turn_bytes i16s job.old table.old allowance answer.old }
{
    turn_bytes::turn(job, table, allowance, answer)
}
