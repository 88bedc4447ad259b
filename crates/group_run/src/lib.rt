// The run of a group: group steps while enough frames run; the others go on by themselves, which takes less time (docs/PERFORMANCE.md).
#![tactic(auto)]

ghost use Rattle.std.specs.Prelude.{◌≡◌, true, false, cond, List, ℕ, suc, ◌+◌, ◌*◌, ◌≤◌, ◌<◌, eqb, ℤ, nat_abs, length};
ghost use Rattle.lists.specs.Tabulated.{part};
ghost use Rattle.quotient.specs.Quotient.{quotient};
ghost use Rattle.model.specs.Limits.{most_weight, most_cost, most_iterations};
ghost use Rattle.model.specs.Code.{Code};
ghost use Rattle.model.specs.Iteration.{at};
ghost use Rattle.model.specs.Run as Run;
ghost use Rattle.model.specs.Bounds.{RowsWithin, Lent};
ghost use Rattle.model.specs.Group.{end_of};
ghost use Rattle.lanes.specs.Lanes.{Fits, Raised, lane_state};
ghost use Rattle.lane_values.specs.Valued.{Counted};
ghost use Rattle.lane_step.specs.Step.{system_for, Weighed};
ghost use Rattle.group_step.specs.Frames.{marks, going, ended_in, Held, Marks};
ghost use Rattle.group_step.specs.Lent.{part_in, end_in, frame_in, Kept};
ghost use Rattle.group_run.specs.Given.{Given};
ghost use Rattle.group_run.specs.Course.{count_running, enough_run, end_from, ends, RowsDone, Put, InLanes};

use group_step::{Frames, Stage};
use lane_renewal::Walk;
use lane_values::Divisors;
use lanes::Plan;
use model::Settings;

// ---- which frames run

// How many frames run.
fn count_running(running: &[bool; 8]) -> usize
    ensures { result ≡ count_running running.now }
{
    let mut n = 0;
    for f in 0..running.len() {
        if running[f] {
            n += 1;
        }
    }
    n
}

// Whether enough frames run for group steps: a four of lanes takes as long as two or three single runs.
fn enough_run(running: &[bool; 8]) -> bool
    ensures { result ≡ enough_run running.now }
{
    let n = count_running(running);
    let both = lane_step::some_run(running, 0) & lane_step::some_run(running, 4);
    (3 < n) | ((2 < n) & !both)
}

// ---- in lanes

// The costs of the frames that run are put into their lanes.
fn put_all_costs(costs: &[i16], weight: u32, frames: &Frames, work: &mut [i32])
    requires fits { Fits frames.now.walk.plan work.old × (length costs.now ≡ frames.now.count * frames.now.walk.plan.bits) }
    requires in_range { (f : ℕ) → f < frames.now.count → going frames.now.stages f ≡ true
        → (weight ≤ most_weight) × ((b : ℕ) → nat_abs (at (part frames.now.walk.plan.bits f costs.now) b) ≤ most_cost) }
    ensures { Put frames.now.walk.plan weight costs.now frames.now.stages frames.now.count work.old work.new }
{
    let p = frames.walk.plan;
    for f in 0..frames.count {
        if frames.stages[f].runs() {
            let from = f * p.bits;
            let to = from + p.bits;
            lane_lists::put_costs(&costs[from..to], weight, p, f, work);
        }
    }
}

// The frames that run are taken out of their lanes, with the sums of list i.
fn take_out_all(frames: &mut Frames, work: &[i32], i: usize)
    requires fits { Fits frames.old.walk.plan work.now × (i ≤ 1) }
    requires raised { (l : ℕ) → l < frames.old.walk.plan.lanes → Raised frames.old.walk.plan work.now l }
    ensures kept { Kept frames.old frames.new }
    ensures stages { frames.new.stages ≡ frames.old.stages }
    ensures parts { (f : ℕ) → f < frames.old.count → part_in frames.new f
        ≡ cond (going frames.old.stages f) (lane_state frames.old.walk.plan i work.now f) (part_in frames.old f) }
{
    for f in 0..frames.count {
        if frames.stages[f].runs() {
            frames.take_out(work, i, f);
        }
    }
}

// Group steps while enough frames run; those that then still run are taken out. It answers how many steps there were.
fn step_on(settings: Settings, divisors: &Divisors, frames: &mut Frames, work: &mut [i32]) -> u32
    requires settings { (settings.limit ≤ most_iterations)
        × Counted frames.old.walk.plan frames.old.walk.counts.now }
    requires ratio { divisors.now.any ≡ settings.ratio }
    requires in_lanes { InLanes frames.old.walk.plan settings frames.old.walk.triples.now frames.old.walk.counts.now 0 0
        frames.old.stages work.old }
    requires enough { enough_run (marks frames.old.stages) ≡ true }
    ensures steps { (1 ≤ result) × (result ≤ settings.limit) }
    ensures kept { Kept frames.old frames.new }
    ensures ran_before { (f : ℕ) → going frames.new.stages f ≡ true → (going frames.old.stages f ≡ true)
        × RowsWithin result (part (4 * frames.old.walk.plan.triples) f frames.new.rows.now) }
    ensures ends { (f : ℕ) → f < frames.old.count → (c : Code) (costs : List ℤ)
        → (going frames.old.stages f ≡ true → Weighed frames.old.walk.plan settings.weight costs work.old f)
        → end_from frames.old.walk.plan settings c frames.old.walk.triples.now costs result
        (going frames.new.stages f) (end_in frames.new f)
        ≡ end_of (system_for c frames.old.walk.plan frames.old.walk.triples.now) settings costs
        (frame_in 1 0 work.old frames.old f) }
{
    let mut i = 0;
    let mut k: u32 = 0;
    while enough_run(&frames.running()) {
        frames.step(settings, divisors, i, k, work);
        i = 1 - i;
        k += 1;
    }
    take_out_all(frames, work, 1 - i);
    k
}

// The frames in lanes, from the start, while enough run.
fn run_in_lanes(settings: Settings, costs: &[i16], frames: &mut Frames, work: &mut [i32]) -> u32
    requires fits { Fits frames.old.walk.plan work.old }
    requires given { Given frames.old.walk.plan frames.old.count settings frames.old.walk.triples.now
        frames.old.walk.counts.now costs.now frames.old.stages }
    requires enough { enough_run (marks frames.old.stages) ≡ true }
    ensures steps { (1 ≤ result) × (result ≤ settings.limit) }
    ensures kept { Kept frames.old frames.new }
    ensures ran_before { (f : ℕ) → going frames.new.stages f ≡ true → (going frames.old.stages f ≡ true)
        × RowsWithin result (part (4 * frames.old.walk.plan.triples) f frames.new.rows.now) }
    ensures ends { (f : ℕ) → f < frames.old.count → (c : Code)
        → end_from frames.old.walk.plan settings c frames.old.walk.triples.now (part frames.old.walk.plan.bits f costs.now) result
        (going frames.new.stages f) (end_in frames.new f)
        ≡ end_from frames.old.walk.plan settings c frames.old.walk.triples.now (part frames.old.walk.plan.bits f costs.now) 0
        (going frames.old.stages f) (end_in frames.old f) }
{
    lane_lists::begin(frames.walk.plan, work);
    put_all_costs(costs, settings.weight, frames, work);
    let divisors = Divisors::new(settings.ratio);
    step_on(settings, &divisors, frames, work)
}

// ---- by themselves

// Frame f by itself, `done` iterations being done.
fn run_frame(settings: Settings, costs: &[i16], f: usize, done: u32, frames: &mut Frames)
    requires inside { (f < frames.old.count) × (suc f * frames.old.walk.plan.bits ≤ length costs.now) }
    requires lent { Lent settings frames.old.walk.triples.now frames.old.walk.counts.now (part frames.old.walk.plan.bits f costs.now)
        frames.old.walk.plan.triples (part frames.old.walk.plan.variables f frames.old.sums.now)
        (part frames.old.walk.plan.variables f frames.old.values.now) (part (4 * frames.old.walk.plan.triples) f frames.old.rows.now) }
    requires rows_within { eqb done 0 ≡ false → RowsWithin done (part (4 * frames.old.walk.plan.triples) f frames.old.rows.now) }
    requires done_le_limit { (1 ≤ settings.limit) × (done ≤ settings.limit) × (settings.limit ≤ most_iterations) }
    ensures kept { Kept frames.old frames.new }
    ensures ended { (g : ℕ) (c : Code) → end_in frames.new g
        ≡ cond (eqb g f) (end_from frames.old.walk.plan settings c frames.old.walk.triples.now
        (part frames.old.walk.plan.bits f costs.now) done true (end_in frames.old f))
        (end_in frames.old g) }
    ensures stops { (g : ℕ) → going frames.new.stages g ≡ cond (eqb g f) false (going frames.old.stages g) }
{
    let p = frames.walk.plan;
    let b = f * p.bits;
    let b_end = b + p.bits;
    let v = f * p.variables;
    let v_end = v + p.variables;
    let r = f * (4 * p.triples);
    let r_end = r + 4 * p.triples;
    let ending = run::go_on(
        settings,
        frames.walk.triples,
        frames.walk.counts,
        &costs[b..b_end],
        p.triples,
        done,
        &mut frames.sums[v..v_end],
        &mut frames.values[v..v_end],
        &mut frames.rows[r..r_end],
    );
    frames.stages[f] = Stage::Ended(ending);
}

// Each frame that runs, by itself, `done` iterations being done.
fn run_frames(settings: Settings, costs: &[i16], done: u32, frames: &mut Frames)
    requires given { Given frames.old.walk.plan frames.old.count settings frames.old.walk.triples.now
        frames.old.walk.counts.now costs.now frames.old.stages }
    requires done_le_limit { (done ≤ settings.limit)
        × RowsDone frames.old.walk.plan done frames.old.stages frames.old.rows.now }
    ensures kept { Kept frames.old frames.new }
    ensures ends { (f : ℕ) → f < frames.old.count → (c : Code) → end_in frames.new f
        ≡ end_from frames.old.walk.plan settings c frames.old.walk.triples.now (part frames.old.walk.plan.bits f costs.now) done
        (going frames.old.stages f) (end_in frames.old f) }
{
    for f in 0..frames.count {
        if frames.stages[f].runs() {
            run_frame(settings, costs, f, done, frames);
        }
    }
}

// ---- the run

// Each frame that runs, to its end.
fn run_all(settings: Settings, costs: &[i16], frames: &mut Frames, work: &mut [i32])
    requires fits { Fits frames.old.walk.plan work.old }
    requires given { Given frames.old.walk.plan frames.old.count settings frames.old.walk.triples.now
        frames.old.walk.counts.now costs.now frames.old.stages }
    ensures kept { Kept frames.old frames.new }
    ensures ends { (f : ℕ) → f < frames.old.count → (c : Code) → end_in frames.new f
        ≡ cond (going frames.old.stages f)
        (Run.run quotient (system_for c frames.old.walk.plan frames.old.walk.triples.now) settings
        (part frames.old.walk.plan.bits f costs.now))
        (end_in frames.old f) }
{
    if enough_run(&frames.running()) {
        let done = run_in_lanes(settings, costs, frames, work);
        run_frames(settings, costs, done, frames);
    } else {
        run_frames(settings, costs, 0, frames);
    }
}

// Each frame that runs, to its end: its iterations, its stop and its parts of S, c and s are those of a run by itself. What the others have stays.
// By slices: `Frames`, which the functions above take, is made here, of parts of the lists that the caller lends.
pub fn run(
    settings: Settings,
    triples: &[u16],
    counts: &[u16],
    costs: &[i16],
    p: Plan,
    count: usize,
    work: &mut [i32],
    stages: &mut [Stage; 8],
    sums: &mut [i64],
    values: &mut [i16],
    rows: &mut [i32],
)
    requires fits { Fits p work.old × Given p count settings triples.now counts.now costs.now stages.old }
    requires marks { Marks count stages.old × Held p count sums.old values.old rows.old }
    ensures marks { Marks count stages.new × Held p count sums.new values.new rows.new }
    ensures ends { (f : ℕ) → f < count → (c : Code)
        → ended_in p stages.new sums.new values.new rows.new f
        ≡ cond (going stages.old f)
        (Run.run quotient (system_for c p triples.now) settings (part p.bits f costs.now))
        (ended_in p stages.old sums.old values.old rows.old f) }
{
    let without = renewal::without_blank(triples, p.triples);
    let narrow = lane_triples::all_narrow(counts);
    let mut frames = Frames {
        walk: Walk {
            plan: p,
            triples,
            counts,
            narrow: without & narrow,
        },
        count,
        stages: *stages,
        sums,
        values,
        rows,
    };
    run_all(settings, costs, &mut frames, work);
    *stages = frames.stages;
}
