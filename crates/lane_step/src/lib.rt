// One iteration of all frames of a group that run, in lanes: the values from the sums of their rows, then the rows, with the sums of the iteration to come. A
// four of lanes in which no frame runs is left out.
#![tactic(auto)]

ghost use Rattle.std.specs.Prelude.{◌≡◌, true, cond, List, ℕ, suc, ◌+◌, ◌-◌, ◌≤◌, ◌<◌, ℤ};
ghost use Rattle.quotient.specs.Quotient.{quotient};
ghost use Rattle.model.specs.Limits.{most_done};
ghost use Rattle.model.specs.Code.{Code};
ghost use Rattle.model.specs.Iteration as Iteration;
ghost use Rattle.model.specs.Run as Run;
ghost use Rattle.lanes.specs.Lanes.{Fits, lane_state, lane_weighed};
ghost use Rattle.lane_values.specs.Valued.{Counted};
ghost use Rattle.lane_renewal.specs.Counting.{settled_in};
ghost use Rattle.lane_step.specs.Step.{runs, some_run, system_for, Weighed, Summed, Small};

use lane_renewal::{Totals, Walk};
use lane_values::Divisors;
use model::Settings;

// Whether a frame runs in one of the four lanes from l on.
pub fn some_run(running: &[bool; 8], l: usize) -> bool
    requires { l ≤ 4 }
    ensures { result ≡ some_run running.now l }
{
    running[l] | (running[l + 1] | (running[l + 2] | running[l + 3]))
}

// Where the fours of lanes begin in which a frame runs,
fn first_lane(running: &[bool; 8]) -> usize
    ensures { result ≡ cond (some_run running.now 0) 0 4 }
{
    if some_run(running, 0) { 0 } else { 4 }
}

// and where they end. One function with the four as a parameter would be called with 0, 4 and 4, 8: no plainer.
fn end_of_lanes(running: &[bool; 8]) -> usize
    ensures { result ≡ cond (some_run running.now 4) 8 4 }
{
    if some_run(running, 4) { 8 } else { 4 }
}

// Every frame that runs goes one iteration on, from the sums in list i; its totals tell whether it then settles.
pub fn advance(
    settings: Settings,
    walk: &Walk,
    divisors: &Divisors,
    i: usize,
    running: &[bool; 8],
    work: &mut [i32],
) -> Totals
    requires fits { Fits walk.now.plan work.old × (i ≤ 1) × Counted walk.now.plan walk.now.counts.now }
    requires ratio { divisors.now.any ≡ settings.ratio }
    requires one_runs { (f : ℕ) × (runs running.now f ≡ true) }
    requires below { (f : ℕ) → runs running.now f ≡ true → f < walk.now.plan.lanes }
    requires small { (l : ℕ) → l < walk.now.plan.lanes → Small walk.now.plan walk.now.counts.now most_done work.old l }
    ensures fits { Fits walk.now.plan work.new }
    ensures small { (l n : ℕ) → l < walk.now.plan.lanes → Small walk.now.plan walk.now.counts.now n work.old l
        → Small walk.now.plan walk.now.counts.now (suc n) work.new l }
    ensures weighed { (l v : ℕ) → l < walk.now.plan.lanes
        → lane_weighed walk.now.plan work.new l v ≡ lane_weighed walk.now.plan work.old l v }
    ensures iterated { (f : ℕ) → runs running.now f ≡ true → (k : Code) (costs : List ℤ)
        → Weighed walk.now.plan settings.weight costs work.old f → Summed walk.now.plan walk.now.triples.now i work.old f
        → let g = system_for k walk.now.plan walk.now.triples.now in
        let a = lane_state walk.now.plan (1 - i) work.old f in
        let b = lane_state walk.now.plan i work.new f in
        (b ≡ Iteration.iterate quotient g settings costs a)
        × (settled_in settings.tolerance result f ≡ Run.stop g settings a b) }
    ensures summed { (f : ℕ) → runs running.now f ≡ true → Summed walk.now.plan walk.now.triples.now (1 - i) work.new f }
{
    lane_values::write_values(walk.counts, divisors, walk.plan, i, work);
    lane_renewal::renew(
        walk,
        1 - i,
        first_lane(running),
        end_of_lanes(running),
        running,
        u64::from(settings.tolerance),
        work,
    )
}
