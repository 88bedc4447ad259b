// The group step goes through the code for all frames together and takes every running frame one iteration on. A frame that stops with it is taken out of its
// lane, into its parts of the lists.
#![tactic(auto)]

ghost use Rattle.std.specs.Prelude.{◌≡◌, true, ℕ, ◌≤◌, ◌<◌};
ghost use Rattle.group_step.specs.Frames.{is_running, marks, going, Held, Marks};

use lane_renewal::{Totals, Walk};
use lane_values::Divisors;
use model::{Ending, Settings};

// How far a frame is. A frame with a false cost is idle: it does not run.
#[derive(Clone, Copy)]
pub enum Stage {
    Idle,
    Running,
    Ended(Ending),
}

impl Stage {
    pub fn runs(self) -> bool
        ensures { result ≡ is_running self }
    {
        match self {
            Stage::Running => true,
            _ => false,
        }
    }
}

// The frames of a group: how many they are, how far each is, and the lists that are lent for them, in which they stand one behind the other.
#[derive(Drop)]
pub struct Frames<'a, 'b> {
    pub walk: Walk<'a>,
    pub count: usize,
    pub stages: [Stage; 8],
    pub sums: &'b mut [i64],
    pub values: &'b mut [i16],
    pub rows: &'b mut [i32],
    pub ghost few: { count ≤ 8 },
    pub ghost room: { count ≤ walk.plan.lanes },
    pub ghost marked: { Marks count stages },
    pub ghost held: { Held walk.plan count sums.now values.now rows.now },
}

impl Frames<'_, '_> {
    ghost use Rattle.std.specs.Prelude.{cond, List, suc, ◌-◌, eqb, ℤ};
    ghost use Rattle.model.specs.Limits.{most_iterations};
    ghost use Rattle.model.specs.Code.{Code};
    ghost use Rattle.model.specs.Group.{onward};
    ghost use Rattle.lanes.specs.Lanes.{Fits, Raised, lane_state, lane_weighed};
    ghost use Rattle.lane_values.specs.Valued.{Counted};
    ghost use Rattle.lane_renewal.specs.Counting.{settled_in};
    ghost use Rattle.lane_step.specs.Step.{system_for, Weighed, Summed, Small};
    ghost use Rattle.group_step.specs.Frames.{stopped_by};
    ghost use Rattle.group_step.specs.Lent.{part_in, frame_in, Kept};

    // Which frames run.
    pub fn running(&self) -> [bool; 8]
        ensures { result ≡ marks self.now.stages }
    {
        let mut running = [false; 8];
        for (f, stage) in self.stages.iter().enumerate() {
            running[f] = stage.runs();
        }
        running
    }

    // Frame f is taken out of its lane, with the sums of list i.
    pub fn take_out(&mut self, work: &[i32], i: usize, f: usize)
        requires fits { Fits self.old.walk.plan work.now × (i ≤ 1) × (f < self.old.count) }
        requires raised { Raised self.old.walk.plan work.now f }
        ensures kept { Kept self.old self.new }
        ensures stages { self.new.stages ≡ self.old.stages }
        ensures parts { (g : ℕ) → part_in self.new g ≡ cond (eqb g f) (lane_state self.old.walk.plan i work.now f) (part_in self.old g) }
    {
        let p = self.walk.plan;
        let v = f * p.variables;
        let v_end = v + p.variables;
        let r = f * (4 * p.triples);
        let r_end = r + 4 * p.triples;
        lane_lists::take_sums(work, p, i, f, &mut self.sums[v..v_end]);
        lane_lists::take_values(work, p, f, &mut self.values[v..v_end]);
        lane_lists::take_rows(work, p, f, &mut self.rows[r..r_end]);
    }

    // Frame f, after its k-th iteration, is taken out if that stopped it.
    fn settle(
        &mut self,
        settings: Settings,
        work: &[i32],
        i: usize,
        k: u32,
        totals: &Totals,
        f: usize,
    )
        requires fits { Fits self.old.walk.plan work.now × (i ≤ 1) × (f < self.old.count) }
        requires raised { (l : ℕ) → l < self.old.walk.plan.lanes → Raised self.old.walk.plan work.now l }
        ensures kept { Kept self.old self.new }
        ensures settled { (g : ℕ) → let before = frame_in i k work.now self.old g in
            frame_in i k work.now self.new g
            ≡ cond (eqb g f) (stopped_by settings (settled_in settings.tolerance totals.now g) before) before }
    {
        if self.stages[f].runs() {
            let tolerance = u64::from(settings.tolerance);
            let settled = renewal::settles(totals.multipliers[f], totals.slacks[f], tolerance);
            if settled | (settings.limit <= k) {
                self.stages[f] = Stage::Ended(Ending { k, settled });
                self.take_out(work, i, f);
            }
        }
    }

    // All frames, after the k-th iteration.
    fn settle_all(&mut self, settings: Settings, work: &[i32], i: usize, k: u32, totals: &Totals)
        requires fits { Fits self.old.walk.plan work.now × (i ≤ 1) }
        requires raised { (l : ℕ) → l < self.old.walk.plan.lanes → Raised self.old.walk.plan work.now l }
        ensures kept { Kept self.old self.new }
        ensures settled { (g : ℕ) → g < self.old.count → frame_in i k work.now self.new g
            ≡ stopped_by settings (settled_in settings.tolerance totals.now g) (frame_in i k work.now self.old g) }
    {
        for f in 0..self.count {
            self.settle(settings, work, i, k, totals, f);
        }
    }

    // One group step, k iterations being done: from the sums in list i of the two.
    pub fn step(
        &mut self,
        settings: Settings,
        divisors: &Divisors,
        i: usize,
        k: u32,
        work: &mut [i32],
    )
        requires fits { Fits self.old.walk.plan work.old × (i ≤ 1) × (k < most_iterations)
            × Counted self.old.walk.plan self.old.walk.counts.now }
        requires ratio { divisors.now.any ≡ settings.ratio }
        requires one_runs { (f : ℕ) × (going self.old.stages f ≡ true) }
        requires small { (l : ℕ) → l < self.old.walk.plan.lanes
            → Small self.old.walk.plan self.old.walk.counts.now k work.old l }
        requires summed { (f : ℕ) → going self.old.stages f ≡ true
            → Summed self.old.walk.plan self.old.walk.triples.now i work.old f }
        ensures fits { Fits self.old.walk.plan work.new }
        ensures kept { Kept self.old self.new }
        ensures goes_on { (f : ℕ) → f < self.old.count → (c : Code) (costs : List ℤ)
            → (going self.old.stages f ≡ true → Weighed self.old.walk.plan settings.weight costs work.old f)
            → frame_in i (suc k) work.new self.new f
            ≡ onward (system_for c self.old.walk.plan self.old.walk.triples.now) settings costs
            (frame_in (1 - i) k work.old self.old f) }
        ensures small { (l : ℕ) → l < self.old.walk.plan.lanes
            → Small self.old.walk.plan self.old.walk.counts.now (suc k) work.new l }
        ensures weighed { (l v : ℕ) → l < self.old.walk.plan.lanes
            → lane_weighed self.old.walk.plan work.new l v ≡ lane_weighed self.old.walk.plan work.old l v }
        ensures ran_before { (f : ℕ) → going self.new.stages f ≡ true → (going self.old.stages f ≡ true)
            × Summed self.old.walk.plan self.old.walk.triples.now (1 - i) work.new f }
    {
        let running = self.running();
        let walk = self.walk;
        let totals = lane_step::advance(settings, &walk, divisors, i, &running, work);
        self.settle_all(settings, work, i, k + 1, &totals);
    }
}
