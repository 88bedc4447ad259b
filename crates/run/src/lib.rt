// The run, on lists of exact length: iterations until it settles or K are done. While it goes the rows stand transposed.
#![tactic(auto)]

ghost use Rattle.std.specs.Prelude.{◌≡◌, false, cond, ◌-◌, ◌*◌, ◌≤◌, ◌<◌, eqb, length};
ghost use Rattle.quotient.specs.Quotient.{quotient};
ghost use Rattle.model.specs.Limits.{most_iterations, most_done};
ghost use Rattle.model.specs.Causes.{◌if◌};
ghost use Rattle.model.specs.Code.{Code};
ghost use Rattle.model.specs.Iteration.{State};
ghost use Rattle.model.specs.Iteration as Iteration;
ghost use Rattle.model.specs.Run as Run;
ghost use Rattle.model.specs.Bounds.{RowsWithin, system_in, Lent};
ghost use Rattle.layout.specs.Transposed.{straight};
ghost use Rattle.renewal.specs.InPlace.{Known};
ghost use Rattle.run.specs.States.{state_in};

use model::{Ending, Settings};
use values::Divisors;

// What a run reads: its settings, the members of the triples, in how many triples each variable is, the costs of the bits, and how many triples there are.
#[derive(Drop)]
struct System<'a> {
    settings: Settings,
    triples: &'a [u16],
    counts: &'a [u16],
    costs: &'a [i16],
    count: usize,
}

// One iteration: S and c of each variable, then the four rows of each triple. It answers whether the run then settles. It may be known that no triple has the blank.
fn iterate(
    system: &System,
    divisors: &Divisors,
    known: bool,
    sums: &mut [i64],
    values: &mut [i16],
    rows: &mut [i32],
) -> bool
    requires lent { Lent system.now.settings system.now.triples.now system.now.counts.now system.now.costs.now system.now.count sums.old values.old rows.old }
    requires rows_within { RowsWithin most_done (straight system.now.count rows.old) }
    requires divisors { divisors.now ≡ system.now.settings.ratio }
    requires known { Known known system.now.triples.now }
    ensures next_state { (k : Code) → let g = system_in k system.now.triples.now system.now.count values.old in
        let a = state_in system.now.count sums.old values.old rows.old in
        let b = state_in system.now.count sums.new values.new rows.new in
        (b ≡ Iteration.iterate quotient g system.now.settings system.now.costs.now a) × ((1 if result) ≡ Run.stop g system.now.settings a b) }
    ensures rows_long { length rows.new ≡ 4 * system.now.count }
{
    sums::gather(system.triples, rows, system.count, sums);
    values::write_values(
        sums,
        system.counts,
        system.costs,
        system.settings.weight,
        divisors,
        values,
    );
    renewal::renew_rows(
        system.triples,
        values,
        known,
        rows,
        system.count,
        u64::from(system.settings.tolerance),
    )
}

// Iterations from the state in the lists, `done` being done, until one stops the run or K are done. The rows stay transposed.
fn iterations(
    system: &System,
    divisors: &Divisors,
    known: bool,
    done: u32,
    sums: &mut [i64],
    values: &mut [i16],
    rows: &mut [i32],
) -> Ending
    requires lent { Lent system.now.settings system.now.triples.now system.now.counts.now system.now.costs.now system.now.count sums.old values.old rows.old }
    requires rows_within { RowsWithin done (straight system.now.count rows.old) }
    requires divisors { divisors.now ≡ system.now.settings.ratio }
    requires known { Known known system.now.triples.now }
    requires done_le_limit { (done ≤ system.now.settings.limit) × (system.now.settings.limit ≤ most_iterations) }
    ensures run_on { (k : Code) → let g = system_in k system.now.triples.now system.now.count values.old in
        let first = state_in system.now.count sums.old values.old rows.old in
        let last = state_in system.now.count sums.new values.new rows.new in
        record { k = result.k; settled = 1 if result.settled; last = last } ≡ Run.run_from quotient g system.now.settings system.now.costs.now (system.now.settings.limit - done) done first }
    ensures rows_kept { (RowsWithin system.now.settings.limit rows.new) × (length rows.new ≡ 4 * system.now.count) }
{
    for k in done..system.settings.limit {
        let settled = iterate(system, divisors, known, sums, values, rows);
        if settled {
            return Ending { k: k + 1, settled };
        }
    }
    Ending {
        k: system.settings.limit,
        settled: false,
    }
}

// The run from the state in the lists, whose rows are transposed and are told as a caller reads them. The divisors of variables in up to 31
// triples are prepared, and whether some triple has the blank is found.
fn run_from(
    system: &System,
    done: u32,
    sums: &mut [i64],
    values: &mut [i16],
    rows: &mut [i32],
) -> Ending
    requires lent { Lent system.now.settings system.now.triples.now system.now.counts.now system.now.costs.now system.now.count sums.old values.old rows.old }
    requires rows_within { RowsWithin done (straight system.now.count rows.old) }
    requires done_le_limit { (done ≤ system.now.settings.limit) × (system.now.settings.limit ≤ most_iterations) }
    ensures { ((k : Code) → let g = system_in k system.now.triples.now system.now.count values.old in
        let first = state_in system.now.count sums.old values.old rows.old in
        let last : State = record { sums = sums.new; values = values.new; rows = rows.new } in
        record { k = result.k; settled = 1 if result.settled; last = last } ≡ Run.run_from quotient g system.now.settings system.now.costs.now (system.now.settings.limit - done) done first) }
{
    let divisors = Divisors::new(system.settings.ratio);
    let known = renewal::without_blank(system.triples, system.count);
    let ending = iterations(system, &divisors, known, done, sums, values, rows);
    layout::straighten(rows, system.count);
    ending
}

// The run of the system that the lists hold, from the start, where each row is 0.
// By slices: the decoder lends parts of longer lists, and would make a struct for this one call.
pub fn run(
    settings: Settings,
    triples: &[u16],
    counts: &[u16],
    costs: &[i16],
    count: usize,
    sums: &mut [i64],
    values: &mut [i16],
    rows: &mut [i32],
) -> Ending
    requires lent { Lent settings triples.now counts.now costs.now count sums.old values.old rows.old }
    requires le_limit { (1 ≤ settings.limit) × (settings.limit ≤ most_iterations) }
    ensures { ((k : Code) → let g = system_in k triples.now count values.old in
        let last : State = record { sums = sums.new; values = values.new; rows = rows.new } in
        record { k = result.k; settled = 1 if result.settled; last = last } ≡ Run.run quotient g settings costs.now) }
{
    rows.fill(0);
    let system = System {
        settings,
        triples,
        counts,
        costs,
        count,
    };
    run_from(&system, 0, sums, values, rows)
}

// The run goes on, `done` iterations being done: from the state in the lists, or from the start where none is.
pub fn go_on(
    settings: Settings,
    triples: &[u16],
    counts: &[u16],
    costs: &[i16],
    count: usize,
    done: u32,
    sums: &mut [i64],
    values: &mut [i16],
    rows: &mut [i32],
) -> Ending
    requires lent { Lent settings triples.now counts.now costs.now count sums.old values.old rows.old }
    requires rows_within { eqb done 0 ≡ false → RowsWithin done rows.old }
    requires le_limit { (1 ≤ settings.limit) × (done ≤ settings.limit) × (settings.limit ≤ most_iterations) }
    ensures { ((k : Code) → let g = system_in k triples.now count values.old in
        let first : State = record { sums = sums.old; values = values.old; rows = rows.old } in
        let last : State = record { sums = sums.new; values = values.new; rows = rows.new } in
        record { k = result.k; settled = 1 if result.settled; last = last } ≡ cond (eqb done 0) (Run.run quotient g settings costs.now)
        (Run.run_from quotient g settings costs.now (settings.limit - done) done first)) }
{
    if done == 0 {
        return run(settings, triples, counts, costs, count, sums, values, rows);
    }
    layout::straighten(rows, count);
    let system = System {
        settings,
        triples,
        counts,
        costs,
        count,
    };
    run_from(&system, done, sums, values, rows)
}
