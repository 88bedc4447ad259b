// The decoder of a group: up to eight frames of one code with the same settings.
#![tactic(auto)]

ghost use Rattle.std.specs.Prelude.{◌≡◌, false, cond, List, map, ℕ, ◌*◌, ◌≤◌, ◌<◌, ltb, length, get_or, replicate};
ghost use Rattle.lists.specs.Tabulated.{tab, over, written, part, blocks};
ghost use Rattle.lists.specs.Entries.{some};
ghost use Rattle.model.specs.Limits.{most_frames};
ghost use Rattle.model.specs.Causes.{number_of, first_of};
ghost use Rattle.model.specs.Code.{variables};
ghost use Rattle.model.specs.Sound.{Sound};
ghost use Rattle.model.specs.Splitting.{system_of};
ghost use Rattle.model.specs.Iteration.{counts_of};
ghost use Rattle.model.specs.Calls as Calls;
ghost use Rattle.model.specs.Calls.{forbidden, lists_of, run_told};
ghost use Rattle.model.specs.Lent.{contents_of, SameLists};
ghost use Rattle.model.specs.DecoderClaims.{Small};
ghost use Rattle.model.specs.Group as Group;
ghost use Rattle.model.specs.Group.{group_causes, group_decoded, no_group_room};
ghost use Rattle.model.specs.GroupPromises.{GroupCall};
ghost use Rattle.group_step.specs.Frames.{iterations, stop_of};
ghost use Rattle.group_step.specs.declared.Stage.TheVariants.{Idle};
ghost use Rattle.group.specs.Told.{told};
ghost use Rattle.group.specs.Ends.{plan_of, stage_for, AcceptedGroup, Ran, answer_of, word_left};

use group_step::Stage;
use lanes::Plan;
use model::{Cause, DecodeAnswer, Decoding, Ending, Lists, MOST_FRAMES, Settings};
use reader::Code;

// ---- the causes

// The lanes of so many frames, one four or two, and the sizes of the code.
fn plan_for(code: &Code, frames: usize) -> Plan
    ensures plan { result ≡ plan_of code.now frames }
    ensures sound { Sound code.now }
{
    Plan {
        lanes: if frames <= 4 { 4 } else { 8 },
        triples: code.triples(),
        variables: code.variables(),
        bits: code.bits(),
    }
}

// 10: a lent list that is too short for the frames.
fn lacks_room(code: &Code, frames: usize, lists: &Lists, work: &[i32]) -> bool
    requires { frames ≤ most_frames }
    ensures { result ≡ no_group_room code.now frames (contents_of lists.now) work.now }
{
    decoder::lacks_room(code, frames, lists) || work.len() < plan_for(code, frames).size()
}

// The first cause of a group with a sound code: 11, 21, 12, 10. Not the decoder's causes: 21 stands between 11 and 12, and a cost of -32,768 is its frame's own.
fn judge(
    code: &Code,
    settings: Settings,
    frames: usize,
    costs: &[i16],
    lists: &Lists,
    work: &[i32],
) -> Result<(), Cause>
    ensures { number_of result ≡ first_of (group_causes code.now settings frames costs.now (contents_of lists.now) work.now) }
{
    if inputs::out_of_range(settings) {
        return Err(Cause::Setting);
    }
    if frames < 1 || MOST_FRAMES < frames {
        return Err(Cause::Frames);
    }
    if costs.len() != frames * code.bits() {
        return Err(Cause::Lengths);
    }
    if lacks_room(code, frames, lists, work) {
        return Err(Cause::Room);
    }
    Ok(())
}

// ---- an accepted call

// The stage of a frame with these costs: it runs where none is -32,768.
fn stage_of(costs: &[i16]) -> Stage
    ensures value { result ≡ stage_for costs.now }
    ensures small { some forbidden costs.now ≡ false → Small costs.now }
{
    if inputs::some_forbidden(costs) {
        Stage::Idle
    } else {
        Stage::Running
    }
}

// The stages of so many frames.
fn begin_frames(costs: &[i16], bits: usize, frames: usize, stages: &mut [Stage; 8])
    requires { (length costs.now ≡ frames * bits) × (frames ≤ length stages.old) }
    ensures stages { stages.new ≡ over frames (λ f. stage_for (part bits f costs.now)) stages.old }
    ensures small { (f : ℕ) → f < frames → some forbidden (part bits f costs.now) ≡ false → Small (part bits f costs.now) }
{
    for f in 0..frames {
        let from = f * bits;
        let to = from + bits;
        stages[f] = stage_of(&costs[from..to]);
    }
}

// The triples and the counts of the code are written, and the frames without a false cost are run. By slices, as below.
fn run_system(
    code: &Code,
    settings: Settings,
    frames: usize,
    costs: &[i16],
    triples: &mut [u16],
    counts: &mut [u16],
    sums: &mut [i64],
    values: &mut [i16],
    rows: &mut [i32],
    work: &mut [i32],
    stages: &mut [Stage; 8],
)
    requires accepted { (word : List ℕ) × AcceptedGroup code.now settings frames costs.now
        (lists_of triples.old counts.old sums.old values.old rows.old word) work.old }
    requires stages { stages.old ≡ replicate most_frames Idle }
    ensures split { (triples.new ≡ written (system_of code.now).members triples.old)
        × (counts.new ≡ written (counts_of (system_of code.now)) counts.old) }
    ensures ran { Ran code.now settings frames costs.now stages.new
        sums.old values.old rows.old sums.new values.new rows.new }
{
    triples::write_system(code, triples, counts);
    let p = plan_for(code, frames);
    begin_frames(costs, p.bits, frames, stages);
    let size = p.size();
    let v_end = frames * p.variables;
    let r_end = frames * (4 * p.triples);
    group_run::run(
        settings,
        &triples[..3 * p.triples],
        &counts[..p.variables],
        costs,
        p,
        frames,
        &mut work[..size],
        stages,
        &mut sums[..v_end],
        &mut values[..v_end],
        &mut rows[..r_end],
    );
}

// A frame that ended as told, or that has a false cost and did no iteration: what its values say, and its word.
fn conclude_frame(code: &Code, values: &[i16], stage: Stage, word: &mut [u8]) -> DecodeAnswer
    requires room { (code.now.bits ≤ length values.now) × (code.now.bits ≤ length word.old) }
    ensures answer { run_told result ≡ answer_of code.now (iterations stage) (stop_of stage) values.now }
    ensures word { word.new ≡ word_left code.now (iterations stage) values.now word.old }
{
    let ending = match stage {
        Stage::Ended(ending) => ending,
        _ => Ending {
            k: 0,
            settled: false,
        },
    };
    if ending.k == 0 {
        return DecodeAnswer::from(Err(Cause::Cost));
    }
    let conclusion = outcome::conclude(code, values, word);
    DecodeAnswer::from(Ok(Decoding { conclusion, ending }))
}

// What is told of a frame that a group does not have.
fn nothing() -> DecodeAnswer
    ensures { run_told result ≡ Group.alone 0 }
{
    DecodeAnswer {
        number: 0,
        place: 0,
        k: 0,
        settled: 0,
    }
}

// The answers of all frames.
fn conclude(
    code: &Code,
    frames: usize,
    values: &[i16],
    stages: &[Stage; 8],
    word: &mut [u8],
) -> [DecodeAnswer; 8]
    requires frames { (frames ≤ most_frames) × (length stages.now ≡ most_frames) }
    requires room { (frames * variables code.now ≤ length values.now) × (frames * code.now.bits ≤ length word.old) }
    ensures answers { map run_told result ≡ tab most_frames (λ f. cond (ltb f frames)
        (answer_of code.now (iterations (get_or stages.now f Idle)) (stop_of (get_or stages.now f Idle)) (part (variables code.now) f values.now))
        (Group.alone 0)) }
    ensures words { word.new ≡ written (blocks frames (λ f.
        word_left code.now (iterations (get_or stages.now f Idle)) (part (variables code.now) f values.now) (part code.now.bits f word.old)))
        word.old }
{
    let bits = code.bits();
    let variables = code.variables();
    let mut told = [nothing(); 8];
    for f in 0..frames {
        let v = f * variables;
        let v_end = v + variables;
        let b = f * bits;
        let b_end = b + bits;
        told[f] = conclude_frame(code, &values[v..v_end], stages[f], &mut word[b..b_end]);
    }
    told
}

// The frames are run, and their last values tell their answers.
// By slices: what a field of `Lists` holds is not known any more once its list was lent to be read.
fn decode_accepted(
    code: &Code,
    settings: Settings,
    frames: usize,
    costs: &[i16],
    triples: &mut [u16],
    counts: &mut [u16],
    sums: &mut [i64],
    values: &mut [i16],
    rows: &mut [i32],
    word: &mut [u8],
    work: &mut [i32],
) -> [DecodeAnswer; 8]
    requires accepted { AcceptedGroup code.now settings frames costs.now (lists_of triples.old counts.old sums.old values.old rows.old word.old) work.old }
    ensures decoded { let before = lists_of triples.old counts.old sums.old values.old rows.old word.old in
        let after = lists_of triples.new counts.new sums.new values.new rows.new word.new in
        record { number = 0; answers = map run_told result; lists = after } ≡ group_decoded code.now settings frames costs.now before }
    ensures small { (f : ℕ) → f < frames → (let own = part code.now.bits f costs.now in some forbidden own ≡ false → Small own) }
{
    let mut stages = [Stage::Idle; 8];
    run_system(
        code,
        settings,
        frames,
        costs,
        triples,
        counts,
        sums,
        values,
        rows,
        work,
        &mut stages,
    );
    conclude(code, frames, values, &stages, word)
}

// ---- the entry

// The decoder of a group, in lists with room for all frames (`Lists`) and a list of work; or the first cause, of the code, then 11, 21, 12 and 10. A refused call
// leaves every list as it was; a frame with a cost of -32,768 has 13, and its parts stay. What the list of work holds after an accepted call is open.
pub fn decode(
    code: &[u8],
    settings: Settings,
    frames: usize,
    costs: &[i16],
    lists: &mut Lists,
    work: &mut [i32],
) -> Result<[DecodeAnswer; 8], Cause>
    ensures call { GroupCall code.now settings frames costs.now (contents_of lists.old) work.old
        (told result (contents_of lists.new)) work.new }
    ensures same { SameLists lists.old lists.new }
{
    let code = Code::read(code)?;
    judge(&code, settings, frames, costs, lists, work)?;
    Ok(decode_accepted(
        &code,
        settings,
        frames,
        costs,
        &mut *lists.triples,
        &mut *lists.counts,
        &mut *lists.sums,
        &mut *lists.values,
        &mut *lists.rows,
        &mut *lists.word,
        work,
    ))
}
