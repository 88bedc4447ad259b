// The frame program between a read and a write: a state, and what follows when the bytes that it asks for came.
#![tactic(auto)]

ghost use Rattle.std.specs.Prelude.{◌≡◌, cond, ◌≤◌, take};
ghost use Rattle.model.specs.Causes.{number};
ghost use Rattle.program.specs.FrameClaims.{buffer_size, Begun};
ghost use Rattle.session.specs.Session as Session;
ghost use Rattle.session.specs.Session.{Asked, Told, Entered, Refused};

use model::Cause;
use program::{BUFFER, Held, LINE};

// The record that is due: of a check first the mark and the degree, then the indices.
#[derive(Clone, Copy)]
pub enum Part {
    Header,
    Check,
    Indices,
    Settings,
    Frame,
    Over,
}

// `want` bytes are to be read to the buffer, from `at` on; those before are kept. `left` checks are to come, `triples` are held.
#[derive(Drop)]
pub struct State {
    pub part: Part,
    pub at: usize,
    pub want: usize,
    pub left: usize,
    pub triples: usize,
}

// The next state, and how many bytes are to be written.
#[derive(Drop)]
pub struct Step {
    pub state: State,
    pub written: usize,
}

pub fn start() -> State
    ensures { result ≡ Session.start }
{
    State {
        part: Part::Header,
        at: 0,
        want: 6,
        left: 0,
        triples: 0,
    }
}

fn over() -> State
    ensures { result ≡ Session.over }
{
    State {
        part: Part::Over,
        at: 0,
        want: 0,
        left: 0,
        triples: 0,
    }
}

// The state after a write: a write that fails ends the program.
pub fn sent(state: State, whole: bool) -> State
    ensures { result ≡ cond whole state Session.over }
{
    if whole { state } else { over() }
}

// A refusal's line, and the end.
fn refuse(cause: Cause, out: &mut [u8; LINE]) -> Step
    ensures { Refused (number cause) result out.new }
{
    let written = lines::refusal(cause.number(), out);
    Step {
        state: over(),
        written,
    }
}

// The bytes of the header came.
fn header(state: State, came: usize, buffer: &[u8; BUFFER], out: &mut [u8; LINE]) -> Step
    requires { Asked state came buffer.now × (state.part ≡ Part.Header) }
    ensures { Told buffer.now state came result out.new }
{
    let bytes = &buffer[..];
    if let Err(cause) = stream::judge_header(&bytes[..came]) {
        return refuse(cause, out);
    }
    let left = records::two_bytes(bytes, 4);
    let next = State {
        part: Part::Check,
        at: 6,
        want: 3,
        left,
        triples: 0,
    };
    Step {
        state: next,
        written: 0,
    }
}

// The mark and the degree of a check came.
fn check(state: State, came: usize, buffer: &[u8; BUFFER], out: &mut [u8; LINE]) -> Step
    requires { Asked state came buffer.now × (state.part ≡ Part.Check) }
    ensures { Told buffer.now state came result out.new }
{
    let bytes = &buffer[..];
    let at = state.at;
    let end = at + came;
    let bits = records::two_bytes(bytes, 2);
    // A mark and a degree are no whole check.
    let Err(cause) = stream::judge_check(&bytes[at..end], bits, state.triples) else {
        unreachable!()
    };
    if cause != Cause::Cut || came < 3 {
        return refuse(cause, out);
    }
    let degree = usize::from(bytes[at + 2]);
    let next = State {
        part: Part::Indices,
        at: end,
        want: 2 * degree,
        left: state.left,
        triples: state.triples,
    };
    Step {
        state: next,
        written: 0,
    }
}

// One more check is kept: the next is due, or the settings once the code is judged. `at` is what the next state keeps.
fn keep(at: usize, left: usize, triples: usize, buffer: &[u8; BUFFER], out: &mut [u8; LINE]) -> Step
    requires { Begun left triples (take at buffer.now) × (at ≤ buffer_size) }
    ensures { Entered buffer.now at result out.new }
{
    let bytes = &buffer[..];
    if 0 < left {
        let next = State {
            part: Part::Check,
            at,
            want: 3,
            left,
            triples,
        };
        return Step {
            state: next,
            written: 0,
        };
    }
    if let Err(cause) = stream::judge_code(&bytes[..at]) {
        return refuse(cause, out);
    }
    let next = State {
        part: Part::Settings,
        at,
        want: 12,
        left,
        triples,
    };
    Step {
        state: next,
        written: 0,
    }
}

// The indices of a check came.
fn indices(state: State, came: usize, buffer: &[u8; BUFFER], out: &mut [u8; LINE]) -> Step
    requires { Asked state came buffer.now × (state.part ≡ Part.Indices) }
    ensures { Told buffer.now state came result out.new }
{
    let bytes = &buffer[..];
    let at = state.at;
    let from = at - 3;
    let end = at + came;
    let bits = records::two_bytes(bytes, 2);
    let check = &bytes[from..end];
    if let Err(cause) = stream::judge_check(check, bits, state.triples) {
        return refuse(cause, out);
    }
    keep(
        end,
        state.left - 1,
        state.triples + records::triple_count(check),
        buffer,
        out,
    )
}

// The bytes of the settings record came.
fn settings(state: State, came: usize, buffer: &[u8; BUFFER], out: &mut [u8; LINE]) -> Step
    requires { Asked state came buffer.now × (state.part ≡ Part.Settings) }
    ensures { Told buffer.now state came result out.new }
{
    let bytes = &buffer[..];
    let at = state.at;
    let end = at + came;
    if let Err(cause) = stream::judge_settings(&bytes[at..end]) {
        return refuse(cause, out);
    }
    let bits = records::two_bytes(bytes, 2);
    let next = State {
        part: Part::Frame,
        at: end,
        want: 2 + 2 * bits,
        left: state.left,
        triples: state.triples,
    };
    Step {
        state: next,
        written: 0,
    }
}

// ---- a frame

// The bytes of a frame came.
fn frame(
    state: State,
    came: usize,
    buffer: &[u8; BUFFER],
    held: &mut Held,
    out: &mut [u8; LINE],
) -> Step
    requires { Asked state came buffer.now × (state.part ≡ Part.Frame) }
    ensures { Told buffer.now state came result out.new }
{
    let bytes = &buffer[..];
    let at = state.at;
    let size = at - 12;
    let end = at + came;
    let settings = stream::settings(&bytes[size..at]);
    let line = answers::frame_line(&bytes[..size], settings, &bytes[at..end], held, out);
    let written = line.written;
    if line.on {
        Step { state, written }
    } else {
        Step {
            state: over(),
            written,
        }
    }
}

// ---- a turn

// `came` bytes came to the buffer, behind those that are kept: the next state, and what is to be written, at the beginning of `out`.
// A `match` and no closures: each part has its own condition.
pub fn advance(
    state: State,
    came: usize,
    buffer: &[u8; BUFFER],
    held: &mut Held,
    out: &mut [u8; LINE],
) -> Step
    requires { Asked state came buffer.now }
    ensures { Told buffer.now state came result out.new }
{
    let part = state.part;
    match part {
        Part::Header => header(state, came, buffer, out),
        Part::Check => check(state, came, buffer, out),
        Part::Indices => indices(state, came, buffer, out),
        Part::Settings => settings(state, came, buffer, out),
        Part::Frame => frame(state, came, buffer, held, out),
        Part::Over => Step { state, written: 0 },
    }
}
