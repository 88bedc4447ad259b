// The frame program: a turn is one read, one call and one write. What is read, what is written and when the program is over is told by `session`.
// Not proved, but read and tested: that `advance` is handed the bytes that come from standard input, and that what it tells goes to standard output.
#![tactic(auto)]

ghost use Rattle.std.specs.Prelude.{◌≡◌, ◌+◌, ◌≤◌, length, take};

use program::{BUFFER, HELD_BITS, HELD_MEMBERS, HELD_ROWS, HELD_VARIABLES, Held, LINE};

// At most `want` bytes of standard input, to `buffer` from `at` on; how many came. A read that fails ends the input.
fn read(buffer: &mut [u8], at: usize, want: usize) -> usize
    requires { at + want ≤ length buffer.old }
    ensures { (result ≤ want) × (take at buffer.new ≡ take at buffer.old) }
{
    io::read_full(0, &mut buffer[at..at + want])
}

fn main() {
    let mut buffer = [0u8; BUFFER];
    let mut held = Held {
        costs: [0; HELD_BITS],
        triples: [0; HELD_MEMBERS],
        counts: [0; HELD_VARIABLES],
        sums: [0; HELD_VARIABLES],
        values: [0; HELD_VARIABLES],
        rows: [0; HELD_ROWS],
        word: [0; HELD_BITS],
    };
    let mut out = [0u8; LINE];
    let mut state = session::start();
    for _ in 0..u64::MAX {
        if state.want == 0 {
            break;
        }
        let came = read(&mut buffer, state.at, state.want);
        let step = session::advance(state, came, &buffer, &mut held, &mut out);
        let written = step.written;
        state = session::sent(step.state, io::write_all(1, &out[..written]));
    }
}
