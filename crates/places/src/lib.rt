// Cause 19 of an alist text: whether columns and rows name the same places, each equally often. No list is kept: a window of rows by columns has a counter for
// each of its places; the rows count up, the columns count down, and the window agrees where no counter would fall below 0 and all end at 0.
#![tactic(auto)]

ghost use Rattle.std.specs.Prelude.{◌≡◌, true, ℕ, ◌+◌, ◌*◌, ◌^◌, ◌≤◌, ◌<◌, length, get_or, take, drop, IfSome, IfNone};
ghost use Rattle.lists.specs.Entries.{sum};
ghost use Rattle.model.specs.Limits.{most_number};
ghost use Rattle.model.specs.Alist.{largest, agree};
ghost use Rattle.numbers.specs.Walked.{Small};
ghost use Rattle.numbers.specs.Sides.{lists_in};
ghost use Rattle.places.specs.Held.{Held, lists_of};
ghost use Rattle.places.specs.Counters.{most_counters, Agrees, Tells, in_rows, in_columns, More, Above, Zeros, Room, Inside, Block};

use numbers::{Numbers, Side};

// So many counters a window can have.
const COUNTERS: usize = 131072;

// So many numbers are read at a time.
const BLOCK: usize = 64;

// Rows `top` .. and columns `left` .., from 0.
#[derive(Clone, Copy)]
struct Window {
    top: usize,
    height: usize,
    left: usize,
    width: usize,
}

// Counts up the indices of the rows in the window's columns: `values` are numbers of its rows, from the `first` on. How many there are.
fn count_up(
    values: &[u16],
    first: usize,
    most: usize,
    window: Window,
    counters: &mut [u16],
) -> usize
    requires { Inside window (length counters.old) × Block most first (length values.now) window.height × Room window most first counters.old }
    ensures more { More (in_rows window most first values.now) counters.old counters.new }
    ensures counted { sum counters.new ≡ sum counters.old + result }
    ensures bound { result ≤ length values.now }
{
    let left = window.left;
    let width = window.width;
    let mut row = first / most * width;
    let mut i = first % most;
    let mut open = 0usize;
    // The row and the place in it are kept beside the item: by the index each would take a division.
    for value in values {
        let value = usize::from(*value);
        if left < value && value <= left + width {
            counters[row + (value - left - 1)] += 1;
            open += 1;
        }
        i += 1;
        if i == most {
            i = 0;
            row += width;
        }
    }
    open
}

// Counts the rows of a window up: `most` numbers of each, the next ones. How many indices are in its columns.
fn rows_up(rows: &Numbers, most: usize, window: Window, counters: &mut [u16]) -> usize
    requires numbers_small { Small (window.height * most) rows.now × (most ≤ most_number) }
    requires inside { Inside window (length counters.old) × Zeros counters.old }
    ensures more { More (in_rows window most 0 (take (window.height * most) rows.now)) counters.old counters.new }
    ensures counted { sum counters.new ≡ result }
{
    let total = window.height * most;
    let mut rest = rows.again();
    let mut values = [0u16; BLOCK];
    let mut open = 0usize;
    for done in (0..total).step_by(BLOCK) {
        let block = &mut values[..BLOCK.min(total - done)];
        rest.read(block);
        open += count_up(block, done, most, window, counters);
    }
    open
}

// Counts down the indices of the columns in the window's rows: `values` are numbers of its columns, from the `first` on. Of `count` indices that were counted
// up, how many are not counted down again; none where a counter would fall below 0.
fn count_down(
    values: &[u16],
    first: usize,
    most: usize,
    window: Window,
    count: usize,
    counters: &mut [u16],
) -> Option<usize>
    requires { Inside window (length counters.old) × Block most first (length values.now) window.width × (count ≡ sum counters.old) }
    ensures more { IfSome result (λ left. More (in_columns window most first values.now) counters.new counters.old × (left ≡ sum counters.new)) }
    ensures above { IfNone result (Above (in_columns window most first values.now) counters.old) }
{
    let top = window.top;
    let height = window.height;
    let width = window.width;
    let mut column = first / most;
    let mut i = first % most;
    let mut left = count;
    for value in values {
        let value = usize::from(*value);
        if top < value && value <= top + height {
            let place = (value - top - 1) * width + column;
            if counters[place] == 0 {
                return None;
            }
            counters[place] -= 1;
            left -= 1;
        }
        i += 1;
        if i == most {
            i = 0;
            column += 1;
        }
    }
    Some(left)
}

// Counts the columns of a window down, the next numbers: whether all counters end at 0. Where they do not, the numbers are left anywhere.
fn columns_down(
    numbers: &mut Numbers,
    most: usize,
    window: Window,
    count: usize,
    counters: &mut [u16],
) -> bool
    requires numbers_small { Small (window.width * most) numbers.old × (most ≤ most_number) }
    requires inside { Inside window (length counters.old) × (count ≡ sum counters.old) }
    ensures tells { Tells result ((p : ℕ) → p < length counters.old → get_or counters.old p 0
        ≡ in_columns window most 0 (take (window.width * most) numbers.old) p) }
    ensures zeros { result ≡ true → Zeros counters.new }
    ensures rest { result ≡ true → numbers.new ≡ drop (window.width * most) numbers.old }
{
    let total = window.width * most;
    let mut values = [0u16; BLOCK];
    let mut left = count;
    for done in (0..total).step_by(BLOCK) {
        let block = &mut values[..BLOCK.min(total - done)];
        numbers.read(block);
        match count_down(block, done, most, window, left, counters) {
            Some(fewer) => left = fewer,
            None => return false,
        }
    }
    left == 0
}

// Whether columns and rows agree in the rows top .. top + height - 1, whose numbers are next, window by window.
fn band(
    rows: &Numbers,
    most: usize,
    columns: &Side,
    top: usize,
    height: usize,
    wide: usize,
    counters: &mut [u16],
) -> bool
    requires numbers_small { Small (height * most) rows.now × (most ≤ most_number) × Held columns.now }
    requires window_fits { (top + height ≤ most_number) × (1 ≤ wide) × (height * wide ≤ most_counters) }
    requires counters_zero { (length counters.old ≡ most_counters) × Zeros counters.old }
    ensures tells { Tells result (Agrees (record { top = top; height = height; left = 0; width = columns.now.count }) most rows.now
        columns.now.most (lists_in columns.now)) }
    ensures zeros { result ≡ true → Zeros counters.new }
{
    let all = usize::from(columns.count);
    let column_most = usize::from(columns.most);
    let mut lists = Numbers::new(columns.lists);
    for left in (0..all).step_by(wide) {
        let width = wide.min(all - left);
        let window = Window {
            top,
            height,
            left,
            width,
        };
        let lent = &mut counters[..height * width];
        let count = rows_up(rows, most, window, lent);
        if !columns_down(&mut lists, column_most, window, count, lent) {
            return false;
        }
    }
    true
}

// Bytes of a text, in parts of so many that there are at most 2^24 of `all` bytes.
fn parts(bytes: usize, all: usize) -> usize
    requires { bytes ≤ all }
    ensures { result ≤ 2 ^ 24 }
{
    bytes / (all / 16777216 + 1)
}

// How wide a window is best: rows are walked once for each window of a band, columns once for each band; twice as wide where that is cheaper. `rows` are the
// bytes of the rows for each column, `columns` those of the columns for each row.
fn window_width(rows: usize, columns: usize) -> usize
    ensures some { 1 ≤ result }
    ensures bound { result ≤ most_counters }
{
    let mut width = 1usize;
    while 2 * width <= COUNTERS && columns / (COUNTERS / width) < rows / width / 2 {
        width *= 2;
    }
    width
}

// Whether columns and rows agree in all windows.
fn windows_agree(columns: &Side, rows: &Side, wide: usize) -> bool
    requires { Held columns.now × Held rows.now × (1 ≤ wide) × (wide ≤ most_counters) }
    ensures { Tells result (Agrees (record { top = 0; height = rows.now.count; left = 0; width = columns.now.count })
        rows.now.most (lists_in rows.now) columns.now.most (lists_in columns.now)) }
{
    let mut counters = [0u16; COUNTERS];
    let high = COUNTERS / wide;
    let count = usize::from(rows.count);
    let most = usize::from(rows.most);
    let mut lists = Numbers::new(rows.lists);
    for top in (0..count).step_by(high) {
        let height = high.min(count - top);
        if !band(&lists, most, columns, top, height, wide, &mut counters) {
            return false;
        }
        lists.pass(height * most);
    }
    true
}

// The largest index that a side names, and how many bytes its lists take.
fn measured(side: &Side) -> (u16, usize)
    requires { Held side.now }
    ensures { result.0 ≡ largest (take (side.now.count * side.now.most) (lists_in side.now)) }
{
    let mut lists = Numbers::new(side.lists);
    let largest = lists.largest(side.size()).unwrap();
    (largest, side.lists.len().saturating_sub(lists.bytes()))
}

// Whether columns and rows name the same places, each equally often.
pub fn agree(columns: &Side, rows: &Side) -> bool
    requires { Held columns.now × Held rows.now }
    ensures { result ≡ agree (lists_of columns.now) (lists_of rows.now) }
{
    let (in_columns, column_bytes) = measured(columns);
    let (in_rows, row_bytes) = measured(rows);
    if rows.count < in_columns || columns.count < in_rows {
        return false;
    }
    let all = row_bytes.max(column_bytes);
    let width = window_width(
        parts(row_bytes, all) * usize::from(columns.count),
        parts(column_bytes, all) * usize::from(rows.count),
    );
    windows_agree(columns, rows, width)
}
