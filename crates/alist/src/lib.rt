// The form of an alist text: whether it is one (cause 18 where it is not), its sizes, and where its parts stand.
#![tactic(auto)]

ghost use Rattle.std.specs.Prelude.{◌≡◌, ◌*◌, drop, IfSome, IfNone, option_map};
ghost use Rattle.std.specs.Bool.{then_some};
ghost use Rattle.model.specs.Alist.{numbers_of};
ghost use Rattle.numbers.specs.Walked.{Small};
ghost use Rattle.numbers.specs.Sides.{degrees_in, lists_in};
ghost use Rattle.alist.specs.Form.{filled_list, filled_lists, sides_of, form_of, Sized};

use numbers::{Numbers, Side};

// The two sides of a text that has the form of an alist file.
#[derive(Drop)]
pub struct Form<'a> {
    pub columns: Side<'a>,
    pub rows: Side<'a>,
}

// The numbers n and m and the largest degrees.
#[derive(Drop)]
struct Sizes {
    columns: u16,
    rows: u16,
    column_most: u16,
    row_most: u16,
}

// The numbers behind a list of `most` numbers, where those are `degree` indices and then zeros.
fn walk_list<'a>(mut numbers: Numbers<'a>, degree: u16, most: u16) -> Option<Numbers<'a>>
    ensures { result ≡ then_some (filled_list degree most numbers.entry) (drop most numbers.entry) }
{
    for i in 0..most {
        let value = numbers.number()?;
        if (i < degree) != (0 < value) {
            return None;
        }
    }
    (degree <= most).then_some(numbers)
}

// The numbers behind the lists of a side, where they are so, each for its degree.
fn walk_lists<'a>(side: &Side<'a>) -> Option<Numbers<'a>>
    ensures { result
        ≡ then_some (filled_lists side.now.count side.now.most (degrees_in side.now) (lists_in side.now)) (drop (side.now.count * side.now.most) (lists_in side.now)) }
{
    let most = side.most;
    let mut degrees = Numbers::new(side.degrees);
    let mut lists = Numbers::new(side.lists);
    for _ in 0..side.count {
        let degree = degrees.number()?;
        lists = walk_list(lists, degree, most)?;
    }
    Some(lists)
}

// The next four numbers.
fn read_sizes(numbers: &mut Numbers) -> Option<Sizes>
    ensures found { IfSome result (λ sizes. Sized numbers.old sizes numbers.new) }
    ensures missing { IfNone result (Small 4 numbers.old → ⊥) }
{
    Some(Sizes {
        columns: numbers.number()?,
        rows: numbers.number()?,
        column_most: numbers.number()?,
        row_most: numbers.number()?,
    })
}

// The two sides of a text, where it has the form of an alist file.
pub fn read_form(text: &[u8]) -> Option<Form<'_>>
    ensures { option_map sides_of result ≡ form_of (numbers_of 0 text.now) }
{
    let mut numbers = Numbers::new(text);
    let sizes = read_sizes(&mut numbers)?;
    let column_degrees = numbers.again();
    if numbers.largest(usize::from(sizes.columns))? != sizes.column_most {
        return None;
    }
    let row_degrees = numbers.again();
    if numbers.largest(usize::from(sizes.rows))? != sizes.row_most {
        return None;
    }
    let columns = Side::new(sizes.columns, sizes.column_most, &column_degrees, &numbers);
    let row_lists = walk_lists(&columns)?;
    let rows = Side::new(sizes.rows, sizes.row_most, &row_degrees, &row_lists);
    let rest = walk_lists(&rows)?;
    rest.is_empty().then_some(Form { columns, rows })
}
