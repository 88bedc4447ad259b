// The reader of code records: a code that is judged once, its sizes, and its checks one after another.
#![tactic(auto)]

ghost use Rattle.model.specs.Calls.{reading_told};
ghost use Rattle.model.specs.Promises.{ReaderCall};

mod check;
mod code;
mod coverage;

pub use check::{Check, Checks};
pub use code::Code;
use model::{Cause, Sizes};

// The sizes of a sound code, or the first cause: 1 to 6, then 9, 7, 8.
pub fn read(code: &[u8]) -> Result<Sizes, Cause>
    ensures { ReaderCall code.now (reading_told result) }
{
    Ok(Code::read(code)?.sizes())
}
