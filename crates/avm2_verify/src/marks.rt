// Where the instructions of a body stand.

ghost use Rattle.std.specs.Prelude.{◌≡◌, IfOk};
ghost use Rattle.avm2_verify.specs.Tables.{AreMarks};

use avm2_code::instruction_at;
use flex_base::NoMemory;
use std::alloc::Global;

// Of each place of the code, whether an instruction stands there.
pub fn marks_of(alloc: Global, code: &[u8]) -> Result<Vec<bool>, NoMemory>
    ensures { IfOk result (λ marks. AreMarks code.now marks.items) }
{
    let mut marks = Vec::from_elem(alloc, false, code.len())?;
    let mut place = 0;
    while place < code.len() {
        marks[place] = true;
        match instruction_at(code, place) {
            Ok((_, next)) => place = next,
            Err(_) => return Ok(marks),
        }
    }
    Ok(marks)
}
