// Where branches lead.

ghost use Rattle.std.specs.List.Sorted.{IsNonDecreasingBy};
ghost use Rattle.std.specs.Prelude.{◌≡◌, IfOk, pos};
ghost use Rattle.avm2_code.specs.declared.body.PlacedInstruction.{PlacedInstruction};
ghost use Rattle.avm2_program.specs.Decoding.{number_at, target};

use avm2_code::PlacedInstruction;
use flex_base::NoMemory;

// The number of the instruction where a branch leads, whose offset counts from the place behind it;
// where none stands there, that of all.
pub fn target(code: &[PlacedInstruction], next: usize, offset: i32) -> Result<u32, NoMemory>
    requires { IsNonDecreasingBy (λ (d : PlacedInstruction). d.place) code.now }
    ensures { IfOk result (λ number. number ≡ target code.now next offset) }
{
    let number = number_led_to(code, next, offset);
    u32::try_from(number).map_err(|_| NoMemory)
}

// The same as an index.
fn number_led_to(code: &[PlacedInstruction], next: usize, offset: i32) -> usize
    requires { IsNonDecreasingBy (λ (d : PlacedInstruction). d.place) code.now }
    ensures { result ≡ target code.now next offset }
{
    match u128::try_from(next as i128 + offset as i128) {
        Ok(place) => number_at(code, place),
        Err(_) => code.len(),
    }
}

// The number of the instruction that stands at a place; of no instruction it is the number of all.
fn number_at(code: &[PlacedInstruction], place: u128) -> usize
    requires { IsNonDecreasingBy (λ (d : PlacedInstruction). d.place) code.now }
    ensures { result ≡ number_at (pos place) code.now }
{
    let number = code.partition_point(|d| (d.place as u128) < place);
    match code.get(number) {
        Some(d) if d.place as u128 == place => number,
        _ => code.len(),
    }
}
