// Calls of files, each with the answer that it should give.

use crate::files::Files;
use crate::refused::Refused;

// A call and its answer.
#[derive(Clone, Copy)]
pub(crate) enum Step<'a> {
    Begin(&'a str, Result<(), Refused>),
    // The room of the buffer, 1 to 4, and the bytes given.
    Next(usize, Result<&'a [u8], Refused>),
    Create(&'a str, Result<(), Refused>),
    // A piece of 1 to 4 bytes, and how many of them are taken.
    Append(&'a [u8], Result<usize, Refused>),
}

// The place of the first step with another answer, if there is one.
pub(crate) fn first_wrong<F: Files>(files: &mut F, steps: &[Step]) -> Option<usize> {
    for (place, step) in steps.iter().enumerate() {
        if !is_answered(files, step) {
            return Some(place);
        }
    }
    None
}

// Makes the call, and says whether its answer is the step's.
fn is_answered<F: Files>(files: &mut F, step: &Step) -> bool {
    match step {
        Step::Begin(name, answer) => files.begin(name) == *answer,
        Step::Next(room, answer) => gives(files, *room, *answer),
        Step::Create(name, answer) => files.create(name) == *answer,
        Step::Append(piece, answer) => takes(files, piece, *answer),
    }
}

fn gives<F: Files>(files: &mut F, room: usize, answer: Result<&[u8], Refused>) -> bool {
    let mut buf = [0; 4];
    if room == 0 || room > buf.len() {
        return false;
    }
    match (files.next(&mut buf[..room]), answer) {
        (Ok(count), Ok(bytes)) => buf.get(..count) == Some(bytes),
        (Err(refused), Err(error)) => refused == error,
        _ => false,
    }
}

fn takes<F: Files>(files: &mut F, piece: &[u8], answer: Result<usize, Refused>) -> bool {
    if piece.is_empty() || piece.len() > 4 {
        return false;
    }
    files.append(piece) == answer
}
