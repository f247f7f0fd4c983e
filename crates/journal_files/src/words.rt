// The words that a program is run with; word 0 is the program's own name.
ghost use Rattle.std.specs.Prelude.{IfSome};
ghost use Rattle.journal_files.specs.Counts.{Counts};

use std::env::FillError;
use std::rt::Env;

fn is_there(rt: &impl Env, i: usize) -> bool {
    !matches!(rt.arg(i, &mut [0u8; 0]), Err(FillError::NotPresent))
}

pub fn count(rt: &impl Env) -> usize {
    (0..usize::MAX)
        .find(|i| !is_there(rt, *i))
        .unwrap_or(usize::MAX)
}

// Puts a word at the start of a place and gives its length; none where it is missing or longer than the place.
pub fn word(rt: &impl Env, i: usize, place: &mut [u8]) -> Option<usize>
    ensures { IfSome result (λ n. Counts n place.new) }
{
    rt.arg(i, place).ok()
}
