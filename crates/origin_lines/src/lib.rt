// The origin of a value as one line: `-1235 block 12 channel 1 save`, `0 factory`, or `R 1`, `R 6`.
#![tactic(auto)]

use rules::origins::{Brought, NoOrigin};
use std::io;

pub fn print_origin(rt: &impl Print, origin: Result<Brought, NoOrigin>) -> io::Result<()> {
    match origin {
        Ok(brought) => println!(rt; "{brought}"),
        Err(refusal) => println!(rt; "{refusal}"),
    }
}
