// The trace program of document 01, run on the paper's input.
#![tactic(auto)]

use std::io;

fn main(rt: HostRuntime) -> io::Result<()> {
    bench::follow(&rt)
}
