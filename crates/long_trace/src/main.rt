// The trace program, run on a long input whose output the reference sensor gave.
#![tactic(auto)]

use std::io;

fn main(rt: HostRuntime) -> io::Result<()> {
    bench::follow(&rt)
}
