// Runs `inspect` over test vectors that were worked out from the format and not with the reader: another program, as its input is another.
#![tactic(auto)]

use inspection::run::inspect_all;
use std::io;

fn main(rt: HostRuntime) -> io::Result<()> {
    inspect_all(&rt)
}
