// Says of each line of the standard input which frame it is, or why it is none.
#![tactic(auto)]

use inspection::run::inspect_all;
use std::io;

fn main(rt: HostRuntime) -> io::Result<()> {
    inspect_all(&rt)
}
