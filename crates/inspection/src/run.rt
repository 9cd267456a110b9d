use crate::line::line_text;
use crate::tally::Tally;
use std::io;
use std::io::{BufRead, BufReader};

// Says what each line of the input is, and at the end how many there were.
// Lines are parted at the newline alone, and need not be text.
pub fn inspect_all(rt: &HostRuntime) -> io::Result<()> {
    let heap = rt.alloc();
    let mut tally = Tally::new();
    for line in BufReader::new(heap, rt.stdin())?.split(heap, b'\n') {
        let line = line?;
        let text = line_text(heap, line.as_slice(), &mut tally)?;
        println!(rt; "{text}")?;
    }
    println!(rt; "{tally}")
}
