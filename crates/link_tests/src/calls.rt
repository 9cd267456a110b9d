use link::Link;
use std::process::Abort;
use values::refusal::Refusal;

// What a buffer holds before a take, so that a byte that is written shows.
const MARK: u8 = 0xA5;

// A take into a buffer of so many bytes gets the wanted answer. The frame is at its front; no other byte is written, none at all for a refusal or for nothing.
pub fn take_into<L: Link>(
    rt: &impl Abort,
    link: &mut L,
    to: u32,
    room: usize,
    want: Result<Option<&[u8]>, Refusal>,
) {
    let mut memory = [MARK; 300];
    assert!(rt; room <= memory.len());
    let answer = link.take(to, &mut memory[..room]);
    assert_eq!(rt;
        answer,
        want.map(|frame| frame.map(|bytes| bytes.len())),
        "for {to}"
    );
    let bytes = want.ok().flatten().unwrap_or_default();
    assert!(rt; bytes.len() <= room);
    let (front, rest) = memory.split_at(bytes.len());
    assert_eq!(rt; front, bytes, "for {to}");
    assert!(rt; rest.iter().all(|byte| *byte == MARK));
}

// Takes for the address hand out these frames of one byte, in this order.
pub fn takes<L: Link>(rt: &impl Abort, link: &mut L, to: u32, frames: &[u8]) {
    for byte in frames {
        take_into(rt, link, to, 200, Ok(Some(&[*byte])));
    }
}

// Nothing is handed out for the address.
pub fn takes_nothing<L: Link>(rt: &impl Abort, link: &mut L, to: u32) {
    take_into(rt, link, to, 200, Ok(None));
}

// Puts frames of one byte, in this order.
pub fn puts<L: Link>(link: &mut L, to: u32, frames: &[u8]) {
    for byte in frames {
        link.put(to, &[*byte]);
    }
}
