use crate::calls::take_into;
use crate::rules::Rule;
use link::Link;
use std::process::Abort;
use std::test::Fail;
use values::refusal::Refusal;

const ADDRESSES: [u32; 4] = [0, 1, 256, u32::MAX];

// Numbers that look like chance.
#[derive(Drop)]
struct Chance(u32);

impl Chance {
    // Of 16 bits, since the upper ones are the better ones.
    fn next(&mut self) -> u32 {
        self.0 = self.0.wrapping_mul(1664525).wrapping_add(1013904223);
        self.0 / 65536
    }
}

// A take from both gets the same; where the buffer is too short, the rule is not asked.
fn take_from_both<L: Link, R: Rule>(
    rt: &impl Abort,
    link: &mut L,
    rule: &mut R,
    to: u32,
    room: usize,
) -> Result<(), Fail> {
    if room < 128 {
        take_into(rt, link, to, room, Err(Refusal::ShortBuffer));
        return Ok(());
    }
    let frame = rule.take(to)?;
    take_into(rt, link, to, room, Ok(frame.as_deref()));
    Ok(())
}

// Puts and takes by chance, of ten so many puts, and at the end takes for each address in turn. The frames are of few kinds, so that equal ones meet.
pub fn run<L: Link + Drop, R: Rule + Drop>(
    rt: &impl Abort,
    mut link: L,
    mut rule: R,
    puts_of_ten: u32,
    seed: u32,
) -> Result<(), Fail> {
    let mut chance = Chance(seed);
    for _ in 0..2000u32 {
        let to = ADDRESSES[chance.next() as usize % 4];
        if chance.next() % 10 < puts_of_ten {
            let len = [0, 1, 1, 2, 64, 127, 128, 129][chance.next() as usize % 8];
            let frame = [(chance.next() % 4) as u8; 129];
            link.put(to, &frame[..len]);
            rule.put(to, &frame[..len])?;
        } else {
            let room = [0, 127, 128, 128, 129, 200, 300, 300][chance.next() as usize % 8];
            take_from_both(rt, &mut link, &mut rule, to, room)?;
        }
    }
    for i in 0..80usize {
        take_from_both(rt, &mut link, &mut rule, ADDRESSES[i % 4], 128)?;
    }
    Ok(())
}
