use crate::calls::{puts, take_into, takes, takes_nothing};
use crate::rules::{Filter, Queue, Rotation};
use crate::runs::run;
use duplicate_filter::filter::DuplicateFilter;
use fifo::queue::Fifo;
use link::Link;
use round_robin::rotation::RoundRobin;
use std::alloc::Global;
use std::array;
use std::process::Abort;
use std::test::Fail;
use values::refusal::Refusal;

#[test]
fn fifo_hands_out_the_oldest_for_the_address_once(rt: HostRuntime) -> Result<(), Fail> {
    let mut link = Fifo::new(rt.alloc())?;
    puts(&mut link, 1, b"a");
    puts(&mut link, 2, b"bc");
    puts(&mut link, 1, b"d");
    puts(&mut link, 3, b"e");
    puts(&mut link, 2, b"f");
    puts(&mut link, 1, b"a");
    takes(&rt, &mut link, 2, b"b");
    takes(&rt, &mut link, 1, b"ad");
    takes_nothing(&rt, &mut link, 4);
    takes(&rt, &mut link, 3, b"e");
    takes_nothing(&rt, &mut link, 3);
    takes(&rt, &mut link, 2, b"cf");
    takes_nothing(&rt, &mut link, 2);
    takes(&rt, &mut link, 1, b"a");
    takes_nothing(&rt, &mut link, 1);
    Ok(())
}

#[test]
fn fifo_loses_the_65th_until_a_place_is_free(rt: HostRuntime) -> Result<(), Fail> {
    let mut link = Fifo::new(rt.alloc())?;
    let frames: [u8; 70] = array::from_fn(|i| i as u8);
    puts(&mut link, 9, &frames);
    puts(&mut link, 8, b"x");
    takes_nothing(&rt, &mut link, 8);
    takes(&rt, &mut link, 9, &frames[..2]);
    puts(&mut link, 8, b"xyz");
    takes(&rt, &mut link, 9, &frames[2..64]);
    takes_nothing(&rt, &mut link, 9);
    takes(&rt, &mut link, 8, b"xy");
    takes_nothing(&rt, &mut link, 8);
    Ok(())
}

#[test]
fn round_goes_on_after_the_last_one_handed_out(rt: HostRuntime) -> Result<(), Fail> {
    let mut link = RoundRobin::new(rt.alloc())?;
    takes_nothing(&rt, &mut link, 1);
    puts(&mut link, 1, b"a");
    takes(&rt, &mut link, 1, b"aaa");
    puts(&mut link, 2, b"b");
    puts(&mut link, 1, b"c");
    puts(&mut link, 2, b"d");
    puts(&mut link, 3, b"e");
    // The places have a b c d e. There is one round for all addresses.
    takes(&rt, &mut link, 1, b"cac");
    takes(&rt, &mut link, 2, b"dbd");
    takes_nothing(&rt, &mut link, 4);
    takes(&rt, &mut link, 3, b"ee");
    takes(&rt, &mut link, 2, b"b");
    takes(&rt, &mut link, 1, b"c");
    takes(&rt, &mut link, 3, b"e");
    takes(&rt, &mut link, 1, b"a");
    Ok(())
}

#[test]
fn round_robin_replaces_the_oldest_in_its_place(rt: HostRuntime) -> Result<(), Fail> {
    let mut link = RoundRobin::new(rt.alloc())?;
    puts(&mut link, 1, b"abcdefghijklmnop");
    takes(&rt, &mut link, 1, b"abcdefghijklmnopabc");
    // The place of d is the next one all along.
    puts(&mut link, 1, b"q");
    takes(&rt, &mut link, 1, b"defghijklmnopqbc");
    puts(&mut link, 1, b"rst");
    takes(&rt, &mut link, 1, b"tefghijklmnopqrst");
    // The place of e is the next one, and gets a frame for another address.
    puts(&mut link, 2, b"u");
    takes(&rt, &mut link, 1, b"f");
    takes(&rt, &mut link, 2, b"uu");
    takes(&rt, &mut link, 1, b"fghijklmnopqrstf");
    Ok(())
}

#[test]
fn round_robin_keeps_the_last_16_of_many(rt: HostRuntime) -> Result<(), Fail> {
    let mut link = RoundRobin::new(rt.alloc())?;
    // 243 is 15 times 16, and 3: the last three went to the places 0, 1 and 2.
    let frames: [u8; 243] = array::from_fn(|i| i as u8);
    puts(&mut link, 1, &frames);
    takes(&rt, &mut link, 1, &frames[240..]);
    takes(&rt, &mut link, 1, &frames[227..]);
    takes(&rt, &mut link, 1, &frames[227..]);
    Ok(())
}

// Over a link that hands out each frame once, the oldest first.
fn holds_back_the_last_eight<L: Link + Drop>(rt: &impl Abort, mut link: L) {
    puts(&mut link, 1, b"abcdefghai");
    takes(rt, &mut link, 1, b"abcdefgh");
    takes_nothing(rt, &mut link, 1);
    takes(rt, &mut link, 1, b"i");
    // The a that was held back is gone: else it would be handed out here, as the ninth-last.
    takes_nothing(rt, &mut link, 1);
    puts(&mut link, 1, b"abdc");
    takes(rt, &mut link, 1, b"ab");
    // Now d is the eighth-last, and c the ninth-last.
    takes_nothing(rt, &mut link, 1);
    takes(rt, &mut link, 1, b"c");
    takes_nothing(rt, &mut link, 1);
}

#[test]
fn filter_over_fifo_holds_back_the_last_eight(rt: HostRuntime) -> Result<(), Fail> {
    let heap = rt.alloc();
    let filter = DuplicateFilter::new(heap, Fifo::new(heap)?)?;
    holds_back_the_last_eight(&rt, filter);
    let filter = DuplicateFilter::new(heap, Fifo::new(heap)?)?;
    holds_back_the_last_eight(&rt, DuplicateFilter::new(heap, filter)?);
    Ok(())
}

#[test]
fn filter_over_round_robin_holds_back_the_last_eight(rt: HostRuntime) -> Result<(), Fail> {
    let heap = rt.alloc();
    let mut link = DuplicateFilter::new(heap, RoundRobin::new(heap)?)?;
    puts(&mut link, 1, b"abcdefgh");
    takes(&rt, &mut link, 1, b"abcdefgh");
    takes_nothing(&rt, &mut link, 1);
    takes_nothing(&rt, &mut link, 1);
    // The round is at c and meets six more that are held back. Of nine each is the ninth-last when its turn comes.
    puts(&mut link, 1, b"i");
    for _ in 0..6u8 {
        takes_nothing(&rt, &mut link, 1);
    }
    takes(&rt, &mut link, 1, b"iabcdefghia");
    Ok(())
}

// Equal are only frames with the same address and the same bytes.
fn tells_frames_apart<L: Link>(rt: &impl Abort, link: &mut L) {
    puts(link, 1, b"a");
    puts(link, 2, b"a");
    link.put(1, b"aa");
    link.put(1, b"ab");
    link.put(1, &[]);
    puts(link, 1, &[0]);
    link.put(1, &[0, 0]);
    takes(rt, link, 1, b"a");
    takes(rt, link, 2, b"a");
    take_into(rt, link, 1, 128, Ok(Some(b"aa")));
    take_into(rt, link, 1, 128, Ok(Some(b"ab")));
    take_into(rt, link, 1, 128, Ok(Some(&[])));
    takes(rt, link, 1, &[0]);
    take_into(rt, link, 1, 128, Ok(Some(&[0, 0])));
}

// Frames up to the longest come through whole, into a buffer that just has room and into a longer one.
fn carries_up_to_128_bytes<L: Link>(rt: &impl Abort, link: &mut L) {
    let bytes: [u8; 129] = array::from_fn(|i| i as u8);
    for (to, room, len) in [
        (10, 128, 0),
        (11, 128, 1),
        (12, 128, 127),
        (13, 128, 128),
        (14, 300, 0),
        (15, 300, 1),
        (16, 300, 127),
        (17, 300, 128),
    ] {
        puts(link, to, b"p");
        link.put(to, &bytes);
        link.put(to, &bytes[..len]);
        takes(rt, link, to, b"p");
        take_into(rt, link, to, room, Ok(Some(&bytes[..len])));
    }
    link.put(18, &bytes);
    takes_nothing(rt, link, 18);
}

// A refused take leaves the link: what waits is handed out as if it had not been.
fn refuses_short_buffers<L: Link>(rt: &impl Abort, link: &mut L) {
    puts(link, 20, b"rs");
    for frame in [b"r", b"s"] {
        for room in [0, 127] {
            take_into(rt, link, 20, room, Err(Refusal::ShortBuffer));
            take_into(rt, link, 21, room, Err(Refusal::ShortBuffer));
        }
        takes(rt, link, 20, frame);
    }
}

#[test]
fn short_buffer_is_number_19(rt: HostRuntime) {
    assert_eq!(rt; Refusal::ShortBuffer.number(), 19);
    assert_eq!(rt; Refusal::ShortBuffer.value(), None);
}

// What links of all three kinds do alike.
fn common_rules<L: Link + Drop>(rt: &impl Abort, mut link: L) {
    tells_frames_apart(rt, &mut link);
    carries_up_to_128_bytes(rt, &mut link);
    refuses_short_buffers(rt, &mut link);
}

#[test]
fn every_link_keeps_the_common_rules(rt: HostRuntime) -> Result<(), Fail> {
    let heap = rt.alloc();
    common_rules(&rt, Fifo::new(heap)?);
    common_rules(&rt, RoundRobin::new(heap)?);
    common_rules(&rt, DuplicateFilter::new(heap, Fifo::new(heap)?)?);
    common_rules(&rt, DuplicateFilter::new(heap, RoundRobin::new(heap)?)?);
    Ok(())
}

// The run on a link of each kind.
fn all_run(rt: &impl Abort, heap: Global, puts_of_ten: u32, seed: u32) -> Result<(), Fail> {
    run(rt, Fifo::new(heap)?, Queue::new(heap), puts_of_ten, seed)?;
    run(
        rt,
        RoundRobin::new(heap)?,
        Rotation::new(heap),
        puts_of_ten,
        seed,
    )?;
    let filter = DuplicateFilter::new(heap, Fifo::new(heap)?)?;
    let rule = Filter::new(heap, Queue::new(heap));
    run(rt, filter, rule, puts_of_ten, seed)?;
    let filter = DuplicateFilter::new(heap, RoundRobin::new(heap)?)?;
    let rule = Filter::new(heap, Rotation::new(heap));
    run(rt, filter, rule, puts_of_ten, seed)
}

#[test]
fn long_runs_follow_the_rules(rt: HostRuntime) -> Result<(), Fail> {
    for (puts_of_ten, seed) in [(2, 1), (5, 2), (6, 3), (9, u32::MAX)] {
        all_run(&rt, rt.alloc(), puts_of_ten, seed)?;
    }
    Ok(())
}
