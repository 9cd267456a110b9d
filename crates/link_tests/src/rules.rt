use std::alloc::{AllocError, Global};
use std::array;

// What a link is compared with: its rule, in the plainest form, over frames of any length. It may run out of memory.
pub trait Rule {
    fn put(&mut self, to: u32, frame: &[u8]) -> Result<(), AllocError>;

    fn take(&mut self, to: u32) -> Result<Option<Vec<u8>>, AllocError>;
}

#[derive(Drop, PartialEq, Eq)]
struct Frame {
    to: u32,
    bytes: Vec<u8>,
}

// The oldest for the address is handed out and removed; when 64 wait a put is lost.
#[derive(Drop)]
pub struct Queue {
    heap: Global,
    waiting: Vec<Frame>,
}

impl Queue {
    pub fn new(heap: Global) -> Queue {
        Queue {
            heap,
            waiting: Vec::new(heap),
        }
    }
}

impl Rule for Queue {
    fn put(&mut self, to: u32, frame: &[u8]) -> Result<(), AllocError> {
        if frame.len() <= 128 && self.waiting.len() < 64 {
            let bytes = frame.to_vec(self.heap)?;
            self.waiting.push(Frame { to, bytes })?;
        }
        Ok(())
    }

    fn take(&mut self, to: u32) -> Result<Option<Vec<u8>>, AllocError> {
        let Some(i) = self.waiting.iter().position(|frame| frame.to == to) else {
            return Ok(None);
        };
        Ok(Some(self.waiting.remove(i).bytes))
    }
}

// The frame put as number n, from 0, is at place n modulo 16 until the next one there. A take tries each place once, from the one after the last that was handed out.
#[derive(Drop)]
pub struct Rotation {
    heap: Global,
    places: [Option<Frame>; 16],
    puts: usize,
    last: usize,
}

impl Rotation {
    pub fn new(heap: Global) -> Rotation {
        Rotation {
            heap,
            places: array::from_fn(|_| None),
            puts: 0,
            last: 15,
        }
    }
}

impl Rule for Rotation {
    fn put(&mut self, to: u32, frame: &[u8]) -> Result<(), AllocError> {
        if frame.len() <= 128 {
            let bytes = frame.to_vec(self.heap)?;
            self.places[self.puts % 16] = Some(Frame { to, bytes });
            self.puts = self.puts.wrapping_add(1);
        }
        Ok(())
    }

    fn take(&mut self, to: u32) -> Result<Option<Vec<u8>>, AllocError> {
        for step in 1..=16usize {
            let place = self.last.wrapping_add(step) % 16;
            if let Some(frame) = &self.places[place]
                && frame.to == to
            {
                let bytes = frame.bytes.clone()?;
                self.last = place;
                return Ok(Some(bytes));
            }
        }
        Ok(None)
    }
}

// A frame equal to one of the last 8 of all that were handed out is held back.
#[derive(Drop)]
pub struct Filter<R> {
    below: R,
    handed_out: Vec<Frame>,
}

impl<R> Filter<R> {
    pub fn new(heap: Global, below: R) -> Filter<R> {
        Filter {
            below,
            handed_out: Vec::new(heap),
        }
    }
}

impl<R: Rule> Rule for Filter<R> {
    fn put(&mut self, to: u32, frame: &[u8]) -> Result<(), AllocError> {
        self.below.put(to, frame)
    }

    fn take(&mut self, to: u32) -> Result<Option<Vec<u8>>, AllocError> {
        let Some(bytes) = self.below.take(to)? else {
            return Ok(None);
        };
        let frame = Frame { to, bytes };
        if self
            .handed_out
            .iter()
            .rev()
            .take(8)
            .any(|other| *other == frame)
        {
            return Ok(None);
        }
        let bytes = frame.bytes.clone()?;
        self.handed_out.push(frame)?;
        Ok(Some(bytes))
    }
}
