// Random numbers: item `item` of a trial, the same in every run.
ghost use Rattle.std.specs.Prelude.{◌≤◌};

use crate::calls::{CALLS, Call};
use crate::whole::power;
use std::alloc::{AllocError, Global};

pub const SEED: usize = 20261115;

// A product of 64 bits, its two halves laid over each other.
fn stir(x: usize) -> usize {
    let y = (x % 4294967296) * 2654435769;
    (y / 4294967296) ^ (y % 4294967296)
}

#[derive(Clone, Copy)]
pub struct Trial(pub usize);

impl Trial {
    // The calls take turns.
    pub(crate) fn call(self) -> Call {
        CALLS[self.0 % CALLS.len()]
    }

    // A number below n; 0 where n is 0.
    pub(crate) fn pick(self, item: usize, n: usize) -> usize
        ensures { result ≤ n }
    {
        let start = stir(stir(SEED.saturating_add(self.0)).saturating_add(1));
        let own = stir(start.saturating_add(item)).saturating_add(1);
        let x = stir(stir(own)) / 16;
        if n == 0 { 0 } else { x % n }
    }

    // Yes once in n times.
    pub(crate) fn once_in(self, item: usize, n: usize) -> bool {
        self.pick(item, n) == 0
    }

    // A number that is likely to be a fault where `good` is none: a neighbour, 0, the largest, a power of 2, a small one.
    pub(crate) fn edge(self, item: usize, good: usize) -> usize {
        let v = self.pick(item.saturating_add(1), 64);
        match self.pick(item, 8) {
            0 => 0,
            1 => usize::MAX - v,
            2 => good.saturating_add(1),
            3 => good.saturating_sub(1),
            4 => power(2, v),
            5 => 64 + v,
            _ => v / 6,
        }
    }

    // Number i of a call, or once in 30 times a likely fault in its place. A picture's numbers are 0 to 21, and a strip's 11 to 21, each in
    // the order of its fields.
    pub(crate) fn spoilt(self, i: usize, good: usize) -> usize {
        if self.once_in(i.saturating_add(700), 30) {
            self.edge(i.saturating_mul(2).saturating_add(740), good)
        } else {
            good
        }
    }

    // How long a buffer is of which `need` bytes are used: exact, or one byte or more too short or longer than that.
    pub(crate) fn room(self, item: usize, need: usize) -> usize {
        let v = self.pick(item.saturating_add(1), 20);
        match self.pick(item, 8) {
            0 => need.saturating_sub(1),
            1 => need.saturating_sub(v),
            2 => need.saturating_add(1),
            3 => need.saturating_add(v),
            _ => need,
        }
    }

    // A byte; half of them at an edge of the bytes or in their middle.
    fn byte(self, item: usize) -> u8 {
        let v = self.pick(item, 512);
        match v / 32 {
            8 | 9 => 0,
            10 => 1,
            11 => 127,
            12 => 128,
            13 => 254,
            14 | 15 => 255,
            _ => (v % 256) as u8,
        }
    }

    // A byte of any value once in `rare` times, else 0 or `top`.
    fn level(self, item: usize, rare: usize, top: u8) -> u8 {
        if self.once_in(item.saturating_add(5000), rare) {
            self.byte(item)
        } else if self.once_in(item, 2) {
            0
        } else {
            top
        }
    }

    // So many such bytes, from item `item` on.
    pub(crate) fn bytes(
        self,
        alloc: Global,
        count: usize,
        item: usize,
        rare: usize,
        top: u8,
    ) -> Result<Vec<u8>, AllocError> {
        (0..count)
            .map(|i| self.level(item.saturating_add(i), rare, top))
            .collect(alloc)
    }
}
