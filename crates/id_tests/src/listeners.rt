//! A progress and an interruption that keep the calls made to them.

ghost use Rattle.std.specs.Prelude.{⊤};

use crate::expecting::expect;
use gix_hash::io::{Interrupt, Progress};
use std::process::Abort;

/// A call of a progress.
#[derive(Clone, Copy, PartialEq)]
pub enum Call {
    Init(Option<u64>),
    IncBy(u64),
    ShowThroughput,
}

/// How many of the calls report a chunk.
pub fn chunks(calls: &[Call]) -> usize {
    let mut count = 0usize;
    for call in calls {
        if matches!(call, Call::IncBy(_)) {
            count = count.saturating_add(1);
        }
    }
    count
}

/// The first 20 calls of a progress, and how many there were.
#[derive(Drop)]
pub struct Heard {
    calls: [Call; 20],
    len: usize,
}

impl Heard {
    pub fn new() -> Self {
        Heard {
            calls: [Call::Init(None); 20],
            len: 0,
        }
    }

    fn keep(&mut self, call: Call) {
        if self.len < 20 {
            self.calls[self.len] = call;
        }
        self.len = self.len.saturating_add(1);
    }

    /// It heard exactly these calls.
    pub fn expect(&self, rt: &impl Abort, calls: &[Call]) {
        expect!(rt; &self.calls[..self.len.min(20)] == calls);
    }
}

impl Progress for Heard {
    ghost hears = { λ before call after. ⊤ };

    fn init(&mut self, max: Option<u64>) {
        self.keep(Call::Init(max));
    }

    fn inc_by(&mut self, step: u64) {
        self.keep(Call::IncBy(step));
    }

    fn show_throughput(&mut self) {
        self.keep(Call::ShowThroughput);
    }
}

/// An interruption that counts how often it was asked, and returns true at the call with the
/// number `stops_at`, counted from 1.
#[derive(Drop)]
pub struct Asked {
    pub times: usize,
    stops_at: usize,
}

impl Asked {
    pub fn stopping_at(stops_at: usize) -> Self {
        Asked { times: 0, stops_at }
    }
}

impl Interrupt for Asked {
    ghost answers = { λ before answer after. ⊤ };

    fn should_interrupt(&mut self) -> bool {
        self.times = self.times.saturating_add(1);
        self.times == self.stops_at
    }
}
