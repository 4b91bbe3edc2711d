//! What a client asks.
ghost use Rattle.std.specs.Prelude.{◌<◌, length};

use std::alloc::{AllocError, Global};

/// The names of which a client asks handles: of objects in the open text and in both envelopes, of a module, and of nothing.
const NAMES: [&str; 11] = [
    "top.a", "top.b", "top.r", "top.q", "top.u.k", "top.u.s", "top.v.m", "top.v.n", "top.v.y",
    "top.u", "top.w",
];

/// The values that a client puts, of which the last has too few digits for each reg.
const VALUES: [&str; 8] = ["0000", "0101", "1111", "0011", "1000", "1x0z", "zzzz", "10"];

/// So many callbacks a client has at most.
const CALLBACK_LIMIT: u64 = 2;

/// A sequence of numbers that looks random, by a linear congruential generator.
#[derive(Drop)]
pub struct Dice {
    state: u64,
}

impl Dice {
    /// The sequence of a number.
    pub fn new(number: u64) -> Dice {
        Dice { state: number }
    }

    /// The next number, below another.
    pub fn below(&mut self, count: usize) -> usize
        requires { 0 < count }
        ensures { result < count }
    {
        self.state = self
            .state
            .wrapping_mul(6_364_136_223_846_793_005)
            .wrapping_add(1_442_695_040_888_963_407);
        (self.state >> 33) as usize % count
    }

    /// One of these texts.
    pub fn pick<'a>(&mut self, texts: &[&'a str]) -> &'a str
        requires { 0 < length texts.now }
    {
        texts[self.below(texts.len())]
    }
}

/// A client's order of requests.
#[derive(Drop)]
pub struct Asker {
    dice: Dice,
    /// So many handles it was given.
    handles: usize,
    /// So many callbacks it was given.
    callbacks: u64,
    /// So many of these it asked to be removed, the oldest first.
    removed: u64,
}

impl Asker {
    /// The order of the client of a number.
    pub fn new(number: u64) -> Asker {
        Asker {
            dice: Dice::new(number),
            handles: 0,
            callbacks: 0,
            removed: 0,
        }
    }

    /// The line of a turn, with its newline: first of a handle, then of a put, and then of whatever.
    pub fn line(&mut self, alloc: Global, turn: u64) -> Result<String, AllocError> {
        match turn {
            0 => return self.handle_line(alloc, &["top.a", "top.b"]),
            1 => return self.put_line(alloc),
            _ => {}
        }
        match self.dice.below(6) {
            0 => self.handle_line(alloc, &NAMES),
            1 => self.value_line(alloc),
            2 => self.put_line(alloc),
            3 => self.watch_line(alloc),
            4 => String::from_str(alloc, "{\"op\":\"poll\"}\n"),
            _ => String::from_str(alloc, "{\"op\":\"time\"}\n"),
        }
    }

    /// A request of a handle of one of these names.
    fn handle_line(&mut self, alloc: Global, names: &[&str]) -> Result<String, AllocError>
        requires { 0 < length names.now }
    {
        let name = self.dice.pick(names);
        format!(in alloc; "{{\"op\":\"handle\",\"name\":\"{name}\"}}\n")
    }

    /// One of the handles that the client has, or the first that it may have.
    fn handle(&mut self) -> usize {
        self.dice.below(self.handles.max(1)).saturating_add(1)
    }

    /// A request of a value.
    fn value_line(&mut self, alloc: Global) -> Result<String, AllocError> {
        let handle = self.handle();
        let format = self.dice.pick(&["bin", "vec"]);
        format!(in alloc; "{{\"op\":\"value\",\"h\":{handle},\"format\":\"{format}\"}}\n")
    }

    /// A request to give an object a value.
    fn put_line(&mut self, alloc: Global) -> Result<String, AllocError> {
        let handle = self.handle();
        let value = self.dice.pick(&VALUES);
        format!(in alloc; "{{\"op\":\"put\",\"h\":{handle},\"value\":\"{value}\"}}\n")
    }

    /// A request to be notified of an object's changes; where the client has as many callbacks as it may, one to remove the oldest.
    fn watch_line(&mut self, alloc: Global) -> Result<String, AllocError> {
        if self.callbacks.saturating_sub(self.removed) >= CALLBACK_LIMIT {
            self.removed = self.removed.saturating_add(1);
            let callback = self.removed;
            return format!(in alloc; "{{\"op\":\"unwatch\",\"cb\":{callback}}}\n");
        }
        let handle = self.handle();
        format!(in alloc; "{{\"op\":\"watch\",\"h\":{handle}}}\n")
    }

    /// Notes the handle or the callback that a reply gives.
    pub fn hear(&mut self, reply: &[u8]) {
        if reply.starts_with(b"{\"h\":") {
            self.handles = self.handles.saturating_add(1);
        } else if reply.starts_with(b"{\"cb\":") {
            self.callbacks = self.callbacks.saturating_add(1);
        }
    }
}
