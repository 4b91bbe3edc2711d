ghost use Rattle.std.specs.Prelude.{◌≡◌, length};

use std::alloc::Global;
use std::str::SplitWhitespace;
use vp_bits::Bits;

/// What a line has: two operands of one width; a vector and the amount of a shift; two vectors to join;
/// a vector and a part of it.
#[derive(Clone, Copy)]
pub enum Kind {
    Pair,
    Shift,
    Join,
    Part,
}

/// What came of a line: its kind, how many results it wants, and how many of them the calls gave.
#[derive(Drop)]
pub struct Checked {
    pub kind: Option<Kind>,
    pub results: u64,
    pub agreeing: u64,
}

/// The sums over the lines of a kind.
#[derive(Drop)]
pub struct Tally {
    pub lines: u64,
    pub results: u64,
    pub agreeing: u64,
}

impl Tally {
    /// No lines.
    pub fn new() -> Tally {
        Tally {
            lines: 0,
            results: 0,
            agreeing: 0,
        }
    }

    /// With one more line.
    pub fn add(&mut self, checked: &Checked) {
        self.lines = self.lines.saturating_add(1);
        self.results = self.results.saturating_add(checked.results);
        self.agreeing = self.agreeing.saturating_add(checked.agreeing);
    }
}

/// Reads a line, calls what its kind says, and compares the results with those that stand in it. A line
/// that is not read counts as one result that is not as wanted, and a line of no kind, as a comment, as
/// nothing.
pub fn check_line(alloc: Global, line: &str) -> Checked {
    let mut fields = line.split_whitespace();
    let kind = match fields.next() {
        Some("pair") => Some(Kind::Pair),
        Some("shift") => Some(Kind::Shift),
        Some("join") => Some(Kind::Join),
        Some("part") => Some(Kind::Part),
        _ => None,
    };
    let counted = match kind {
        Some(Kind::Pair) => check_pair(alloc, &mut fields),
        Some(Kind::Shift) => check_shift(alloc, &mut fields),
        Some(Kind::Join) => check_join(alloc, &mut fields),
        Some(Kind::Part) => check_part(alloc, &mut fields),
        None => Some((0, 0)),
    };
    let (results, agreeing) = counted.unwrap_or((1, 0));
    Checked {
        kind,
        results,
        agreeing,
    }
}

fn next_vector(fields: &mut SplitWhitespace) -> Option<Bits> {
    Bits::from_bin(fields.next()?.as_bytes()).ok()
}

fn next_number(fields: &mut SplitWhitespace) -> Option<u8> {
    fields.next()?.parse().ok()
}

// Compares the results with the fields that are left, a field each; a star after the digits says
// nothing here. How many there are, and how many are alike.
fn compare(alloc: Global, fields: &mut SplitWhitespace, results: &[Bits]) -> Option<(u64, u64)> {
    let mut agreeing = 0u64;
    for result in results {
        let digits = result.to_bin(alloc).ok()?;
        let wanted = fields.next()?;
        if digits.as_str() == wanted.strip_suffix('*').unwrap_or(wanted) {
            agreeing = agreeing.saturating_add(1);
        }
    }
    match fields.next() {
        Some(_) => None,
        None => Some((results.len() as u64, agreeing)),
    }
}

fn check_pair(alloc: Global, fields: &mut SplitWhitespace) -> Option<(u64, u64)> {
    let left = next_vector(fields)?;
    let right = next_vector(fields)?;
    if left.width() != right.width() {
        return None;
    }
    compare(alloc, fields, &of_pair(left, right))
}

// What the calls on two operands of one width, and on the first alone, give.
fn of_pair(left: Bits, right: Bits) -> [Bits; 14]
    requires { length left ≡ length right }
{
    [
        left.and(right),
        left.or(right),
        left.xor(right),
        left.not(),
        left.add(right),
        left.sub(right),
        left.mul(right),
        left.eq(right),
        left.case_eq(right),
        left.lt(right),
        left.merge(right),
        left.reduce_and(),
        left.reduce_or(),
        left.reduce_xor(),
    ]
}

fn check_shift(alloc: Global, fields: &mut SplitWhitespace) -> Option<(u64, u64)> {
    let vector = next_vector(fields)?;
    let amount = next_vector(fields)?;
    compare(alloc, fields, &[vector.shl(amount), vector.shr(amount)])
}

fn check_join(alloc: Global, fields: &mut SplitWhitespace) -> Option<(u64, u64)> {
    let high = next_vector(fields)?;
    let low = next_vector(fields)?;
    let count = next_number(fields)?;
    if high.width() + low.width() > 64 || count < 1 || count > 64 / high.width() {
        return None;
    }
    compare(alloc, fields, &[high.concat(low), high.replicate(count)])
}

fn check_part(alloc: Global, fields: &mut SplitWhitespace) -> Option<(u64, u64)> {
    let vector = next_vector(fields)?;
    let low = next_number(fields)?;
    let width = next_number(fields)?;
    let part = next_vector(fields)?;
    let size = next_number(fields)?;
    let all = vector.width();
    if low > all || width < 1 || width > all - low || part.width() > all - low {
        return None;
    }
    if size < 1 || size > 64 {
        return None;
    }
    let selected = vector.select(low, width);
    let changed = vector.with_select(low, part);
    compare(alloc, fields, &[selected, changed, vector.resize(size)])
}
