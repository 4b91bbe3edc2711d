//! The operator.
use crate::asker::Dice;
use crate::pace::Pace;
use crate::talk::Talk;
use crate::texts::CLIENTS;
use crate::words::Load;
use std::alloc::{AllocError, Global};
use std::io;
use std::net::TcpStream;
use std::time::{Clock, Instant};

/// What is granted at every second turn.
const MORE: &str = "list+read+watch+put";

/// What is granted at the others.
const LESS: [&str; 3] = ["list+read", "list", ""];

/// A change of a grant that the operator ordered.
#[derive(Drop)]
pub struct Order {
    /// The line of the request, with its newline.
    pub line: String,
    /// The line that answered it, byte by byte.
    pub reply: Vec<u8>,
}

/// The line of a turn, with its newline.
fn grant_line(alloc: Global, dice: &mut Dice, turn: u64) -> Result<String, AllocError> {
    let user = dice.below(CLIENTS as usize).saturating_add(1);
    let envelope = dice.below(3);
    let access = if turn % 2 == 0 {
        MORE
    } else {
        dice.pick(&LESS)
    };
    format!(in alloc;
        "{{\"op\":\"grant\",\"token\":\"op\",\"user\":\"u{user}\",\"envelope\":{envelope},\"access\":\"{access}\"}}\n"
    )
}

/// Changes a grant at each turn, until the time is over, and gives what was ordered, in order.
pub fn operate<R: Clock>(
    rt: &R,
    alloc: Global,
    stream: &TcpStream,
    start: Instant,
    load: Load,
) -> io::Result<Vec<Order>> {
    let mut talk = Talk::new(alloc, stream)?;
    let mut orders = Vec::new(alloc);
    let mut dice = Dice::new(0);
    let pace = Pace::of_operator(start, load);
    for turn in 0..u64::MAX {
        if !pace.await_turn(rt, turn)? {
            break;
        }
        let line = grant_line(alloc, &mut dice, turn)?;
        let reply = talk.ask(&line)?;
        orders.push(Order { line, reply })?;
    }
    Ok(orders)
}
