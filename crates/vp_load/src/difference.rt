use crate::kinds::Kind;
use std::alloc::AllocError;
use std::io;
use thiserror::Error;
use vp_hub::ServerError;
use vp_wire::WireError;

/// What first differs, or why nothing was compared. Places in the log count from 0, users and orders from 1.
#[derive(Debug, Drop, Error)]
pub enum Difference {
    /// There is no world of the program's texts.
    #[error("there is no world of the texts")]
    NoWorld,
    /// Nothing can listen on the port, as where another program does.
    #[error("the port can't be listened on")]
    NoListener,
    #[error("the server: {0}")]
    Server(#[from] ServerError),
    #[error("a client, or standard error: {0}")]
    Input(#[from] io::Error),
    #[error("no memory")]
    NoMemory(#[from(alloc)] AllocError),
    #[error("the line of a reply: {0}")]
    Line(#[from] WireError),
    /// A fresh world refuses the event of the entry.
    #[error("entry {index}: a fresh world refuses it by {code}")]
    Refusal { index: usize, code: u32 },
    #[error("entry {index}: a fresh world answers it otherwise")]
    Reply { index: usize },
    #[error("entry {index}: a fresh world books another race")]
    Race { index: usize },
    #[error("entry {index}: the time or the finish behind it is another in a fresh world")]
    Time { index: usize },
    #[error("entry {index}: its session is of no client")]
    Stranger { index: usize },
    /// The reply of the entry is not what its user was shown next.
    #[error("entry {index}: user {number} was told otherwise")]
    Transcript { index: usize, number: usize },
    #[error("user {number} was told more than the log has")]
    Excess { number: usize },
    #[error("order {number} is no change of a grant")]
    NoOrder { number: usize },
    #[error("entry {index}: the operator did not order this next, or was not told that it is done")]
    Grant { index: usize },
    #[error("the log lacks order {number}, of which the operator was told that it is done")]
    LostOrder { number: usize },
    #[error("the log has nothing of the kind {0}")]
    NoneOf(Kind),
    /// What was changed in a trial.
    #[error("the comparison does not find that this is changed: {0}")]
    Missed(&'static str),
}
