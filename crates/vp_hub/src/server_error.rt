ghost use Rattle.std.specs.Prelude.{◌≡◌};
ghost use Rattle.vp_hub.specs.ServerFaults.{words_of_hub};
ghost use Rattle.vp_hub.specs.declared.server_error.ServerError.TheVariants as fault;

use crate::error::HubError;
use thiserror::Error;

/// Why a server has ended without success.
#[derive(Clone, Copy, Debug, PartialEq, Eq, Error)]
pub enum ServerError {
    /// A port that can't be listened on (1605).
    #[error("the port can't be listened on")]
    ListenFailed,
    /// The thread of the simulation or a worker's can't be started (1606).
    #[error("no thread can be started")]
    NoThread,
    /// The hub can't be closed (1401 to 1403).
    #[error("the hub can't be closed: {0}")]
    Hub(HubError),
}

/// The words of a hub that can't be closed.
fn words_of_hub(error: HubError) -> &'static str
    ensures { result.now ≡ words_of_hub error }
{
    match error {
        HubError::Receipt => "a reply is not at its place in the log",
        HubError::Mismatch => "the log has more requests than were answered",
        HubError::World(_) => "no memory to compare what was answered with the log",
    }
}

impl ServerError {
    ghost use Rattle.vp_hub.specs.ServerFaults.{code_of, words_of};

    /// The number of the fault.
    pub fn code(&self) -> u32
        ensures { result ≡ code_of self.now }
    {
        match self {
            ServerError::ListenFailed => 1605,
            ServerError::NoThread => 1606,
            ServerError::Hub(error) => error.code(),
        }
    }

    /// What the program says of it.
    pub fn words(&self) -> &'static str
        ensures { result.now ≡ words_of self.now }
    {
        match self {
            ServerError::ListenFailed => "the port can't be listened on",
            ServerError::NoThread => "no thread can be started",
            ServerError::Hub(error) => words_of_hub(*error),
        }
    }
}

impl From<HubError> for ServerError {
    ghost from_gives = { λ error e. e ≡ fault.Hub error };

    fn from(error: HubError) -> ServerError {
        ServerError::Hub(error)
    }
}
