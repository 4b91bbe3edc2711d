use vp_race::OpenGate;

/// What happened on a connection, as whoever runs a server may log it. No token is ever in it.
#[derive(Clone, Copy)]
pub enum ServerEvent<'a> {
    /// A session was opened, by the user of a name.
    Open { user: &'a str },
    /// The connection of a user has ended, on which so many of his requests were denied.
    Close { user: &'a str, denials: u64 },
    /// A token was wrong: a user's or the operator's.
    WrongToken,
    /// The operator changed a user's grant for an envelope.
    Grant { user: &'a str, envelope: u32 },
    /// The operator ended a user's sessions.
    End { user: &'a str },
    /// The operator let the design stand still.
    Halt,
    /// The operator ends the server.
    Shutdown,
}

/// Is told what whoever runs a server should know.
pub trait Report {
    /// A process goes round in a time slot that has as many steps as it takes. Its name is as in the steps of a race.
    fn goes_round(&self, process: &str);

    /// Something happened on a connection from an address.
    fn happened(&self, address: &str, event: ServerEvent<'_>);

    /// The server is to end: it is to be connected to, so that it waits for no connection any more.
    fn wake(&self);
}

/// It says nothing to anybody, and wakes nobody.
impl Report for OpenGate {
    fn goes_round(&self, _process: &str) {}

    fn happened(&self, _address: &str, _event: ServerEvent<'_>) {}

    fn wake(&self) {}
}
