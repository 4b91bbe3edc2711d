ghost use Rattle.std.specs.Prelude.{◌≡◌, IfOk};

use crate::query::Query;
use std::alloc::{AllocError, Global};
use vp_text::Text;
use vp_vpi::{Access, UserId};

/// A session: its user, and the how-many-th of his it is, from 1.
#[derive(Clone, Copy, Debug, PartialEq, Eq, Hash)]
pub struct SessionId {
    pub user: UserId,
    pub opens: u64,
}

impl SessionId {
    ghost use Rattle.vp_answer.specs.OpenSessions.{same_session};

    /// It is the same session.
    pub fn is_same(self, other: SessionId) -> bool
        ensures { result ≡ same_session self other }
    {
        self.user.0 == other.user.0 && self.opens == other.opens
    }
}

/// What an operator orders: a user's grant for an envelope is to be exactly this (docs/POLICY.md, "Grants that change").
#[derive(Drop)]
pub struct GrantChange {
    /// The operator's token.
    pub token: Text,
    /// The user's name.
    pub user: Text,
    /// The number of the envelope; 0 is the open text.
    pub envelope: u32,
    /// The grant, be it empty.
    pub access: Access,
}

impl GrantChange {
    /// The same change once more. Takes memory.
    pub fn try_clone(&self, alloc: Global) -> Result<GrantChange, AllocError>
        ensures { IfOk result (λ change. change ≡ self.now) }
    {
        Ok(GrantChange {
            token: Text::copy(alloc, self.token.as_str())?,
            user: Text::copy(alloc, self.user.as_str())?,
            envelope: self.envelope,
            access: self.access.copy(),
        })
    }
}

/// What an operator orders: the open sessions of a user end.
#[derive(Drop)]
pub struct EndOrder {
    /// The operator's token.
    pub token: Text,
    /// The user's name.
    pub user: Text,
}

impl EndOrder {
    /// The same order once more. Takes memory.
    pub fn try_clone(&self, alloc: Global) -> Result<EndOrder, AllocError>
        ensures { IfOk result (λ order. order ≡ self.now) }
    {
        Ok(EndOrder {
            token: Text::copy(alloc, self.token.as_str())?,
            user: Text::copy(alloc, self.user.as_str())?,
        })
    }
}

/// What an operator orders: the design stands still, until somebody asks for a run again.
#[derive(Drop)]
pub struct HaltOrder {
    /// The operator's token.
    pub token: Text,
}

impl HaltOrder {
    /// The same order once more. Takes memory.
    pub fn try_clone(&self, alloc: Global) -> Result<HaltOrder, AllocError>
        ensures { IfOk result (λ order. order ≡ self.now) }
    {
        Ok(HaltOrder {
            token: Text::copy(alloc, self.token.as_str())?,
        })
    }
}

/// What the holder of a session asks.
#[derive(Drop)]
pub enum Call {
    Query(Query),
    /// To close the session.
    Close,
}

impl Call {
    /// The same call once more. Takes memory for its texts.
    pub fn try_clone(&self, alloc: Global) -> Result<Call, AllocError>
        ensures { IfOk result (λ call. call ≡ self.now) }
    {
        Ok(match self {
            Call::Query(query) => Call::Query(query.try_clone(alloc)?),
            Call::Close => Call::Close,
        })
    }
}

/// What a line asks (docs/FORMATS.md, "Lines").
#[derive(Drop)]
pub enum Request {
    /// To open a session for a user, by his name and token.
    Open { user: Text, token: Text },
    /// To change a grant, which an operator asks and no session does.
    Grant(GrantChange),
    /// To end a user's sessions, which an operator asks.
    End(EndOrder),
    /// To let the design stand still, which an operator asks.
    Halt(HaltOrder),
    /// How the server stands, which an operator asks by his token. A script has no server.
    Status { token: Text },
    /// To end the server, which an operator asks by his token.
    Shutdown { token: Text },
    /// What the holder of a session asks.
    Call(Call),
}
