use std::sync::atomic::{AtomicBool, AtomicU64, AtomicUsize, Ordering};
use vp_answer::SessionId;
use vp_policy::UserId;

/// How far the talk on a connection is: what reads from it and what answers it look at this.
#[derive(Drop)]
pub(crate) struct Talk {
    /// The client has shown a token that holds.
    is_known: AtomicBool,
    /// Nothing more is read: the client of a session that was ended has been answered so.
    is_over: AtomicBool,
    /// His session: its user's number, and the how-many-th of his it is; 0 before it is opened.
    user: AtomicUsize,
    opens: AtomicU64,
}

impl Talk {
    /// Nothing was said.
    pub(crate) fn new() -> Talk {
        Talk {
            is_known: AtomicBool::new(false),
            is_over: AtomicBool::new(false),
            user: AtomicUsize::new(0),
            opens: AtomicU64::new(0),
        }
    }

    /// The client has shown a token that holds: from now on he may be silent.
    pub(crate) fn note_known(&self) {
        self.is_known.store(true, Ordering::SeqCst);
    }

    /// He has shown one.
    pub(crate) fn is_known(&self) -> bool {
        self.is_known.load(Ordering::SeqCst)
    }

    /// Nothing more is to be read.
    pub(crate) fn note_over(&self) {
        self.is_over.store(true, Ordering::SeqCst);
    }

    /// Nothing more is read.
    pub(crate) fn is_over(&self) -> bool {
        self.is_over.load(Ordering::SeqCst)
    }

    /// This is his session.
    pub(crate) fn note_session(&self, session: SessionId) {
        self.user.store(session.user.0, Ordering::SeqCst);
        self.opens.store(session.opens, Ordering::SeqCst);
    }

    /// His session, if one was opened.
    pub(crate) fn session(&self) -> Option<SessionId> {
        let opens = self.opens.load(Ordering::SeqCst);
        if opens == 0 {
            return None;
        }
        let user = UserId(self.user.load(Ordering::SeqCst));
        Some(SessionId { user, opens })
    }
}
