ghost use Rattle.std.specs.Prelude.{◌≡◌, true};
ghost use Rattle.vp_notify.specs.Registry.{polled_notice};

use vp_bits::Bits;
use vp_expr::ObjectId;
use vp_text::{Same, Sequence};

/// What a callback is notified of a change: its number, the object, the time in time units, and the object's new value (IEEE Std 1364-2005,
/// 27.33.1).
#[derive(Clone, Copy)]
pub struct Notice {
    pub callback: u32,
    pub object: ObjectId,
    pub time: u64,
    pub value: Bits,
}

/// A notice as a poll gives it, which names no object: the number of its callback, the time in time units, and the new value.
#[derive(Clone, Copy)]
pub struct PolledNotice {
    pub callback: u32,
    pub time: u64,
    pub value: Bits,
}

impl Notice {
    /// The notice as a poll gives it.
    pub fn polled(&self) -> PolledNotice
        ensures { result ≡ polled_notice self.now }
    {
        PolledNotice {
            callback: self.callback,
            time: self.time,
            value: self.value,
        }
    }
}

/// The notices that waited, oldest first, and how many were lost.
#[derive(Drop)]
pub struct Notices {
    pub notices: Sequence<PolledNotice>,
    pub lost: u64,
}

impl Same for PolledNotice {
    fn is_same(&self, other: &PolledNotice) -> bool {
        self.callback == other.callback && self.time == other.time && self.value == other.value
    }
}

impl Same for Notices {
    fn is_same(&self, other: &Notices) -> bool {
        self.lost == other.lost && self.notices.is_same(&other.notices)
    }
}
