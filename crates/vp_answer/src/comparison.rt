// Queries, an operator's orders and replies are compared by their contents.
use crate::query::Query;
use crate::reply::Reply;
use crate::request::{EndOrder, GrantChange, HaltOrder};
use crate::status::{ServerStatus, UserSessions, WorldStatus};
use vp_text::Same;

impl Same for Reply {
    fn is_same(&self, other: &Reply) -> bool {
        match (self, other) {
            (Reply::Opened(first), Reply::Opened(second)) => first == second,
            (Reply::Done, Reply::Done) => true,
            (Reply::Handle(first), Reply::Handle(second)) => first == second,
            (Reply::Listing(first), Reply::Listing(second)) => first.is_same(second),
            (Reply::Number(first), Reply::Number(second)) => first == second,
            (Reply::Text(first), Reply::Text(second)) => first.is_same(second),
            (Reply::Value(first), Reply::Value(second)) => *first == *second,
            (Reply::Vector(first), Reply::Vector(second)) => *first == *second,
            (Reply::Same(first), Reply::Same(second)) => first == second,
            (Reply::Callback(first), Reply::Callback(second)) => first == second,
            (Reply::Notices(first), Reply::Notices(second)) => first.is_same(second),
            (Reply::Races(first), Reply::Races(second)) => first.is_same(second),
            (Reply::Race(first), Reply::Race(second)) => first.is_same(second),
            (Reply::Job(first), Reply::Job(second)) => first == second,
            (Reply::Denied(first), Reply::Denied(second)) => first.is_same(second),
            (Reply::RunDenied, Reply::RunDenied) => true,
            (
                Reply::Time { time, finished },
                Reply::Time {
                    time: second,
                    finished: second_finished,
                },
            ) => time == second && finished == second_finished,
            (Reply::Status(first), Reply::Status(second)) => first.is_same(second),
            (Reply::Error(first), Reply::Error(second)) => first == second,
            _ => false,
        }
    }
}

impl Same for UserSessions {
    fn is_same(&self, other: &UserSessions) -> bool {
        self.user.is_same(&other.user) && self.sessions == other.sessions
    }
}

impl Same for WorldStatus {
    fn is_same(&self, other: &WorldStatus) -> bool {
        self.time == other.time
            && self.running == other.running
            && self.entries == other.entries
            && self.held == other.held
            && self.bytes == other.bytes
            && self.sessions.is_same(&other.sessions)
            && self.jobs == other.jobs
            && self.races == other.races
    }
}

impl Same for ServerStatus {
    fn is_same(&self, other: &ServerStatus) -> bool {
        self.world.is_same(&other.world)
            && self.connections == other.connections
            && self.denials == other.denials
            && self.wrong_tokens == other.wrong_tokens
            && self.version.is_same(&other.version)
    }
}

impl Same for EndOrder {
    fn is_same(&self, other: &EndOrder) -> bool {
        self.token.is_same(&other.token) && self.user.is_same(&other.user)
    }
}

impl Same for HaltOrder {
    fn is_same(&self, other: &HaltOrder) -> bool {
        self.token.is_same(&other.token)
    }
}

impl Same for GrantChange {
    fn is_same(&self, other: &GrantChange) -> bool {
        self.token.is_same(&other.token)
            && self.user.is_same(&other.user)
            && self.envelope == other.envelope
            && self.access.is_same(&other.access)
    }
}

impl Same for Query {
    fn is_same(&self, other: &Query) -> bool {
        match (self, other) {
            (
                Query::Handle { name, scope },
                Query::Handle {
                    name: second,
                    scope: second_scope,
                },
            ) => name.is_same(second) && *scope == *second_scope,
            (
                Query::Iterate { kind, scope },
                Query::Iterate {
                    kind: second,
                    scope: second_scope,
                },
            ) => *kind == *second && *scope == *second_scope,
            (
                Query::Get { handle, property },
                Query::Get {
                    handle: second,
                    property: second_property,
                },
            ) => handle == second && *property == *second_property,
            (
                Query::GetStr { handle, property },
                Query::GetStr {
                    handle: second,
                    property: second_property,
                },
            ) => handle == second && *property == *second_property,
            (
                Query::Value { handle, format },
                Query::Value {
                    handle: second,
                    format: second_format,
                },
            ) => handle == second && *format == *second_format,
            (
                Query::Put { handle, value },
                Query::Put {
                    handle: second,
                    value: second_value,
                },
            ) => handle == second && value.is_same(second_value),
            (
                Query::Compare { first, second },
                Query::Compare {
                    first: other_first,
                    second: other_second,
                },
            ) => first == other_first && second == other_second,
            (Query::Free { handle }, Query::Free { handle: second }) => handle == second,
            (Query::Watch { handle }, Query::Watch { handle: second }) => handle == second,
            (Query::Unwatch { callback }, Query::Unwatch { callback: second }) => {
                callback == second
            }
            (Query::Poll, Query::Poll) => true,
            (Query::Races { from }, Query::Races { from: second }) => from == second,
            (Query::Race { number }, Query::Race { number: second }) => number == second,
            (Query::Run { until }, Query::Run { until: second }) => until == second,
            (Query::Stop, Query::Stop) | (Query::Time, Query::Time) => true,
            _ => false,
        }
    }
}
