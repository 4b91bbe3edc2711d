ghost use Rattle.std.specs.Prelude.{◌≡◌, ◌<◌, ◌^◌, [], vec_len};

use std::alloc::Global;
use vp_source::{Connection, Ends, Item};

/// The lists of a source while it is read.
#[derive(Drop)]
pub struct Arena {
    pub items: Vec<Item>,
    pub connections: Vec<Connection>,
    pub parts: vp_parse_stmt::Arena,
}

impl Arena {
    ghost use Rattle.vp_source.specs.Layout.{ends_of, no_parts};
    ghost use Rattle.vp_parse.specs.Placing.{lists_in};
    ghost use Rattle.vp_parse.specs.Weight.{weight};

    /// No items, and no parts of them.
    pub fn new(alloc: Global) -> Arena
        ensures none { lists_in result ≡ no_parts }
        ensures items { vec_len result.items ≡ 0 }
        ensures connections { vec_len result.connections ≡ 0 }
        ensures statements { vec_len result.parts.statements ≡ 0 }
        ensures expressions { vec_len result.parts.expressions ≡ 0 }
        ensures terms { vec_len result.parts.terms ≡ 0 }
        ensures choices { vec_len result.parts.choices ≡ 0 }
    {
        Arena {
            items: Vec::new(alloc),
            connections: Vec::new(alloc),
            parts: vp_parse_stmt::Arena::new(alloc),
        }
    }

    /// Where its lists end.
    pub fn ends(&self) -> Ends
        requires { weight self.now [] < 2 ^ 32 }
        ensures { result ≡ ends_of (lists_in self.now) }
    {
        Ends {
            items: self.items.len() as u32,
            statements: self.parts.statements.len() as u32,
            expressions: self.parts.expressions.len() as u32,
            terms: self.parts.terms.len() as u32,
            choices: self.parts.choices.len() as u32,
        }
    }
}
