//! The tokens of whole texts, and what comes of a million bytes.

use std::alloc::Global;
use std::fmt::Write;
use vp_lex::{TEXT_LIMIT, Token, tokens};

/// How many tokens a text has; or its fault, by code and line.
fn outcome(alloc: Global, text: &str) -> Result<usize, (u32, u32)> {
    if text.len() > TEXT_LIMIT {
        return Err((0, 0));
    }
    match tokens(alloc, text) {
        Ok(tokens) => Ok(tokens.len()),
        Err(error) => Err((error.code(), error.line())),
    }
}

/// A text of a million bytes, of which this is each.
fn million(alloc: Global, byte: u8) -> Option<Result<usize, (u32, u32)>> {
    let bytes = vec![in alloc; byte; 1_000_000].ok()?;
    let text = str::from_utf8(&bytes).ok()?;
    Some(outcome(alloc, text))
}

/// How many tokens a million such bytes are.
fn count_of_million(byte: u8) -> Result<usize, (u32, u32)> {
    match byte {
        b' ' | b'/' => Ok(0),
        b'0'..=b'9' | b'A'..=b'Z' | b'a'..=b'z' | b'_' => Ok(1),
        b'"' | b'*' | b'&' | b'|' => Ok(500_000),
        b'<' | b'>' | b'=' => Ok(333_334),
        b'$' | b'\'' | b'\\' | b'`' => Err((201, 1)),
        _ => Ok(1_000_000),
    }
}

#[test]
fn a_million_bytes_of_one(rt: HostRuntime) {
    for byte in b' '..=b'~' {
        assert_eq!(rt;
            million(rt.alloc(), byte),
            Some(count_of_million(byte)),
            "of {byte}"
        );
    }
}

/// A million bytes of all that are printable, in turn, after these.
fn printable(alloc: Global, begin: &[u8]) -> Option<Result<usize, (u32, u32)>> {
    let mut bytes = begin.to_vec(alloc).ok()?;
    for i in 0..1_000_000u32 {
        bytes.push(b' ' + (i % 95) as u8).ok()?;
    }
    let text = str::from_utf8(&bytes).ok()?;
    Some(outcome(alloc, text))
}

#[test]
fn a_million_bytes_of_all(rt: HostRuntime) {
    // After a space and `!` stands a string up to the next quotation mark, then `#`, and then a dollar sign that begins no name.
    assert_eq!(rt; printable(rt.alloc(), b""), Some(Err((201, 1))));
    // No asterisk stands before a solidus, so a block comment does not end.
    assert_eq!(rt; printable(rt.alloc(), b"\n/*"), Some(Err((202, 2))));
    assert_eq!(rt; printable(rt.alloc(), b"\n\n//"), Some(Ok(0)));
}

/// Tokens by their lines: the column of each, a star if it belongs to a directive, and its kind.
fn shown(alloc: Global, tokens: &[Token]) -> Option<String> {
    let mut shown = String::new(alloc);
    let mut line = 0;
    for token in tokens {
        if token.line == line {
            shown.push_str(",").ok()?;
        } else {
            line = token.line;
            write!(shown, "\n{line}:").ok()?;
        }
        let column = token.column;
        let mark = if token.directive { "*" } else { "" };
        let kind = token.kind;
        write!(shown, " {column}{mark} {kind:?}").ok()?;
    }
    Some(shown)
}

/// The tokens of a text, shown.
fn tokens_shown(alloc: Global, text: &str) -> Option<String> {
    if text.len() > TEXT_LIMIT {
        return None;
    }
    let tokens = tokens(alloc, text).ok()?;
    shown(alloc, &tokens)
}

const VIEWPORT_IN_AN_ENVELOPE: (&str, &str) = (
    "module ip(input wire c, output reg q);\n\
     `pragma protect author=\"acme\", begin\n\
     \x20 reg k, s;\n\
     `pragma protect viewport=(object=\"ip.s\", access=\"read\")\n\
     \x20 initial begin k = 1'b1; s = 1'b0; end\n\
     \x20 always @(posedge c) begin s = k; q = s; end\n\
     `pragma protect end\n\
     endmodule\n\
     module top;\n\
     \x20 reg c;\n\
     \x20 wire q;\n\
     \x20 ip u(.c(c), .q(q));\n\
     \x20 initial begin c = 0; #5 c = 1; end\n\
     endmodule\n\
     ",
    "\n\
     1: 1 Keyword(Module), 8 Name, 10 Punctuator(LeftParenthesis), 11 Keyword(Input), 17 Keyword(Wire), 22 Name, 23 Punctuator(Comma), 25 Keyword(Output), 32 Keyword(Reg), 36 Name, 37 Punctuator(RightParenthesis), 38 Punctuator(Semicolon)\n\
     2: 1* Directive, 9* Name, 17* Name, 23* Punctuator(Equals), 24* String, 30* Punctuator(Comma), 32* Keyword(Begin)\n\
     3: 3 Keyword(Reg), 7 Name, 8 Punctuator(Comma), 10 Name, 11 Punctuator(Semicolon)\n\
     4: 1* Directive, 9* Name, 17* Name, 25* Punctuator(Equals), 26* Punctuator(LeftParenthesis), 27* Name, 33* Punctuator(Equals), 34* String, 40* Punctuator(Comma), 42* Name, 48* Punctuator(Equals), 49* String, 55* Punctuator(RightParenthesis)\n\
     5: 3 Keyword(Initial), 11 Keyword(Begin), 17 Name, 19 Punctuator(Equals), 21 Number, 22 Base, 25 Punctuator(Semicolon), 27 Name, 29 Punctuator(Equals), 31 Number, 32 Base, 35 Punctuator(Semicolon), 37 Keyword(End)\n\
     6: 3 Keyword(Always), 10 Punctuator(At), 11 Punctuator(LeftParenthesis), 12 Keyword(Posedge), 20 Name, 21 Punctuator(RightParenthesis), 23 Keyword(Begin), 29 Name, 31 Punctuator(Equals), 33 Name, 34 Punctuator(Semicolon), 36 Name, 38 Punctuator(Equals), 40 Name, 41 Punctuator(Semicolon), 43 Keyword(End)\n\
     7: 1* Directive, 9* Name, 17* Keyword(End)\n\
     8: 1 Keyword(Endmodule)\n\
     9: 1 Keyword(Module), 8 Name, 11 Punctuator(Semicolon)\n\
     10: 3 Keyword(Reg), 7 Name, 8 Punctuator(Semicolon)\n\
     11: 3 Keyword(Wire), 8 Name, 9 Punctuator(Semicolon)\n\
     12: 3 Name, 6 Name, 7 Punctuator(LeftParenthesis), 8 Punctuator(Period), 9 Name, 10 Punctuator(LeftParenthesis), 11 Name, 12 Punctuator(RightParenthesis), 13 Punctuator(Comma), 15 Punctuator(Period), 16 Name, 17 Punctuator(LeftParenthesis), 18 Name, 19 Punctuator(RightParenthesis), 20 Punctuator(RightParenthesis), 21 Punctuator(Semicolon)\n\
     13: 3 Keyword(Initial), 11 Keyword(Begin), 17 Name, 19 Punctuator(Equals), 21 Number, 22 Punctuator(Semicolon), 24 Punctuator(Hash), 25 Number, 27 Name, 29 Punctuator(Equals), 31 Number, 32 Punctuator(Semicolon), 34 Keyword(End)\n\
     14: 1 Keyword(Endmodule)",
);

const TWO_PROCESSES_OF_ONE_EDGE: (&str, &str) = (
    "module top;\n\
     \x20 reg a, b, c;\n\
     \x20 initial begin a = 0; b = 1; c = 0; #5 c = 1; end\n\
     \x20 always @(posedge c) a = b;\n\
     \x20 always @(posedge c) b = a;\n\
     endmodule\n\
     ",
    "\n\
     1: 1 Keyword(Module), 8 Name, 11 Punctuator(Semicolon)\n\
     2: 3 Keyword(Reg), 7 Name, 8 Punctuator(Comma), 10 Name, 11 Punctuator(Comma), 13 Name, 14 Punctuator(Semicolon)\n\
     3: 3 Keyword(Initial), 11 Keyword(Begin), 17 Name, 19 Punctuator(Equals), 21 Number, 22 Punctuator(Semicolon), 24 Name, 26 Punctuator(Equals), 28 Number, 29 Punctuator(Semicolon), 31 Name, 33 Punctuator(Equals), 35 Number, 36 Punctuator(Semicolon), 38 Punctuator(Hash), 39 Number, 41 Name, 43 Punctuator(Equals), 45 Number, 46 Punctuator(Semicolon), 48 Keyword(End)\n\
     4: 3 Keyword(Always), 10 Punctuator(At), 11 Punctuator(LeftParenthesis), 12 Keyword(Posedge), 20 Name, 21 Punctuator(RightParenthesis), 23 Name, 25 Punctuator(Equals), 27 Name, 28 Punctuator(Semicolon)\n\
     5: 3 Keyword(Always), 10 Punctuator(At), 11 Punctuator(LeftParenthesis), 12 Keyword(Posedge), 20 Name, 21 Punctuator(RightParenthesis), 23 Name, 25 Punctuator(Equals), 27 Name, 28 Punctuator(Semicolon)\n\
     6: 1 Keyword(Endmodule)",
);

const TWO_ENVELOPES: (&str, &str) = (
    "module top;\n\
     \x20 reg c;\n\
     `pragma protect author=\"acme\", begin\n\
     \x20 reg b;\n\
     `pragma protect end\n\
     \x20 reg a;\n\
     \x20 initial begin a = 0; b = 1; c = 0; #5 c = 1; end\n\
     \x20 always @(posedge c) a = b;\n\
     `pragma protect begin\n\
     \x20 always @(posedge c) b = a;\n\
     `pragma protect end\n\
     endmodule\n\
     ",
    "\n\
     1: 1 Keyword(Module), 8 Name, 11 Punctuator(Semicolon)\n\
     2: 3 Keyword(Reg), 7 Name, 8 Punctuator(Semicolon)\n\
     3: 1* Directive, 9* Name, 17* Name, 23* Punctuator(Equals), 24* String, 30* Punctuator(Comma), 32* Keyword(Begin)\n\
     4: 3 Keyword(Reg), 7 Name, 8 Punctuator(Semicolon)\n\
     5: 1* Directive, 9* Name, 17* Keyword(End)\n\
     6: 3 Keyword(Reg), 7 Name, 8 Punctuator(Semicolon)\n\
     7: 3 Keyword(Initial), 11 Keyword(Begin), 17 Name, 19 Punctuator(Equals), 21 Number, 22 Punctuator(Semicolon), 24 Name, 26 Punctuator(Equals), 28 Number, 29 Punctuator(Semicolon), 31 Name, 33 Punctuator(Equals), 35 Number, 36 Punctuator(Semicolon), 38 Punctuator(Hash), 39 Number, 41 Name, 43 Punctuator(Equals), 45 Number, 46 Punctuator(Semicolon), 48 Keyword(End)\n\
     8: 3 Keyword(Always), 10 Punctuator(At), 11 Punctuator(LeftParenthesis), 12 Keyword(Posedge), 20 Name, 21 Punctuator(RightParenthesis), 23 Name, 25 Punctuator(Equals), 27 Name, 28 Punctuator(Semicolon)\n\
     9: 1* Directive, 9* Name, 17* Keyword(Begin)\n\
     10: 3 Keyword(Always), 10 Punctuator(At), 11 Punctuator(LeftParenthesis), 12 Keyword(Posedge), 20 Name, 21 Punctuator(RightParenthesis), 23 Name, 25 Punctuator(Equals), 27 Name, 28 Punctuator(Semicolon)\n\
     11: 1* Directive, 9* Name, 17* Keyword(End)\n\
     12: 1 Keyword(Endmodule)",
);

const ONE_ENVELOPE: (&str, &str) = (
    "module top;\n\
     \x20 reg a;\n\
     `pragma protect author=\"acme\", begin\n\
     \x20 reg k;\n\
     `pragma protect end\n\
     \x20 initial begin a = 1'b1; k = a; end\n\
     endmodule\n\
     ",
    "\n\
     1: 1 Keyword(Module), 8 Name, 11 Punctuator(Semicolon)\n\
     2: 3 Keyword(Reg), 7 Name, 8 Punctuator(Semicolon)\n\
     3: 1* Directive, 9* Name, 17* Name, 23* Punctuator(Equals), 24* String, 30* Punctuator(Comma), 32* Keyword(Begin)\n\
     4: 3 Keyword(Reg), 7 Name, 8 Punctuator(Semicolon)\n\
     5: 1* Directive, 9* Name, 17* Keyword(End)\n\
     6: 3 Keyword(Initial), 11 Keyword(Begin), 17 Name, 19 Punctuator(Equals), 21 Number, 22 Base, 25 Punctuator(Semicolon), 27 Name, 29 Punctuator(Equals), 31 Name, 32 Punctuator(Semicolon), 34 Keyword(End)\n\
     7: 1 Keyword(Endmodule)",
);

const ACCESS_OF_TWO_RIGHTS: (&str, &str) = (
    "module top;\n\
     `pragma protect author=\"acme\", begin\n\
     \x20 reg s, k;\n\
     `pragma protect viewport=(object=\"s\", access=\"read+put\")\n\
     `pragma protect end\n\
     \x20 reg a;\n\
     endmodule\n\
     ",
    "\n\
     1: 1 Keyword(Module), 8 Name, 11 Punctuator(Semicolon)\n\
     2: 1* Directive, 9* Name, 17* Name, 23* Punctuator(Equals), 24* String, 30* Punctuator(Comma), 32* Keyword(Begin)\n\
     3: 3 Keyword(Reg), 7 Name, 8 Punctuator(Comma), 10 Name, 11 Punctuator(Semicolon)\n\
     4: 1* Directive, 9* Name, 17* Name, 25* Punctuator(Equals), 26* Punctuator(LeftParenthesis), 27* Name, 33* Punctuator(Equals), 34* String, 37* Punctuator(Comma), 39* Name, 45* Punctuator(Equals), 46* String, 56* Punctuator(RightParenthesis)\n\
     5: 1* Directive, 9* Name, 17* Keyword(End)\n\
     6: 3 Keyword(Reg), 7 Name, 8 Punctuator(Semicolon)\n\
     7: 1 Keyword(Endmodule)",
);

const INSTANCES: (&str, &str) = (
    "module inv(input wire a, output wire y);\n\
     \x20 assign y = ~a;\n\
     endmodule\n\
     module top;\n\
     \x20 reg r;\n\
     \x20 wire y1, y2;\n\
     \x20 localparam W = 4'd9;\n\
     \x20 inv u(.a(r), .y(y1)), v(.a(y1), .y(y2));\n\
     \x20 initial r = 1'b1;\n\
     endmodule\n\
     ",
    "\n\
     1: 1 Keyword(Module), 8 Name, 11 Punctuator(LeftParenthesis), 12 Keyword(Input), 18 Keyword(Wire), 23 Name, 24 Punctuator(Comma), 26 Keyword(Output), 33 Keyword(Wire), 38 Name, 39 Punctuator(RightParenthesis), 40 Punctuator(Semicolon)\n\
     2: 3 Keyword(Assign), 10 Name, 12 Punctuator(Equals), 14 Punctuator(Negation), 15 Name, 16 Punctuator(Semicolon)\n\
     3: 1 Keyword(Endmodule)\n\
     4: 1 Keyword(Module), 8 Name, 11 Punctuator(Semicolon)\n\
     5: 3 Keyword(Reg), 7 Name, 8 Punctuator(Semicolon)\n\
     6: 3 Keyword(Wire), 8 Name, 10 Punctuator(Comma), 12 Name, 14 Punctuator(Semicolon)\n\
     7: 3 Keyword(Localparam), 14 Name, 16 Punctuator(Equals), 18 Number, 19 Base, 22 Punctuator(Semicolon)\n\
     8: 3 Name, 7 Name, 8 Punctuator(LeftParenthesis), 9 Punctuator(Period), 10 Name, 11 Punctuator(LeftParenthesis), 12 Name, 13 Punctuator(RightParenthesis), 14 Punctuator(Comma), 16 Punctuator(Period), 17 Name, 18 Punctuator(LeftParenthesis), 19 Name, 21 Punctuator(RightParenthesis), 22 Punctuator(RightParenthesis), 23 Punctuator(Comma), 25 Name, 26 Punctuator(LeftParenthesis), 27 Punctuator(Period), 28 Name, 29 Punctuator(LeftParenthesis), 30 Name, 32 Punctuator(RightParenthesis), 33 Punctuator(Comma), 35 Punctuator(Period), 36 Name, 37 Punctuator(LeftParenthesis), 38 Name, 40 Punctuator(RightParenthesis), 41 Punctuator(RightParenthesis), 42 Punctuator(Semicolon)\n\
     9: 3 Keyword(Initial), 11 Name, 13 Punctuator(Equals), 15 Number, 16 Base, 19 Punctuator(Semicolon)\n\
     10: 1 Keyword(Endmodule)",
);

const ENVELOPES_OF_INSTANCES: (&str, &str) = (
    "module leaf;\n\
     \x20 reg a;\n\
     `pragma protect author=\"lf\", begin\n\
     \x20 reg k;\n\
     `pragma protect end\n\
     endmodule\n\
     module top;\n\
     `pragma protect author=\"tp\", begin\n\
     \x20 leaf u();\n\
     `pragma protect end\n\
     \x20 leaf v();\n\
     endmodule\n\
     ",
    "\n\
     1: 1 Keyword(Module), 8 Name, 12 Punctuator(Semicolon)\n\
     2: 3 Keyword(Reg), 7 Name, 8 Punctuator(Semicolon)\n\
     3: 1* Directive, 9* Name, 17* Name, 23* Punctuator(Equals), 24* String, 28* Punctuator(Comma), 30* Keyword(Begin)\n\
     4: 3 Keyword(Reg), 7 Name, 8 Punctuator(Semicolon)\n\
     5: 1* Directive, 9* Name, 17* Keyword(End)\n\
     6: 1 Keyword(Endmodule)\n\
     7: 1 Keyword(Module), 8 Name, 11 Punctuator(Semicolon)\n\
     8: 1* Directive, 9* Name, 17* Name, 23* Punctuator(Equals), 24* String, 28* Punctuator(Comma), 30* Keyword(Begin)\n\
     9: 3 Name, 8 Name, 9 Punctuator(LeftParenthesis), 10 Punctuator(RightParenthesis), 11 Punctuator(Semicolon)\n\
     10: 1* Directive, 9* Name, 17* Keyword(End)\n\
     11: 3 Name, 8 Name, 9 Punctuator(LeftParenthesis), 10 Punctuator(RightParenthesis), 11 Punctuator(Semicolon)\n\
     12: 1 Keyword(Endmodule)",
);

#[test]
fn whole_texts(rt: HostRuntime) {
    let rows = [
        VIEWPORT_IN_AN_ENVELOPE,
        TWO_PROCESSES_OF_ONE_EDGE,
        TWO_ENVELOPES,
        ONE_ENVELOPE,
        ACCESS_OF_TWO_RIGHTS,
        INSTANCES,
        ENVELOPES_OF_INSTANCES,
    ];
    for (text, want) in rows {
        let shown = tokens_shown(rt.alloc(), text);
        assert_eq!(rt; shown.as_deref(), Some(want));
    }
}
