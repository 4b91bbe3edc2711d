// The timescales of a text, and whether they say the same (clause 19.8).
ghost use Rattle.std.specs.Prelude.{◌≡◌, ◌≤◌, None, length, drop, map, take_while};
ghost use Rattle.vp_lex.specs.Texts.{text_of};
ghost use Rattle.vp_lex.specs.Timescales.{are_same, begins_line, differing, is_before, is_on, is_timescale, timescales, timescales_before};

use crate::token::Token;

/// A directive that begins its line of directives, where the last such line before it is this one, or 0.
fn begins_line(line: u32, token: Token) -> bool
    ensures { result ≡ begins_line line token }
{
    token.directive && token.line != line
}

/// The token is the directive.
fn is_timescale(text: &str, token: Token) -> bool
    ensures { result ≡ is_timescale text.now token }
{
    token.text(text) == "`timescale"
}

/// The token belongs to the directive of a line.
fn is_on(line: u32, token: Token) -> bool
    ensures { result ≡ is_on line token }
{
    token.directive && token.line == line
}

/// How many tokens in front belong to the directive of a line.
#[tactic(auto, using(crate::proofs::Scans::taken_more, crate::proofs::Scans::taken_stop, crate::proofs::Scans::taken_end))]
fn run_len(tokens: &[Token], line: u32) -> usize
    ensures len { result ≡ length (take_while (is_on line) tokens.now) }
    ensures within { result ≤ length tokens.now }
{
    let mut end = 0;
    while end < tokens.len() && is_on(line, tokens[end]) {
        end += 1;
    }
    end
}

/// The tokens in front that belong to the directive of a line.
#[tactic(auto, using(crate::proofs::StringLaws::taken_front))]
fn run(tokens: &[Token], line: u32) -> &[Token]
    ensures { result.now ≡ take_while (is_on line) tokens.now }
{
    &tokens[..run_len(tokens, line)]
}

/// The texts of some tokens are those of others.
fn are_same(text: &str, some: &[Token], others: &[Token]) -> bool
    ensures { result ≡ are_same (map (text_of text.now) some.now)
        (map (text_of text.now) others.now) }
{
    if some.len() != others.len() {
        return false;
    }
    for i in 0..some.len() {
        if some[i].text(text) != others[i].text(text) {
            return false;
        }
    }
    true
}

/// The line stands before another, if there is one.
fn is_before(limit: Option<u32>, line: u32) -> bool
    ensures { result ≡ is_before limit line }
{
    match limit {
        Some(limit) => line < limit,
        None => true,
    }
}

/// The line of the first timescale before a line, if there is one, whose texts are not those of the first timescale of the text.
pub fn differing_line(text: &str, tokens: &[Token], limit: Option<u32>) -> Option<u32>
    ensures { result ≡ differing None (timescales_before limit (timescales text.now tokens.now)) }
{
    let mut first: Option<&[Token]> = None;
    let mut line = 0;
    for (i, token) in tokens.iter().enumerate() {
        if !begins_line(line, *token) {
            continue;
        }
        line = token.line;
        if !is_before(limit, line) || !is_timescale(text, *token) {
            continue;
        }
        let texts = run(&tokens[i + 1..], line);
        match first {
            None => first = Some(texts),
            Some(others) if are_same(text, others, texts) => {}
            Some(_) => return Some(line),
        }
    }
    None
}
