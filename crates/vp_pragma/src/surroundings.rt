ghost use Rattle.std.specs.Prelude.{◌≡◌, [], if◌then◌else◌};
ghost use Rattle.vp_lex.specs.declared.token.TheConstants.{TEXT_LIMIT};
ghost use Rattle.vp_lex.specs.declared.token.TokenKind.TheVariants as token;
ghost use Rattle.vp_pragma.specs.Surroundings.{is_before_else, is_else, may_end};

use vp_lex::{Keyword, Punctuator, Token, TokenKind};

/// What is open after the tokens that the grammar has seen so far.
#[derive(Clone, Copy)]
pub struct Surroundings {
    /// `begin` blocks that are open.
    blocks: u32,
    /// `case` statements that are open.
    cases: u32,
    /// Parentheses, brackets and braces that are open, each kind counted by itself.
    parentheses: u32,
    brackets: u32,
    braces: u32,
    /// How many modules have begun.
    modules: u32,
    in_module: bool,
    /// The last token is absent, or one after which a statement or an item may begin.
    at_boundary: bool,
}

impl Surroundings {
    ghost use Rattle.vp_pragma.specs.Surroundings.{CountsUpTo, around_after, around_of, is_free_around, with_boundary};

    /// Before the first token.
    pub fn new() -> Surroundings
        ensures { result ≡ around_of [] }
    {
        Surroundings {
            blocks: 0,
            cases: 0,
            parentheses: 0,
            brackets: 0,
            braces: 0,
            modules: 0,
            in_module: false,
            at_boundary: true,
        }
    }

    /// The module in which the next token stands, counted from 1; none outside of all modules.
    pub fn module(self) -> Option<u32>
        ensures { result ≡ (if self.in_module then Some self.modules else None) }
    {
        if self.in_module {
            Some(self.modules)
        } else {
            None
        }
    }

    /// No block, case, parenthesis, bracket or brace is open, and the last token ends a statement, an item or a module.
    pub fn is_free(self) -> bool
        ensures { result ≡ is_free_around self }
    {
        self.blocks == 0
            && self.cases == 0
            && self.parentheses == 0
            && self.brackets == 0
            && self.braces == 0
            && self.at_boundary
    }

    /// Counts a keyword that opens or closes a block, a case or a module.
    fn count_word(&mut self, word: Keyword)
        requires { CountsUpTo TEXT_LIMIT self.old }
        ensures { self.new ≡ with_boundary self.old.at_boundary
            (around_after self.old (token.Keyword word)) }
    {
        match word {
            Keyword::Begin => self.blocks += 1,
            Keyword::End => self.blocks = self.blocks.saturating_sub(1),
            Keyword::Case | Keyword::Casez | Keyword::Casex => self.cases += 1,
            Keyword::Endcase => self.cases = self.cases.saturating_sub(1),
            Keyword::Module => {
                self.modules += 1;
                self.in_module = true;
            }
            Keyword::Endmodule => self.in_module = false,
            _ => {}
        }
    }

    /// Counts a punctuator that opens or closes a parenthesis, a bracket or a brace.
    fn count_mark(&mut self, mark: Punctuator)
        requires { CountsUpTo TEXT_LIMIT self.old }
        ensures { self.new ≡ with_boundary self.old.at_boundary
            (around_after self.old (token.Punctuator mark)) }
    {
        match mark {
            Punctuator::LeftParenthesis => self.parentheses += 1,
            Punctuator::RightParenthesis => {
                self.parentheses = self.parentheses.saturating_sub(1);
            }
            Punctuator::LeftBracket => self.brackets += 1,
            Punctuator::RightBracket => self.brackets = self.brackets.saturating_sub(1),
            Punctuator::LeftBrace => self.braces += 1,
            Punctuator::RightBrace => self.braces = self.braces.saturating_sub(1),
            _ => {}
        }
    }

    /// What is open after one more token.
    pub fn after_token(self, kind: TokenKind) -> Surroundings
        requires { CountsUpTo TEXT_LIMIT self }
        ensures { result ≡ around_after self kind }
    {
        let mut after = self;
        match kind {
            TokenKind::Keyword(word) => after.count_word(word),
            TokenKind::Punctuator(mark) => after.count_mark(mark),
            _ => {}
        }
        after.at_boundary = may_end(kind);
        after
    }
}

/// A statement, an item or a module may end with this token.
fn may_end(kind: TokenKind) -> bool
    ensures { result ≡ may_end kind }
{
    matches!(
        kind,
        TokenKind::Punctuator(Punctuator::Semicolon)
            | TokenKind::Keyword(Keyword::End | Keyword::Endcase | Keyword::Endmodule)
    )
}

/// The token is `else`.
fn is_else(kind: TokenKind) -> bool
    ensures { result ≡ is_else kind }
{
    matches!(kind, TokenKind::Keyword(Keyword::Else))
}

/// The next token from a place on that the grammar sees is `else`.
pub fn is_before_else(tokens: &[Token], from: usize) -> bool
    ensures { result ≡ is_before_else tokens.now from }
{
    for place in from..tokens.len() {
        if !tokens[place].directive {
            return is_else(tokens[place].kind);
        }
    }
    false
}
