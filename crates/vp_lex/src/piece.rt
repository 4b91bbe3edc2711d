// The piece of a text that begins at a byte: white space, a comment, or a token.
ghost use Rattle.std.specs.Prelude.{◌≡◌, true, false, ◌<◌, ◌≤◌, ◌+◌, length, drop, take_while, option_map, slice_range, slice_index, codes, bytes_eq, IfOk, IfErr, IfSome};
ghost use Rattle.vp_lex.specs.declared.token.TokenKind.TheVariants as token;
ghost use Rattle.vp_lex.specs.Bytes.{begins_name, goes_on_name};
ghost use Rattle.vp_lex.specs.Pieces.{is_piece};
ghost use Rattle.vp_lex.specs.Cutting.{run_front, kind_begun, kind_in_front, goes_on_comment, symbol_front, comment_front, block_front, or_bad, digits_front, based_front, base_front, string_front, is_known_name, known_directive, front_of, first_piece};
ghost use Rattle.vp_lex.specs.Scanning.{class_test, kind_of, end_of};
ghost use Rattle.vp_lex.specs.Tokens.{word_kind, token_kind};
ghost use Rattle.vp_lex.specs.Symbols.{symbol_of};
ghost use Rattle.vp_lex.specs.Words.{keyword_of};

use crate::keyword::keyword_of;
use crate::symbol::{one_byte_symbol, symbol, symbol_end};
use crate::token::TokenKind;

/// A kind of piece: white space, a comment, or what a token is by its first byte.
#[derive(Clone, Copy)]
pub enum Kind {
    Space,
    Comment,
    Word,
    SystemWord,
    Number,
    Base,
    String,
    Operator,
    Directive,
}

impl Kind {
    ghost use Rattle.vp_lex.specs.Tokens.{is_mark};

    /// A piece of this kind is a directive, which marks its line.
    pub fn is_mark(self) -> bool
        ensures { result ≡ is_mark (kind_of self) }
    {
        matches!(self, Kind::Directive)
    }
}

/// Why no piece is read at a byte.
#[derive(Clone, Copy)]
pub enum Fault {
    BadCharacter,
    OpenComment,
    OpenString,
    UnknownDirective,
}

/// A number base (clause 3.5.1).
#[derive(Clone, Copy)]
enum Base {
    Binary,
    Octal,
    Decimal,
    Hexadecimal,
}

impl Base {
    ghost use Rattle.std.specs.Prelude.{◌≡◌};
    ghost use Rattle.vp_lex.specs.Bytes.{base_of, is_digit};

    /// The base that a letter names, in either case.
    fn named(letter: u8) -> Option<Base>
        ensures { result ≡ base_of letter }
    {
        match letter {
            b'b' | b'B' => Some(Base::Binary),
            b'o' | b'O' => Some(Base::Octal),
            b'd' | b'D' => Some(Base::Decimal),
            b'h' | b'H' => Some(Base::Hexadecimal),
            _ => None,
        }
    }

    /// A digit of the base; x, z and ? are digits of each.
    fn has_digit(self, byte: u8) -> bool
        ensures { result ≡ is_digit self byte }
    {
        if matches!(byte, b'x' | b'X' | b'z' | b'Z' | b'?') {
            return true;
        }
        match self {
            Base::Binary => byte == b'0' || byte == b'1',
            Base::Octal => matches!(byte, b'0'..=b'7'),
            Base::Decimal => byte.is_ascii_digit(),
            Base::Hexadecimal => byte.is_ascii_hexdigit(),
        }
    }
}

/// A class of bytes.
#[derive(Clone, Copy)]
enum Class {
    /// White space (clause 3.2).
    Space,
    /// What stands in a line (profile).
    Line,
    /// What begins a name (clause 3.7).
    Letter,
    /// What goes on a name (clause 3.7).
    Name,
    /// What goes on a decimal number (clause 3.5.1).
    Decimal,
    /// What begins the digits of a base part (clause 3.5.1).
    Digit(Base),
    /// What goes on the digits of a base part (clause 3.5.1).
    Digits(Base),
}

impl Class {
    ghost use Rattle.vp_lex.specs.Scanning.{class_test};

    fn holds(self, byte: u8) -> bool
        ensures { result ≡ class_test self byte }
    {
        match self {
            Class::Space => byte.is_ascii_whitespace(),
            Class::Line => byte != b'\n',
            Class::Letter => byte.is_ascii_alphabetic() || byte == b'_',
            Class::Name => byte.is_ascii_alphanumeric() || byte == b'_' || byte == b'$',
            Class::Decimal => byte.is_ascii_digit() || byte == b'_',
            Class::Digit(base) => base.has_digit(byte),
            Class::Digits(base) => base.has_digit(byte) || byte == b'_',
        }
    }
}

/// The end of the longest run of bytes of a class from a place on.
#[tactic(auto, using(crate::proofs::Scans::taken_more, crate::proofs::Scans::taken_stop, crate::proofs::Scans::taken_end))]
fn run_end(bytes: &[u8], start: usize, class: Class) -> usize
    requires { start ≤ length bytes.now }
    ensures end { result ≡ start + length (take_while (class_test class) (drop start bytes.now)) }
    ensures within { result ≤ length bytes.now }
{
    let mut end = start;
    while end < bytes.len() && class.holds(bytes[end]) {
        end += 1;
    }
    end
}

/// The end of the longest run from a place on that begins with a byte of one class and goes on with another.
fn begun_end(bytes: &[u8], start: usize, begins: Class, goes_on: Class) -> Option<usize>
    requires { start ≤ length bytes.now }
    ensures end { result ≡ option_map (λ front. start + length front)
        (run_front (class_test begins) (class_test goes_on) (drop start bytes.now)) }
    ensures within { IfSome result (λ end. (start ≤ end) × (end ≤ length bytes.now)) }
{
    if start < bytes.len() && begins.holds(bytes[start]) {
        Some(run_end(bytes, start + 1, goes_on))
    } else {
        None
    }
}

/// The kind of the piece that a byte begins, where no comment does.
fn kind_begun(byte: u8) -> Option<Kind>
    ensures { option_map kind_of result ≡ kind_begun byte }
{
    if byte.is_ascii_whitespace() {
        return Some(Kind::Space);
    }
    if Class::Letter.holds(byte) {
        return Some(Kind::Word);
    }
    if byte == b'$' {
        return Some(Kind::SystemWord);
    }
    if byte.is_ascii_digit() {
        return Some(Kind::Number);
    }
    match byte {
        b'\'' => Some(Kind::Base),
        b'"' => Some(Kind::String),
        b'`' => Some(Kind::Directive),
        _ if one_byte_symbol(byte).is_some() => Some(Kind::Operator),
        _ => None,
    }
}

/// A comment goes on here, after its first solidus.
fn goes_on_comment(bytes: &[u8], at: usize) -> bool
    requires { at ≤ length bytes.now }
    ensures { result ≡ goes_on_comment (drop at bytes.now) }
{
    at < bytes.len() && (bytes[at] == b'/' || bytes[at] == b'*')
}

/// The kind of the piece that begins at a byte.
fn kind_at(bytes: &[u8], start: usize) -> Option<Kind>
    requires { start < length bytes.now }
    ensures { option_map kind_of result
        ≡ kind_in_front (slice_index bytes.now start) (drop (start + 1) bytes.now) }
{
    if bytes[start] == b'/' && goes_on_comment(bytes, start + 1) {
        Some(Kind::Comment)
    } else {
        kind_begun(bytes[start])
    }
}

/// The end of a string, from after its opening quotation mark.
#[tactic(auto, using(crate::proofs::Scans::string_more, crate::proofs::Scans::string_none))]
fn string_end(bytes: &[u8], start: usize) -> Result<usize, Fault>
    requires { start ≤ length bytes.now }
    ensures { result ≡ end_of start (string_front false (drop start bytes.now)) }
{
    let mut escaped = false;
    for i in start..bytes.len() {
        if !escaped && bytes[i] == b'"' {
            return Ok(i + 1);
        }
        if bytes[i] == b'\n' {
            return Err(Fault::OpenString);
        }
        escaped = !escaped && bytes[i] == b'\\';
    }
    Err(Fault::OpenString)
}

/// The end of a block comment, from after its first two bytes.
#[tactic(auto, using(crate::proofs::Scans::block_more, crate::proofs::Scans::block_none))]
fn block_end(bytes: &[u8], start: usize) -> Result<usize, Fault>
    requires { start ≤ length bytes.now }
    ensures { result ≡ end_of start (block_front false (drop start bytes.now)) }
{
    let mut starred = false;
    for at in start..bytes.len() {
        if starred && bytes[at] == b'/' {
            return Ok(at + 1);
        }
        starred = bytes[at] == b'*';
    }
    Err(Fault::OpenComment)
}

/// The end of a comment, from after its first solidus.
#[tactic(auto, using(crate::proofs::Scans::comment_more, crate::proofs::Scans::comment_none))]
fn comment_end(bytes: &[u8], start: usize) -> Result<usize, Fault>
    requires { start ≤ length bytes.now }
    ensures { result ≡ end_of start (comment_front (drop start bytes.now)) }
{
    if start == bytes.len() {
        return Err(Fault::BadCharacter);
    }
    if bytes[start] == b'/' {
        Ok(run_end(bytes, start + 1, Class::Line))
    } else {
        block_end(bytes, start + 1)
    }
}

/// The end of a base part, from after its apostrophe: an s or not, a base letter, optional white space, digits.
#[tactic(auto, using(crate::proofs::Scans::base_more, crate::proofs::Scans::base_none))]
fn base_end(bytes: &[u8], start: usize) -> Result<usize, Fault>
    requires { start ≤ length bytes.now }
    ensures { result ≡ end_of start (base_front (drop start bytes.now)) }
{
    if start < bytes.len() && matches!(bytes[start], b's' | b'S') {
        based_end(bytes, start + 1)
    } else {
        based_end(bytes, start)
    }
}

/// The end of a base letter, optional white space and digits.
#[tactic(auto, using(crate::proofs::Scans::based_more, crate::proofs::Scans::based_none))]
fn based_end(bytes: &[u8], start: usize) -> Result<usize, Fault>
    requires { start ≤ length bytes.now }
    ensures { result ≡ end_of start (based_front (drop start bytes.now)) }
{
    if start == bytes.len() {
        return Err(Fault::BadCharacter);
    }
    match Base::named(bytes[start]) {
        Some(base) => digits_end(bytes, start + 1, base),
        None => Err(Fault::BadCharacter),
    }
}

/// The end of optional white space and digits of a base.
fn digits_end(bytes: &[u8], start: usize, base: Base) -> Result<usize, Fault>
    requires { start ≤ length bytes.now }
    ensures { result ≡ end_of start (or_bad (digits_front base (drop start bytes.now))) }
{
    let digits = run_end(bytes, start, Class::Space);
    match begun_end(bytes, digits, Class::Digit(base), Class::Digits(base)) {
        Some(end) => Ok(end),
        None => Err(Fault::BadCharacter),
    }
}

/// The end of the name of a system task or function, from after its dollar sign.
fn system_end(bytes: &[u8], start: usize) -> Result<usize, Fault>
    requires { start ≤ length bytes.now }
    ensures { result ≡ end_of start
        (or_bad (run_front begins_name goes_on_name (drop start bytes.now))) }
{
    match begun_end(bytes, start, Class::Letter, Class::Name) {
        Some(end) => Ok(end),
        None => Err(Fault::BadCharacter),
    }
}

/// The end of a directive that is read, from after its accent.
fn directive_end(bytes: &[u8], start: usize) -> Result<usize, Fault>
    requires { start ≤ length bytes.now }
    ensures { result ≡ end_of start
        (known_directive (run_front begins_name goes_on_name (drop start bytes.now))) }
{
    let Some(end) = begun_end(bytes, start, Class::Letter, Class::Name) else {
        return Err(Fault::BadCharacter);
    };
    if is_known(&bytes[start..end]) {
        Ok(end)
    } else {
        Err(Fault::UnknownDirective)
    }
}

/// The name is that of a directive that is read.
fn is_known(name: &[u8]) -> bool
    ensures { result ≡ is_known_name name.now }
{
    name == b"pragma".as_slice() || name == b"timescale".as_slice()
}

/// The end of a piece of a kind, from after its first byte.
fn piece_end(bytes: &[u8], start: usize, kind: Kind) -> Result<usize, Fault>
    requires { start < length bytes.now }
    ensures { result ≡ end_of (start + 1)
        (front_of (kind_of kind) (slice_index bytes.now start) (drop (start + 1) bytes.now)) }
{
    let following = start + 1;
    match kind {
        Kind::Space => Ok(run_end(bytes, following, Class::Space)),
        Kind::Comment => comment_end(bytes, following),
        Kind::Word => Ok(run_end(bytes, following, Class::Name)),
        Kind::SystemWord => system_end(bytes, following),
        Kind::Number => Ok(run_end(bytes, following, Class::Decimal)),
        Kind::Base => base_end(bytes, following),
        Kind::String => string_end(bytes, following),
        Kind::Operator => Ok(symbol_end(bytes, start)),
        Kind::Directive => directive_end(bytes, following),
    }
}

/// The kind and the end of the piece that begins at a byte, the longest.
pub fn piece_at(bytes: &[u8], start: usize) -> Result<(Kind, usize), Fault>
    requires { start < length bytes.now }
    ensures within { IfOk result (λ found. (start < found.1) × (found.1 ≤ length bytes.now)) }
    ensures ok { IfOk result (λ found. first_piece (drop start bytes.now)
        ≡ Ok (record { kind = kind_of found.0; bytes = slice_range bytes.now start found.1 })) }
    ensures fault { IfErr result (λ fault. first_piece (drop start bytes.now) ≡ Err fault) }
{
    let Some(kind) = kind_at(bytes, start) else {
        return Err(Fault::BadCharacter);
    };
    match piece_end(bytes, start, kind) {
        Ok(end) => Ok((kind, end)),
        Err(fault) => Err(fault),
    }
}

/// What a piece that is read is as a token; white space and comments are none.
pub fn token_kind(text: &str, start: usize, end: usize, kind: Kind) -> Option<TokenKind>
    requires within { (start < end) × (end ≤ length text.now) }
    requires piece { is_piece (kind_of kind) (slice_range text.now start end) ≡ true }
    ensures { result ≡ token_kind (kind_of kind) (slice_range text.now start end) }
{
    Some(match kind {
        Kind::Space | Kind::Comment => return None,
        Kind::Word => word_kind(&text[start..end]),
        Kind::SystemWord => TokenKind::SystemName,
        Kind::Number => TokenKind::Number,
        Kind::Base => TokenKind::Base,
        Kind::String => TokenKind::String,
        Kind::Operator => return symbol_kind(&text.as_bytes()[start..end]),
        Kind::Directive => TokenKind::Directive,
    })
}

/// A keyword, or else a name.
fn word_kind(word: &str) -> TokenKind
    ensures { result ≡ word_kind (keyword_of word.now) }
{
    match keyword_of(word) {
        Some(keyword) => TokenKind::Keyword(keyword),
        None => TokenKind::Name,
    }
}

/// What a symbol is.
fn symbol_kind(bytes: &[u8]) -> Option<TokenKind>
    ensures { result ≡ option_map token.Punctuator (symbol_of bytes.now) }
{
    match symbol(bytes) {
        Some(punctuator) => Some(TokenKind::Punctuator(punctuator)),
        None => None,
    }
}
