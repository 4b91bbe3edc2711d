ghost use Rattle.std.specs.Result.{result_err};
ghost use Rattle.std.specs.Prelude.{◌≡◌, ℕ, suc, ◌<◌, ◌≤◌, ◌+◌, ◌==◌, ◌&&◌, not, drop, length, List, slice_index_or, IfErr, IfNone, IfOk, IfSome, MatchResult, OnOk};
ghost use Rattle.vp_lex.specs.declared.token.TheConstants.{TEXT_LIMIT};
ghost use Rattle.vp_lex.specs.declared.token.Token.{Token};
ghost use Rattle.vp_lex.specs.Strings.{string_value};
ghost use Rattle.vp_lex.specs.Texts.{text_of};
ghost use Rattle.vp_pragma.specs.declared.pragma_effect.PragmaEffect.{PragmaEffect};
ghost use Rattle.vp_pragma.specs.EnvelopesOf.{AreEnvelopes, IsFaultOf, after_effects, at_start, envelopes_after, same_module};
ghost use Rattle.vp_pragma.specs.Pragmas.{before_effects, begins_line, is_pragma, on_line, pragma_line};
ghost use Rattle.vp_pragma.specs.LineReading.{effects_from, effects_of_text, directive_effects, line_effects, named_effects, all_effects};
ghost use Rattle.vp_pragma.specs.declared.error.PragmaError.TheVariants.{NoMemory};
ghost use Rattle.vp_text.specs.Refusals.{MayExplain};
ghost use Rattle.vp_pragma.specs.Reading.{HasPlaces, HasRoom, IsBefore, IsLine, after_all, after_left, after_one, placed, progress_of};
ghost use Rattle.vp_pragma.specs.Surroundings.{is_before_else, is_free_around};

use crate::envelope::{Envelope, Envelopes};
use crate::error::PragmaError;
use crate::line::{Rest, expression_at, is_comma, is_word, run_of, split};
use crate::pragma_effect::{Pragma, PragmaEffect, ViewportStrings, effect_of};
use crate::surroundings::{Surroundings, is_before_else};
use crate::viewport::{Viewport, read_view};
use std::alloc::{AllocError, Global};
use vp_lex::{Token, string_value};
use vp_text::{SharedText, Text};

/// The greatest number of envelopes.
pub const ENVELOPE_LIMIT: usize = 255;

/// An envelope that has begun.
#[derive(Drop)]
pub struct Open {
    begin: u32,
    line: u32,
    module: Option<u32>,
    author: SharedText,
}

/// What has been read of a text's pragmas.
#[derive(Drop)]
pub struct Reading {
    closed: Vec<Envelope>,
    open: Option<Open>,
    /// The author in force; empty where there is none.
    author: SharedText,
    viewports: Vec<Viewport>,
}

/// The line of a pragma, and what stands around it.
#[derive(Clone, Copy)]
pub struct Line<'a> {
    text: &'a str,
    tokens: &'a [Token],
    /// The place of its directive.
    place: usize,
    directive: Token,
    /// An envelope may begin or end here.
    free: bool,
    module: Option<u32>,
}

/// What stands before a token.
#[derive(Clone, Copy)]
pub struct Before {
    around: Surroundings,
    /// The line of the pragma on which the token before stands.
    line: Option<u32>,
    /// The grammar's next token is `else`. It is reported on the line of a pragma alone.
    before_else: bool,
}

/// The author that a string names. Takes memory.
fn author_of(alloc: Global, text: &str, string: Token) -> Result<SharedText, AllocError>
    ensures { IfOk result (λ author. author ≡ string_value (text_of text.now string)) }
{
    let name = string_value(alloc, string.text(text))?;
    SharedText::new(alloc, Text::from_string(name))
}

/// Two places stand in one module, or both outside of all modules.
fn same_module(left: Option<u32>, right: Option<u32>) -> bool
    ensures { result ≡ same_module left right }
{
    match (left, right) {
        (None, None) => true,
        (Some(left), Some(right)) => left == right,
        _ => false,
    }
}

/// Opens an envelope at the place of its `begin`.
fn begin(
    alloc: Global,
    reading: &mut Reading,
    line: Line<'_>,
    place: u32,
) -> Result<(), PragmaError>
    requires line { IsLine line }
    requires room { HasRoom reading.old }
    ensures room { OnOk result (HasRoom reading.new) }
    ensures begun { let after = after_one line.entry reading.old (PragmaEffect.Begins place)
        in MatchResult result (λ _. after ≡ Ok (progress_of reading.new))
        (MayExplain NoMemory (result_err after)) }
{
    let number = line.directive.line;
    if reading.open.is_some() {
        return Err(PragmaError::NestedBegin { line: number });
    }
    if !line.free {
        return Err(PragmaError::Unbalanced { line: number });
    }
    if reading.closed.len() >= ENVELOPE_LIMIT {
        return Err(PragmaError::TooMany { line: number });
    }
    let author = reading.author.try_clone()?;
    reading.open = Some(Open {
        begin: place,
        line: number,
        module: line.module,
        author,
    });
    Ok(())
}

/// Closes the open envelope at the place of its `end`.
fn end(reading: &mut Reading, line: Line<'_>, place: u32) -> Result<(), PragmaError>
    requires line { IsLine line }
    requires room { HasRoom reading.old }
    ensures room { OnOk result (HasRoom reading.new) }
    ensures ended { let after = after_one line.entry reading.old (PragmaEffect.Ends place)
        in MatchResult result (λ _. after ≡ Ok (progress_of reading.new))
        (MayExplain NoMemory (result_err after)) }
{
    let number = line.directive.line;
    let Some(open) = reading.open.take() else {
        return Err(PragmaError::EndWithoutBegin { line: number });
    };
    if !line.free || !same_module(line.module, open.module) {
        return Err(PragmaError::Unbalanced { line: number });
    }
    reading.closed.push(Envelope {
        begin: open.begin,
        end: place,
        author: open.author,
    })?;
    Ok(())
}

/// Opens a viewport in the open envelope.
fn open_view(
    alloc: Global,
    reading: &mut Reading,
    line: Line<'_>,
    view: Option<ViewportStrings>,
) -> Result<(), PragmaError>
    requires line { IsLine line }
    requires room { HasRoom reading.old }
    ensures room { OnOk result (HasRoom reading.new) }
    ensures opened { let after = after_one line.entry reading.old (PragmaEffect.Views view)
        in MatchResult result (λ _. after ≡ Ok (progress_of reading.new))
        (MayExplain NoMemory (result_err after)) }
{
    let number = line.directive.line;
    if reading.open.is_none() {
        return Err(PragmaError::ViewportOutside { line: number });
    }
    let Some(view) = view else {
        return Err(PragmaError::BadPragma { line: number });
    };
    let envelope = (reading.closed.len() + 1) as u8;
    reading
        .viewports
        .push(read_view(alloc, line.text, envelope, number, view)?)?;
    Ok(())
}

/// Does what an expression of a pragma does.
fn apply(
    alloc: Global,
    reading: &mut Reading,
    line: Line<'_>,
    effect: PragmaEffect,
) -> Result<(), PragmaError>
    requires line { IsLine line }
    requires room { HasRoom reading.old }
    ensures room { OnOk result (HasRoom reading.new) }
    ensures done { let after = after_one line.entry reading.old effect
        in MatchResult result (λ _. after ≡ Ok (progress_of reading.new))
        (MayExplain NoMemory (result_err after)) }
{
    match effect {
        PragmaEffect::Begins(place) => begin(alloc, reading, line, place),
        PragmaEffect::Ends(place) => end(reading, line, place),
        PragmaEffect::Names(string) => {
            reading.author = author_of(alloc, line.text, string)?;
            Ok(())
        }
        PragmaEffect::Forgets => {
            reading.author = SharedText::empty();
            Ok(())
        }
        PragmaEffect::Views(view) => open_view(alloc, reading, line, view),
        PragmaEffect::Encrypted => Err(PragmaError::NeedsDecryption {
            line: line.directive.line,
        }),
        PragmaEffect::Bad => Err(PragmaError::BadPragma {
            line: line.directive.line,
        }),
    }
}

/// Does what an expression does, if it does something.
#[tactic(auto, using(crate::proofs::Refusals::explains_more))]
fn apply_any(
    alloc: Global,
    reading: &mut Reading,
    line: Line<'_>,
    effect: Option<PragmaEffect>,
) -> Result<(), PragmaError>
    requires line { IsLine line }
    requires room { HasRoom reading.old }
    ensures room { OnOk result (HasRoom reading.new) }
    ensures done { OnOk result ((ds : List PragmaEffect)
        → after_all line.entry reading.old (before_effects effect ds)
        ≡ after_all line.entry reading.new ds) }
    ensures fault { IfErr result (λ e. (ds : List PragmaEffect)
        → MayExplain NoMemory
        (result_err (after_all line.entry reading.old (before_effects effect ds))) e) }
{
    match effect {
        Some(effect) => apply(alloc, reading, line, effect),
        None => Ok(()),
    }
}

/// Applies the first expression of a pragma's tokens; what follows its comma, if more is to follow.
fn apply_first<'a>(
    alloc: Global,
    reading: &mut Reading,
    line: Line<'_>,
    pragma: Pragma,
    rest: Rest<'a>,
) -> Result<Option<Rest<'a>>, PragmaError>
    requires line { IsLine line }
    requires places { HasPlaces rest }
    requires room { HasRoom reading.old }
    ensures room { OnOk result (HasRoom reading.new) }
    ensures places { IfOk result (λ next. IfSome next HasPlaces) }
    ensures last { IfOk result (λ next. IfNone next
        ((n : ℕ) → after_all line.entry reading.old
        (effects_from pragma line.entry.text.now (suc n) (placed rest.entry))
        ≡ Ok (progress_of reading.new))) }
    ensures more { IfOk result (λ next. IfSome next
        (λ r. (n : ℕ) → after_all line.entry reading.old
        (effects_from pragma line.entry.text.now (suc n) (placed rest.entry))
        ≡ after_all line.entry reading.new
        (effects_from pragma line.entry.text.now n (placed r)))) }
    ensures fault { IfErr result (λ e. (n : ℕ)
        → MayExplain NoMemory (result_err (after_all line.entry reading.old
        (effects_from pragma line.entry.text.now (suc n) (placed rest.entry)))) e) }
{
    let number = line.directive.line;
    let Some((expression, remainder)) = expression_at(rest) else {
        return Err(PragmaError::BadPragma { line: number });
    };
    apply_any(
        alloc,
        reading,
        line,
        effect_of(pragma, line.text, expression),
    )?;
    let Some((comma, next)) = split(remainder) else {
        return Ok(None);
    };
    if !is_comma(comma) {
        return Err(PragmaError::BadPragma { line: number });
    }
    Ok(Some(next))
}

/// Applies the expressions of a pragma.
fn apply_all(
    alloc: Global,
    reading: &mut Reading,
    line: Line<'_>,
    pragma: Pragma,
    rest: Rest<'_>,
) -> Result<(), PragmaError>
    requires line { IsLine line }
    requires places { HasPlaces rest }
    requires room { HasRoom reading.old }
    ensures room { OnOk result (HasRoom reading.new) }
    ensures done { let after = after_all line.entry reading.old
        (all_effects pragma line.entry.text.now (placed rest.entry))
        in MatchResult result (λ _. after ≡ Ok (progress_of reading.new))
        (MayExplain NoMemory (result_err after)) }
{
    let count = rest.tokens.len();
    if count == 0 {
        return Ok(());
    }
    // Each expression has a token at least.
    let mut left = rest;
    for _ in 0..count {
        match apply_first(alloc, reading, line, pragma, left)? {
            Some(next) => left = next,
            None => return Ok(()),
        }
    }
    Err(PragmaError::BadPragma {
        line: line.directive.line,
    })
}

/// Reads the pragma of a name, after the name.
fn read_named(
    alloc: Global,
    reading: &mut Reading,
    line: Line<'_>,
    name: &str,
    rest: Rest<'_>,
) -> Result<(), PragmaError>
    requires line { IsLine line }
    requires places { HasPlaces rest }
    requires room { HasRoom reading.old }
    ensures room { OnOk result (HasRoom reading.new) }
    ensures done { let after = after_all line.entry reading.old
        (named_effects line.entry.text.now name.now (placed rest.entry))
        in MatchResult result (λ _. after ≡ Ok (progress_of reading.new))
        (MayExplain NoMemory (result_err after)) }
{
    match name {
        "protect" => apply_all(alloc, reading, line, Pragma::Protect, rest),
        "reset" => apply_all(alloc, reading, line, Pragma::Reset, rest),
        "resetall" => apply(alloc, reading, line, PragmaEffect::Forgets),
        _ => Ok(()),
    }
}

/// Reads the line of a pragma.
fn read_line(alloc: Global, reading: &mut Reading, line: Line<'_>) -> Result<(), PragmaError>
    requires line { IsLine line }
    requires place { line.place < length line.tokens.now }
    requires few { length line.tokens.now ≤ TEXT_LIMIT }
    requires room { HasRoom reading.old }
    ensures room { OnOk result (HasRoom reading.new) }
    ensures done { let after = after_all line.entry reading.old
        (line_effects line.entry.text.now
        (on_line line.entry.place line.entry.directive
        (drop (line.entry.place + 1) line.entry.tokens.now)))
        in MatchResult result (λ _. after ≡ Ok (progress_of reading.new))
        (MayExplain NoMemory (result_err after)) }
{
    let number = line.directive.line;
    match split(run_of(line.tokens, number, line.place + 1)) {
        Some((name, rest)) if is_word(name) => {
            read_named(alloc, reading, line, name.text(line.text), rest)
        }
        _ => Err(PragmaError::BadPragma { line: number }),
    }
}

/// The token is the pragma directive, and not the timescale directive.
fn is_pragma(text: &str, token: Token) -> bool
    ensures { result ≡ is_pragma text.now token }
{
    token.text(text) == "`pragma"
}

/// Reads the line of a directive, if it is a pragma.
fn read_directive(alloc: Global, reading: &mut Reading, line: Line<'_>) -> Result<(), PragmaError>
    requires line { IsLine line }
    requires place { line.place < length line.tokens.now }
    requires few { length line.tokens.now ≤ TEXT_LIMIT }
    requires room { HasRoom reading.old }
    ensures room { OnOk result (HasRoom reading.new) }
    ensures done { let after = after_all line.entry reading.old
        (directive_effects line.entry.text.now line.entry.directive
        (on_line line.entry.place line.entry.directive
        (drop (line.entry.place + 1) line.entry.tokens.now)))
        in MatchResult result (λ _. after ≡ Ok (progress_of reading.new))
        (MayExplain NoMemory (result_err after)) }
{
    if is_pragma(line.text, line.directive) {
        read_line(alloc, reading, line)
    } else {
        Ok(())
    }
}

/// A token is the directive of a pragma, where the token before it stands on this pragma's line or on none.
fn begins_line(before: Option<u32>, token: Token) -> bool
    ensures { result ≡ begins_line before token }
{
    match before {
        Some(line) => token.directive && token.line != line,
        None => token.directive,
    }
}

/// The grammar's next token from a place on is `else`, as it is reported before the place if that is on a pragma's line.
fn else_from(tokens: &[Token], place: usize, before: Before) -> bool
    requires { IsBefore tokens.now place before }
    ensures { result ≡ is_before_else tokens.now place }
{
    match before.line {
        Some(_) => before.before_else,
        None => is_before_else(tokens, place),
    }
}

/// What stands before the token after the one at a place.
fn step(tokens: &[Token], place: usize, before: Before) -> Before
    requires place { place < length tokens.now }
    requires few { length tokens.now ≤ TEXT_LIMIT }
    requires before { IsBefore tokens.now place before }
    ensures before { IsBefore tokens.now (place + 1) result }
    ensures line { (d : Token) → result.line ≡ pragma_line (slice_index_or tokens.now place d) }
{
    let token = tokens[place];
    if token.directive {
        Before {
            around: before.around,
            line: Some(token.line),
            before_else: else_from(tokens, place, before),
        }
    } else {
        Before {
            around: before.around.after_token(token.kind),
            line: None,
            before_else: false,
        }
    }
}

/// On the line of a pragma, an envelope may begin or end.
fn is_free(before: Before) -> bool
    ensures { result ≡ (is_free_around before.around && not before.before_else) }
{
    before.around.is_free() && !before.before_else
}

/// Reads the line of the pragma whose directive stands at a place, if one does.
fn read_token(
    alloc: Global,
    reading: &mut Reading,
    text: &str,
    tokens: &[Token],
    place: usize,
    before: Option<u32>,
    before_next: Before,
) -> Result<(), PragmaError>
    requires place { place < length tokens.now }
    requires few { length tokens.now ≤ TEXT_LIMIT }
    requires before_next { IsBefore tokens.now (place + 1) before_next }
    requires line { (d : Token) → before_next.line
        ≡ pragma_line (slice_index_or tokens.now place d) }
    requires room { HasRoom reading.old }
    ensures room { OnOk result (HasRoom reading.new) }
    ensures done { let after = after_left text.now tokens.now reading.old before place
        in MatchResult result (λ _. after
        ≡ after_left text.now tokens.now reading.new before_next.line (place + 1))
        (MayExplain NoMemory (result_err after)) }
{
    let directive = tokens[place];
    if !begins_line(before, directive) {
        return Ok(());
    }
    let line = Line {
        text,
        tokens,
        place,
        directive,
        free: is_free(before_next),
        module: before_next.around.module(),
    };
    read_directive(alloc, reading, line)
}

/// What the pragmas of a text come to.
fn read(alloc: Global, text: &str, tokens: &[Token]) -> Result<Reading, PragmaError>
    requires { length tokens.now ≤ TEXT_LIMIT }
    ensures room { IfOk result HasRoom }
    ensures done { let after = after_effects text.now tokens.now (Ok at_start)
        (effects_of_text text.now tokens.now)
        in MatchResult result (λ reading. after ≡ Ok (progress_of reading))
        (MayExplain NoMemory (result_err after)) }
{
    let mut reading = Reading {
        closed: Vec::new(alloc),
        open: None,
        author: SharedText::empty(),
        viewports: Vec::new(alloc),
    };
    let mut before = Before {
        around: Surroundings::new(),
        line: None,
        before_else: false,
    };
    for place in 0..tokens.len() {
        let before_next = step(tokens, place, before);
        read_token(
            alloc,
            &mut reading,
            text,
            tokens,
            place,
            before.line,
            before_next,
        )?;
        before = before_next;
    }
    Ok(reading)
}

/// The envelopes of a reading at the end of its text.
fn ended(alloc: Global, reading: Reading) -> Result<Envelopes, PragmaError>
    requires { HasRoom reading }
    ensures { let after = envelopes_after (Ok (progress_of reading))
        in MatchResult result (λ envelopes. after ≡ Ok envelopes)
        (MayExplain NoMemory (result_err after)) }
{
    let Reading {
        closed,
        open,
        viewports,
        ..
    } = reading;
    match open {
        Some(open) => Err(PragmaError::OpenEnvelope { line: open.line }),
        None => Ok(Envelopes::new(alloc, closed, viewports)?),
    }
}

/// The envelopes of a text and its viewports, of its tokens; or the first fault of its pragmas (301, 302, 304 to 309;
/// 303 last), or out of memory (310).
pub fn envelopes(alloc: Global, text: &str, tokens: &[Token]) -> Result<Envelopes, PragmaError>
    requires { length tokens.now ≤ TEXT_LIMIT }
    ensures ok { IfOk result (λ envelopes. AreEnvelopes text.now tokens.now (Ok envelopes)) }
    ensures fault { IfErr result (λ error. IsFaultOf text.now tokens.now error) }
{
    ended(alloc, read(alloc, text, tokens)?)
}
