// Ranges, read from left to right.
ghost use Rattle.std.specs.Prelude.{◌≡◌, ◌≢◌, ◌<◌, ◌≤◌, ◌+◌, length, IfOk, IfErr};
ghost use Rattle.vp_parse_expr.specs.declared.reading.Stop.TheVariants.{NoMemory};
ghost use Rattle.vp_source.specs.ExprGrammar.{Range as RangeRead};
ghost use Rattle.vp_parse_expr.specs.Meaning.{IsRangeOf, NoRange};
ghost use Rattle.vp_parse_expr.specs.Placing.{bound_into, range_into};
ghost use Rattle.vp_parse_expr.specs.Stopping.{Gives};

use crate::reading::{Stop, skip, unexpected};
use vp_lex::Punctuator;
use vp_source::{Range, Symbol, SymbolKind};

/// The greatest size of a literal, in bits, and the greatest bound of a range.
pub const SIZE_LIMIT: u32 = 65_535;

/// A number that is at most so great, and what follows.
#[tactic(auto, using(crate::proofs::Told::told_stop), unfolding(crate::specs::Placing::bound_into, crate::specs::Placing::bound_by_into))]
pub fn bound(greatest: u32, symbols: &[Symbol]) -> Result<(u32, &[Symbol]), Stop>
    ensures read { Gives (λ found. (found.0, found.1.now)) result
        (bound_into greatest symbols.now) }
    ensures least { IfOk result (λ found. found.0 ≤ greatest) }
    ensures told { IfErr result (λ stop. stop ≢ NoMemory) }
    ensures shorter { IfOk result (λ found. length found.1.now + 1 ≡ length symbols.now) }
{
    let [first, rest @ ..] = symbols else {
        return Err(unexpected(symbols));
    };
    match first.kind {
        SymbolKind::Number(value) if value <= greatest => Ok((value, rest)),
        SymbolKind::Number(_) => Err(Stop::LeftOut(symbols.len())),
        _ => Err(unexpected(symbols)),
    }
}

/// The bounds of a range in brackets, and what follows.
#[tactic(auto, unfolding(crate::specs::Placing::range_into))]
pub fn bounds(symbols: &[Symbol]) -> Result<(Range, &[Symbol]), Stop>
    ensures read { Gives (λ found. (found.0, found.1.now)) result (range_into symbols.now) }
    ensures told { IfErr result (λ stop. stop ≢ NoMemory) }
    ensures shorter { IfOk result (λ found. length found.1.now < length symbols.now) }
{
    let rest = skip(SymbolKind::Punctuator(Punctuator::LeftBracket), symbols)?;
    let (msb, rest) = bound(SIZE_LIMIT, rest)?;
    let rest = skip(SymbolKind::Punctuator(Punctuator::Colon), rest)?;
    let (lsb, rest) = bound(msb, rest)?;
    let rest = skip(SymbolKind::Punctuator(Punctuator::RightBracket), rest)?;
    let range = Range {
        msb: msb as u16,
        lsb: lsb as u16,
    };
    Ok((range, rest))
}

/// A range in brackets, and what follows. Left out are one that ascends, and bounds above 65,535 (4.3.1).
pub fn range(symbols: &[Symbol]) -> Result<(Range, &[Symbol]), Stop>
    ensures read { Gives (λ found. (found.0, found.1.now)) result (range_into symbols.now) }
    ensures found { IfOk result (λ found. (r : RangeRead)
        × IsRangeOf symbols.now (found.0, found.1.now) r) }
    ensures none { IfErr result (λ _. NoRange symbols.now) }
    ensures told { IfErr result (λ stop. stop ≢ NoMemory) }
    ensures shorter { IfOk result (λ found. length found.1.now < length symbols.now) }
{
    bounds(symbols)
}
