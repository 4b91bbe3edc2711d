// The words of faults.
ghost use Rattle.std.specs.Prelude.{◌≡◌};
ghost use Rattle.vp_design.specs.Words.{design_words, expression_words, grammar_words, name_words, policy_words, pragma_words, token_words};

use crate::error::DesignError;
use vp_lex::LexError;
use vp_modules::ElabError;
use vp_parse::ParseError;
use vp_policy::PolicyError;
use vp_pragma::PragmaError;
use vp_resolve::ExprError;

/// The words of a fault of tokens (201 to 206).
fn token_words(fault: &LexError) -> &'static str
    ensures { result.now ≡ token_words fault.now }
{
    match fault {
        LexError::BadCharacter { .. } => "no token begins here",
        LexError::OpenComment { .. } => "the comment does not end",
        LexError::OpenString { .. } => "the string does not end on its line",
        LexError::UnknownDirective { .. } => "only `pragma and `timescale are read here",
        LexError::TimescaleDiffers { .. } => "the timescale is not the first one",
        LexError::NoMemory => "no memory",
    }
}

/// The words of a fault of envelopes (301 to 310).
fn pragma_words(fault: &PragmaError) -> &'static str
    ensures { result.now ≡ pragma_words fault.now }
{
    match fault {
        PragmaError::NestedBegin { .. } => "an envelope begins within an envelope",
        PragmaError::EndWithoutBegin { .. } => "an envelope ends that did not begin",
        PragmaError::OpenEnvelope { .. } => "the envelope does not end",
        PragmaError::Unbalanced { .. } =>
            "an envelope may not begin or end here, but between items",
        PragmaError::ViewportOutside { .. } => "a viewport outside of every envelope",
        PragmaError::BadAccess { .. } =>
            "the rights are list, read, watch, put and race, joined by +",
        PragmaError::NeedsDecryption { .. } => "encrypted envelopes are not read",
        PragmaError::TooMany { .. } => "more than 255 envelopes",
        PragmaError::BadPragma { .. } => "bad pragma",
        PragmaError::NoMemory => "no memory",
    }
}

/// The words of a fault of the grammar (401 to 404).
fn grammar_words(fault: &ParseError) -> &'static str
    ensures { result.now ≡ grammar_words fault.now }
{
    match fault {
        ParseError::Syntax { .. } => "syntax error",
        ParseError::LeftOut { .. } => "left out",
        ParseError::TooDeep { .. } => "nested more than 64 deep",
        ParseError::NoMemory => "no memory",
    }
}

/// The words of a fault of names (501 to 510).
fn name_words(fault: &ElabError) -> &'static str
    ensures { result.now ≡ name_words fault.now }
{
    match fault {
        ElabError::Duplicate { .. } => "the name is declared already",
        ElabError::UnknownModule { .. } => "no such module",
        ElabError::Recursive { .. } => "the module instantiates itself",
        ElabError::Undeclared { .. } => "not declared",
        ElabError::BadTarget { .. } =>
            "a procedure assigns a reg, and assign a net that is no input",
        ElabError::BadConnection { .. } => "no port that can be connected so",
        ElabError::MultipleDrivers { .. } => "the net has a driver already",
        ElabError::TooManyObjects => "too many objects",
        ElabError::ViewportUnknown { .. } => "no item of this name for a viewport",
        ElabError::NoMemory => "no memory",
    }
}

/// The words of a fault of expressions (601 to 604).
fn expression_words(fault: &ExprError) -> &'static str
    ensures { result.now ≡ expression_words fault.now }
{
    match fault {
        ExprError::TooWide { .. } => "wider than 64 bits",
        ExprError::SignedCompare { .. } => "comparison of signed operands",
        ExprError::BadSelect { .. } => "a select that is not within its range",
        ExprError::NoMemory => "no memory",
    }
}

/// The words of a fault of a design.
pub fn design_words(fault: &DesignError) -> &'static str
    ensures { result.now ≡ design_words fault.now }
{
    match fault {
        DesignError::Tokens(error) => token_words(error),
        DesignError::Envelopes(error) => pragma_words(error),
        DesignError::Source(error) => grammar_words(error),
        DesignError::Names(error) => name_words(error),
        DesignError::Expressions(error) => expression_words(error),
        DesignError::TooLong => "a design has at most 1,048,576 bytes",
        DesignError::NoMemory => "no memory",
    }
}

/// The words of a fault of a policy (901 to 905).
pub fn policy_words(fault: &PolicyError) -> &'static str
    ensures { result.now ≡ policy_words fault.now }
{
    match fault {
        PolicyError::BadPolicy => "no policy",
        PolicyError::DuplicateUser => "two users of one name",
        PolicyError::NoSuchEnvelope => "the design has no such envelope",
        PolicyError::TooManyUsers => "more than 256 users",
        PolicyError::NoMemory => "no memory",
    }
}
