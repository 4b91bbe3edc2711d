// Why a construct is left out.
ghost use Rattle.std.specs.Prelude.{◌≡◌, map, string_bytes, IfOk};
ghost use Rattle.vp_lex.specs.Texts.{text_of};
ghost use Rattle.vp_design.specs.Tables.{other_reason, reasons, IsLeftOutNote};
ghost use Rattle.vp_design.specs.LeftOut.{left_out_note, reason_in};

use crate::expected::quoted;
use std::alloc::{AllocError, Global};
use vp_lex::Token;
use vp_text::Text;

const NO_SUBROUTINES: &str = "there are no subroutines; write the statements where they are called";

const NO_GATES: &str = "there are no gates; write an assign with an operator";

const NO_TYPES: &str = "a value is an unsigned vector; declare a reg with a range";

const NO_PARAMETERS: &str = "a constant is a localparam, and a module has no parameters";

const NO_GENERATE: &str = "instances are written one by one";

const NO_FORCE: &str = "a value comes from its driver or its procedures alone";

const NO_OTHER_NETS: &str = "a net is a wire with one driver";

const NO_FORK: &str = "write another initial or always beside this one";

const NO_TIMING: &str = "no delays of paths are simulated; write # before a statement";

const NO_DIVISION: &str = "there is no division, remainder or power; use + - * << >>";

const NO_SIGNED_SHIFT: &str = "values are unsigned; use << and >>";

const NO_EVENTS: &str = "there are no named events; wait for a change of a reg";

/// Why it is left out what the table does not have.
const OTHERWISE: &str = "docs/FORMATS.md, \"Grammar\", says what is read in its place";

/// The words that are left out, with their reasons.
const REASONS: [(&str, &str); 45] = [
    ("task", NO_SUBROUTINES),
    ("function", NO_SUBROUTINES),
    ("and", NO_GATES),
    ("nand", NO_GATES),
    ("or", NO_GATES),
    ("nor", NO_GATES),
    ("not", NO_GATES),
    ("xor", NO_GATES),
    ("xnor", NO_GATES),
    ("buf", NO_GATES),
    ("primitive", NO_GATES),
    ("signed", NO_TYPES),
    ("integer", NO_TYPES),
    ("time", NO_TYPES),
    ("real", NO_TYPES),
    ("realtime", NO_TYPES),
    ("parameter", NO_PARAMETERS),
    ("defparam", NO_PARAMETERS),
    ("generate", NO_GENERATE),
    ("genvar", NO_GENERATE),
    ("force", NO_FORCE),
    ("release", NO_FORCE),
    ("deassign", NO_FORCE),
    ("assign", NO_FORCE),
    ("tri", NO_OTHER_NETS),
    ("supply0", NO_OTHER_NETS),
    ("supply1", NO_OTHER_NETS),
    ("fork", NO_FORK),
    ("join", NO_FORK),
    ("specify", NO_TIMING),
    ("/", NO_DIVISION),
    ("%", NO_DIVISION),
    ("**", NO_DIVISION),
    ("<<<", NO_SIGNED_SHIFT),
    (">>>", NO_SIGNED_SHIFT),
    ("event", NO_EVENTS),
    ("->", NO_EVENTS),
    ("inout", "a port is an input or an output"),
    ("repeat", "write for or while"),
    (
        "disable",
        "write a condition for what is not to be executed",
    ),
    ("casex", "write case or casez"),
    (
        "$display",
        "of the system tasks there is $finish; the lines of a script ask for values",
    ),
    (
        "$monitor",
        "of the system tasks there is $finish; the lines of a script watch values",
    ),
    ("$stop", "of the system tasks there is $finish"),
    (
        "$time",
        "of the system tasks there is $finish; the lines of a script ask for the time",
    ),
];

/// What stands beside a word in a table; another text where the word is not there.
fn reason_in(
    table: &[(&'static str, &'static str)],
    otherwise: &'static str,
    word: &str,
) -> &'static str
    ensures { result.now ≡ reason_in (map (λ c. (c.0.now, c.1.now)) table.now)
        otherwise.now word.now }
{
    for (entry, reason) in table {
        if word == *entry {
            return reason;
        }
    }
    otherwise
}

/// Why a word is left out.
fn reason_of(word: &str) -> &'static str
    ensures { result.now ≡ reason_in reasons other_reason word.now }
{
    reason_in(REASONS.as_slice(), OTHERWISE, word)
}

/// The note on a word that is left out, for a reason.
fn note(alloc: Global, word: &str, reason: &str) -> Result<Text, AllocError>
    ensures { IfOk result (λ note. note ≡ left_out_note word.now reason.now) }
{
    let word = quoted(alloc, word)?;
    Ok(Text::from_string(format!(in alloc; "{word} is Verilog that is left out here: {reason}\n")?))
}

/// The note at a token that is left out.
pub fn left_out_note(alloc: Global, text: &str, token: Token) -> Result<Text, AllocError>
    ensures { IfOk result (IsLeftOutNote (text_of text.now token)) }
{
    let word = token.text(text);
    note(alloc, word, reason_of(word))
}
