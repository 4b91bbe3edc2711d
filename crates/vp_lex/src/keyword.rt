ghost use Rattle.std.specs.Prelude.{◌≡◌};
ghost use Rattle.vp_lex.specs.Words.{keyword_of, found_in};

/// A keyword of IEEE Std 1364-2005, annex B, that this profile reserves; the others of the annex are names here.
#[derive(Clone, Copy, Debug, PartialEq, Eq)]
pub enum Keyword {
    Module,
    Endmodule,
    Input,
    Output,
    Wire,
    Reg,
    Localparam,
    Assign,
    Initial,
    Always,
    Begin,
    End,
    If,
    Else,
    Case,
    Casez,
    Endcase,
    Default,
    While,
    For,
    Forever,
    Wait,
    Posedge,
    Negedge,
    Or,
    /// `casex`, which this profile leaves out; it opens a case as `case` does.
    Casex,
    /// Another keyword that this profile reserves and leaves out.
    LeftOut,
}

/// The keywords of two letters and digits.
const OF_TWO: [(&str, Keyword); 2] = [("if", Keyword::If), ("or", Keyword::Or)];

/// The keywords of three letters and digits.
const OF_THREE: [(&str, Keyword); 9] = [
    ("reg", Keyword::Reg),
    ("end", Keyword::End),
    ("for", Keyword::For),
    ("tri", Keyword::LeftOut),
    ("and", Keyword::LeftOut),
    ("nor", Keyword::LeftOut),
    ("not", Keyword::LeftOut),
    ("xor", Keyword::LeftOut),
    ("buf", Keyword::LeftOut),
];

/// The keywords of four letters and digits.
const OF_FOUR: [(&str, Keyword); 11] = [
    ("wire", Keyword::Wire),
    ("else", Keyword::Else),
    ("case", Keyword::Case),
    ("wait", Keyword::Wait),
    ("task", Keyword::LeftOut),
    ("time", Keyword::LeftOut),
    ("real", Keyword::LeftOut),
    ("fork", Keyword::LeftOut),
    ("join", Keyword::LeftOut),
    ("nand", Keyword::LeftOut),
    ("xnor", Keyword::LeftOut),
];

/// The keywords of five letters and digits.
const OF_FIVE: [(&str, Keyword); 8] = [
    ("input", Keyword::Input),
    ("begin", Keyword::Begin),
    ("casez", Keyword::Casez),
    ("while", Keyword::While),
    ("casex", Keyword::Casex),
    ("inout", Keyword::LeftOut),
    ("event", Keyword::LeftOut),
    ("force", Keyword::LeftOut),
];

/// The keywords of six letters and digits.
const OF_SIX: [(&str, Keyword); 7] = [
    ("module", Keyword::Module),
    ("output", Keyword::Output),
    ("assign", Keyword::Assign),
    ("always", Keyword::Always),
    ("genvar", Keyword::LeftOut),
    ("signed", Keyword::LeftOut),
    ("repeat", Keyword::LeftOut),
];

/// The keywords of seven letters and digits.
const OF_SEVEN: [(&str, Keyword); 12] = [
    ("initial", Keyword::Initial),
    ("endcase", Keyword::Endcase),
    ("default", Keyword::Default),
    ("forever", Keyword::Forever),
    ("posedge", Keyword::Posedge),
    ("negedge", Keyword::Negedge),
    ("specify", Keyword::LeftOut),
    ("integer", Keyword::LeftOut),
    ("supply0", Keyword::LeftOut),
    ("supply1", Keyword::LeftOut),
    ("disable", Keyword::LeftOut),
    ("release", Keyword::LeftOut),
];

/// The keywords of eight letters and digits.
const OF_EIGHT: [(&str, Keyword); 5] = [
    ("defparam", Keyword::LeftOut),
    ("generate", Keyword::LeftOut),
    ("function", Keyword::LeftOut),
    ("realtime", Keyword::LeftOut),
    ("deassign", Keyword::LeftOut),
];

/// The keywords of nine letters and digits.
const OF_NINE: [(&str, Keyword); 3] = [
    ("endmodule", Keyword::Endmodule),
    ("parameter", Keyword::LeftOut),
    ("primitive", Keyword::LeftOut),
];

/// The keywords of ten letters and digits.
const OF_TEN: [(&str, Keyword); 1] = [("localparam", Keyword::Localparam)];

/// The keyword that a word is. Its length says in which table it may stand.
pub fn keyword_of(word: &str) -> Option<Keyword>
    ensures { result ≡ keyword_of word.now }
{
    if word.len() < 2 || word.len() > 10 {
        return None;
    }
    match word.len() {
        2 => beside(&OF_TWO, word),
        3 => beside(&OF_THREE, word),
        4 => beside(&OF_FOUR, word),
        5 => beside(&OF_FIVE, word),
        6 => beside(&OF_SIX, word),
        7 => beside(&OF_SEVEN, word),
        8 => beside(&OF_EIGHT, word),
        9 => beside(&OF_NINE, word),
        _ => beside(&OF_TEN, word),
    }
}

/// The keyword beside a word in a table.
fn beside(table: &[(&str, Keyword)], word: &str) -> Option<Keyword>
    ensures { result ≡ found_in table.now word.now }
{
    for (entry, keyword) in table {
        if word == *entry {
            return Some(*keyword);
        }
    }
    None
}
