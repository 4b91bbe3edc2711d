// The diagnostic of a fault of no file.
ghost use Rattle.std.specs.Prelude.{◌≡◌, IfOk};
ghost use Rattle.vp_design.specs.Rendering.{file_text, plain_text};

use std::alloc::{AllocError, Global};
use vp_text::Text;

/// The diagnostic of a fault that stands in no file: its number and its words.
pub fn plain_diagnostic(alloc: Global, code: u32, words: &str) -> Result<Text, AllocError>
    ensures { IfOk result (λ rendered. rendered ≡ plain_text code words.now) }
{
    Ok(Text::from_string(format!(in alloc; "fault {code}: {words}\n")?))
}

/// The diagnostic of a fault of a file as a whole: the file's name, the number and the words.
pub fn file_diagnostic(
    alloc: Global,
    name: &str,
    code: u32,
    words: &str,
) -> Result<Text, AllocError>
    ensures { IfOk result (λ rendered. rendered ≡ file_text name.now code words.now) }
{
    Ok(Text::from_string(format!(in alloc; "{name}: fault {code}: {words}\n")?))
}
