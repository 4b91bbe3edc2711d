// The diagnostic of a fault of a policy.
ghost use Rattle.std.specs.Prelude.{◌≡◌, ◌++◌, IfOk};
ghost use Rattle.vp_design.specs.Rendering.{head_without_line};
ghost use Rattle.vp_design.specs.Policies.{IsPolicyDiagnostic};
ghost use Rattle.vp_design.specs.Words.{policy_words};
ghost use Rattle.vp_policy.specs.Faults.{code_of};

use crate::keys::place_text;
use crate::rendering::lineless;
use crate::words::policy_words;
use std::alloc::{AllocError, Global};
use vp_elab::Design;
use vp_json::{ReadError, read};
use vp_policy::PolicyError;
use vp_text::Text;

/// Where the bytes of a policy file are at fault, in words.
fn note(
    alloc: Global,
    bytes: &[u8],
    design: &Design,
    fault: &PolicyError,
) -> Result<String, AllocError> {
    match read(alloc, bytes) {
        Ok(file) => place_text(alloc, &file, design, fault),
        Err(ReadError::NotJson) => String::from_str(alloc, "in the file: no JSON text in UTF-8\n"),
        Err(ReadError::NoMemory) => Err(AllocError),
    }
}

/// The text of a fault without a line, and a note after it.
fn noted(alloc: Global, name: &str, code: u32, words: &str, note: &str) -> Result<Text, AllocError>
    ensures { IfOk result
        (λ text. text ≡ head_without_line name.now code words.now ++ note.now) }
{
    let mut text = lineless(alloc, name, code, words)?.into_string();
    text.push_str(note)?;
    Ok(Text::from_string(text))
}

/// The diagnostic of a fault of the bytes of a policy, whose file has this name, for a design: its head, and the key at which the file
/// is at fault.
pub fn policy_diagnostic(
    alloc: Global,
    name: &str,
    bytes: &[u8],
    design: &Design,
    fault: &PolicyError,
) -> Result<Text, AllocError>
    ensures { IfOk result (IsPolicyDiagnostic name.now fault.now) }
{
    let note = note(alloc, bytes, design, fault)?;
    noted(
        alloc,
        name,
        fault.code(),
        policy_words(fault),
        note.as_str(),
    )
}

/// The diagnostic of a fault of a policy, whose file has this name, without its key, for which nothing is read again: its head.
pub fn keyless_diagnostic(
    alloc: Global,
    name: &str,
    fault: &PolicyError,
) -> Result<Text, AllocError>
    ensures { IfOk result (λ text. text
        ≡ head_without_line name.now (code_of fault.now) (policy_words fault.now)) }
{
    lineless(alloc, name, fault.code(), policy_words(fault))
}
