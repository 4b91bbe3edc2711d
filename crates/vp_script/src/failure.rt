// What a run is refused for, in words.
ghost use Rattle.std.specs.Prelude.{◌≡◌, [], MatchOption, MatchResult};
ghost use Rattle.vp_script.specs.Failure.{HasDesignText, HasNoDesignText, IsBundleDiagnostic, IsOf, IsToldOr, words_of, words_of_lines};

use crate::bundle::cut;
use crate::error::ServeFault;
use crate::script::checked;
use crate::sources::text_of;
use std::alloc::{AllocError, Global};
use std::sync::Arc;
use vp_design::{
    design_diagnostic, file_diagnostic, keyless_diagnostic, plain_diagnostic, policy_diagnostic,
};
use vp_expr::Checked;
use vp_policy::PolicyError;
use vp_text::Text;
use vp_wire::WireError;

/// The name under which the parts of a bundle are reported.
pub const STANDARD_INPUT: &str = "standard input";

/// The number and the line of a fault, and its diagnostic, which is empty where there is no memory for it.
#[derive(Drop)]
pub struct Failure {
    /// The number of the fault.
    pub code: u32,
    /// The line of the design at fault, from 1; 0 where none is known.
    pub line: u32,
    /// Lines, each with its newline.
    pub diagnostic: Text,
}

impl Failure {
    ghost use Rattle.std.specs.Prelude.{◌≡◌};
    ghost use Rattle.vp_design.specs.Rendering.{file_text, plain_text};
    ghost use Rattle.vp_script.specs.Faults.{code_of};
    ghost use Rattle.vp_script.specs.Failure.{IsOf, IsToldOr, words_of};

    /// A fault, by its number and its words, that stands in no file and at no line.
    pub fn plain(alloc: Global, code: u32, words: &str) -> Failure
        ensures code { result.code ≡ code }
        ensures line { result.line ≡ 0 }
        ensures diagnostic { IsToldOr (λ text. text ≡ plain_text code words.now) result.diagnostic }
    {
        Failure {
            code,
            line: 0,
            diagnostic: or_empty(alloc, plain_diagnostic(alloc, code, words)),
        }
    }

    /// A fault with its diagnostic, or without where there was no memory for it.
    fn of(alloc: Global, fault: &ServeFault, diagnostic: Result<Text, AllocError>) -> Failure
        ensures fault { IsOf fault.now result }
        ensures diagnostic { MatchResult diagnostic
            (λ text. result.diagnostic ≡ text) (λ e. result.diagnostic ≡ []) }
    {
        Failure {
            code: fault.code(),
            line: fault.line(),
            diagnostic: or_empty(alloc, diagnostic),
        }
    }

    /// A fault that stands in no file.
    pub fn new(alloc: Global, fault: ServeFault) -> Failure
        ensures fault { IsOf fault result }
        ensures diagnostic { IsToldOr
            (λ text. text ≡ plain_text (code_of fault) (words_of fault)) result.diagnostic }
    {
        let words = words_of(&fault);
        let diagnostic = plain_diagnostic(alloc, fault.code(), words);
        Failure::of(alloc, &fault, diagnostic)
    }

    /// A fault of a file as a whole.
    pub fn of_file(alloc: Global, name: &str, fault: ServeFault) -> Failure
        ensures fault { IsOf fault result }
        ensures diagnostic { IsToldOr
            (λ text. text ≡ file_text name.now (code_of fault) (words_of fault))
            result.diagnostic }
    {
        let words = words_of(&fault);
        let diagnostic = file_diagnostic(alloc, name, fault.code(), words);
        Failure::of(alloc, &fault, diagnostic)
    }
}

/// A text, or the empty one where there was no memory for it.
fn or_empty(alloc: Global, text: Result<Text, AllocError>) -> Text
    ensures { MatchResult text (λ t. result ≡ t) (λ e. result ≡ []) }
{
    match text {
        Ok(text) => text,
        Err(_) => Text::from_string(String::new(alloc)),
    }
}

/// The words of a fault of the reading or writing of lines.
fn words_of_lines(error: WireError) -> &'static str
    ensures { result.now ≡ words_of_lines error }
{
    match error {
        WireError::ReadFault => "standard input can't be read",
        WireError::WriteFault => "standard output can't be written",
        WireError::TurnLimit => "standard input was read 16,777,216 times",
        WireError::LineTooLong | WireError::BadJson | WireError::BadRequest | WireError::NoMemory =>
            "bad lines",
    }
}

/// The words of a fault that is none of a design's or a policy's text.
fn words_of(fault: &ServeFault) -> &'static str
    ensures { result.now ≡ words_of fault.now }
{
    match fault {
        ServeFault::Design(_) => "bad design",
        ServeFault::Policy(_) => "bad policy",
        ServeFault::World(_) => "no memory for a world",
        ServeFault::Lines(error) => words_of_lines(*error),
        ServeFault::BadBundle =>
            "a bundle is a design in UTF-8, a line %%, a policy, a line %%, and a script",
        ServeFault::ReadFailed => "it can't be read as text in UTF-8",
        ServeFault::TooLong =>
            "a design and a policy have at most 1,048,576 bytes, a bundle 16,777,216",
        ServeFault::NoSuchUser => "the policy has no such user",
        ServeFault::NoMemory => "no memory",
    }
}

/// A design and a policy, with the names of their files.
#[derive(Clone, Copy)]
pub struct Sources<'d, 'p> {
    pub design_name: &'d str,
    pub design: &'d str,
    pub policy_name: &'p str,
    pub policy: &'p [u8],
}

impl Sources<'_, '_> {
    ghost use Rattle.std.specs.Prelude.{◌≡◌, IfOk};
    ghost use Rattle.vp_design.specs.Policies.{IsPolicyDiagnostic};
    ghost use Rattle.vp_script.specs.Failure.{IsDiagnostic, IsOf, IsToldOr};

    /// A fault of a run over these sources.
    pub fn refused(self, alloc: Global, fault: ServeFault) -> Failure
        ensures fault { IsOf fault result }
        ensures diagnostic { IsToldOr (IsDiagnostic self.entry.design_name.now
            self.entry.design.now self.entry.policy_name.now fault) result.diagnostic }
    {
        let diagnostic = self.diagnostic(alloc, &fault);
        Failure::of(alloc, &fault, diagnostic)
    }

    /// The diagnostic of a fault of a run over these sources.
    fn diagnostic(self, alloc: Global, fault: &ServeFault) -> Result<Text, AllocError>
        ensures { IfOk result (IsDiagnostic self.entry.design_name.now
            self.entry.design.now self.entry.policy_name.now fault.now) }
    {
        match fault {
            ServeFault::Design(error) => {
                design_diagnostic(alloc, self.design_name, self.design, error)
            }
            ServeFault::Policy(error) => self.policy_diagnostic(alloc, error),
            ServeFault::TooLong => {
                file_diagnostic(alloc, self.policy_name, fault.code(), words_of(fault))
            }
            _ => plain_diagnostic(alloc, fault.code(), words_of(fault)),
        }
    }

    /// The design, read again to find the key at which the policy is at fault; none when out of memory, which is at no key.
    fn design_for(self, alloc: Global, error: &PolicyError) -> Option<Arc<Checked>> {
        match error {
            PolicyError::NoMemory => None,
            _ => checked(alloc, self.design).ok(),
        }
    }

    /// The diagnostic of a fault of the policy without its key.
    fn keyless(self, alloc: Global, error: &PolicyError) -> Result<Text, AllocError>
        ensures { IfOk result (IsPolicyDiagnostic self.entry.policy_name.now error.now) }
    {
        keyless_diagnostic(alloc, self.policy_name, error)
    }

    /// The diagnostic of a fault of the policy, with the key where there is one and memory to find it.
    fn policy_diagnostic(self, alloc: Global, error: &PolicyError) -> Result<Text, AllocError>
        ensures { IfOk result (IsPolicyDiagnostic self.entry.policy_name.now error.now) }
    {
        match self.design_for(alloc, error) {
            Some(checked) => {
                policy_diagnostic(
                    alloc,
                    self.policy_name,
                    self.policy,
                    checked.design(),
                    error,
                )
            }
            None => self.keyless(alloc, error),
        }
    }
}

/// The texts of the design and of the policy of a bundle; none where it has no such parts, or its design is too long or no UTF-8.
fn bundle_texts(bundle: &[u8]) -> Option<(&str, &[u8])>
    ensures { MatchOption result (HasNoDesignText bundle.now)
        (λ texts. HasDesignText bundle.now texts.0.now) }
{
    let (design, rest) = cut(bundle)?;
    let (policy, _) = cut(rest)?;
    match text_of(design, ServeFault::BadBundle) {
        Ok(text) => Some((text, policy)),
        Err(_) => None,
    }
}

/// A fault of the run of a bundle; the lines are those of its design.
pub fn bundle_refused(alloc: Global, bundle: &[u8], fault: ServeFault) -> Failure
    ensures fault { IsOf fault result }
    ensures diagnostic { IsToldOr (IsBundleDiagnostic bundle.now fault) result.diagnostic }
{
    match bundle_texts(bundle) {
        Some((design, policy)) => {
            let sources = Sources {
                design_name: STANDARD_INPUT,
                design,
                policy_name: STANDARD_INPUT,
                policy,
            };
            sources.refused(alloc, fault)
        }
        None => Failure::of_file(alloc, STANDARD_INPUT, fault),
    }
}
