// Viewports: what the strings of an object and of an access say.
ghost use Rattle.std.specs.Result.{result_err};
ghost use Rattle.std.specs.Prelude.{◌≡◌, ◌+◌, ◌++◌, ◌∷◌, [], Ok, codes, length, option_map, IfOk, MatchResult};
ghost use Rattle.std.specs.List.{list_all};
ghost use Rattle.vp_text.specs.Texts.{parts};
ghost use Rattle.vp_lex.specs.Bytes.{begins_name, goes_on_name};
ghost use Rattle.vp_lex.specs.Pieces.{is_word};
ghost use Rattle.vp_lex.specs.Strings.{string_value};
ghost use Rattle.vp_lex.specs.Texts.{text_of};
ghost use Rattle.vp_pragma.specs.Envelopes.{object_of};
ghost use Rattle.vp_pragma.specs.EnvelopesOf.{Progress, item_named, viewed};
ghost use Rattle.vp_pragma.specs.declared.error.PragmaError.TheVariants.{NoMemory};
ghost use Rattle.vp_text.specs.Refusals.{MayExplain};
ghost use Rattle.vp_pragma.specs.Reading.{viewport_of};

use crate::error::PragmaError;
use crate::pragma_effect::ViewportStrings;
use crate::rights::{Rights, access};
use std::alloc::{AllocError, Global};
use vp_lex::string_value;
use vp_text::{Text, first_part};

/// A viewport: it opens rights on an item of the envelope in which it stands.
#[derive(Drop)]
pub struct Viewport {
    /// The number of its envelope.
    pub envelope: u8,
    /// The module of the item, if it is named.
    pub module: Option<Text>,
    pub item: Text,
    pub rights: Rights,
    /// The line on which it stands, from 1.
    pub line: u32,
}

impl Viewport {
    /// The object that it names, as it is written: an item, or a module, a dot and an item. Takes memory.
    pub fn object(&self, alloc: Global) -> Result<Text, AllocError>
        ensures { IfOk result (λ object. object ≡ object_of (viewport_of self.now)) }
    {
        match &self.module {
            Some(module) => dotted(alloc, module.as_str(), self.item.as_str()),
            None => Text::copy(alloc, self.item.as_str()),
        }
    }

    /// The name of the module of its item, if it is named.
    fn module_name(&self) -> Option<&str>
        ensures { option_map (λ m. m.now) result ≡ (viewport_of self.now).in_module }
    {
        match &self.module {
            Some(module) => Some(module.as_str()),
            None => None,
        }
    }

    /// The same viewport once more. Takes memory.
    pub fn try_clone(&self, alloc: Global) -> Result<Viewport, AllocError>
        ensures { IfOk result (λ copy. viewport_of copy ≡ viewport_of self.now) }
    {
        Ok(Viewport {
            envelope: self.envelope,
            module: copied(alloc, self.module_name())?,
            item: Text::copy(alloc, self.item.as_str())?,
            rights: self.rights,
            line: self.line,
        })
    }
}

/// Two names with a dot between them.
fn dotted(alloc: Global, module: &str, item: &str) -> Result<Text, AllocError>
    ensures { IfOk result (λ text. text ≡ «module».entry.now ++ (codes "." ++ item.entry.now)) }
{
    Ok(Text::from_string(format!(in alloc; "{module}.{item}")?))
}

/// A byte may begin a name.
fn begins_name(byte: u8) -> bool
    ensures { result ≡ begins_name byte }
{
    byte.is_ascii_alphabetic() || byte == b'_'
}

/// A byte may stand in a name after its first.
fn goes_on_name(byte: u8) -> bool
    ensures { result ≡ goes_on_name byte }
{
    byte.is_ascii_alphanumeric() || byte == b'_' || byte == b'$'
}

/// Each of these bytes may stand in a name after its first.
fn all_go_on(bytes: &[u8]) -> bool
    ensures { result ≡ list_all goes_on_name bytes.now }
{
    for byte in bytes {
        if !goes_on_name(*byte) {
            return false;
        }
    }
    true
}

/// A text is a name, be it a keyword.
fn is_name(text: &str) -> bool
    ensures { result ≡ is_word text.now }
{
    match text.as_bytes() {
        [first, others @ ..] => begins_name(*first) && all_go_on(others),
        [] => false,
    }
}

/// The item of one name.
fn one_name(item: &str) -> Option<(Option<&str>, &str)>
    ensures { option_map (λ n. (option_map (λ m. m.now) n.0, n.1.now)) result
        ≡ item_named (item.entry.now ∷ []) }
{
    if is_name(item) {
        Some((None, item))
    } else {
        None
    }
}

/// The item of two names, the first of which is its module's.
fn two_names<'a>(module: &'a str, item: &'a str) -> Option<(Option<&'a str>, &'a str)>
    ensures { option_map (λ n. (option_map (λ m. m.now) n.0, n.1.now)) result
        ≡ item_named («module».entry.now ∷ item.entry.now ∷ []) }
{
    if is_name(module) && is_name(item) {
        Some((Some(module), item))
    } else {
        None
    }
}

/// The item that an object's text names, perhaps by its module.
#[tactic(auto, using(crate::proofs::Names::three_names))]
fn names_of(object: &str) -> Option<(Option<&str>, &str)>
    ensures { option_map (λ n. (option_map (λ m. m.now) n.0, n.1.now)) result
        ≡ item_named (parts 46 object.entry.now) }
{
    let (first, remainder) = first_part(object, '.');
    let Some(remainder) = remainder else {
        return one_name(first);
    };
    let (item, further) = first_part(remainder, '.');
    match further {
        Some(_) => None,
        None => two_names(first, item),
    }
}

/// A copy of a name, if there is one.
fn copied(alloc: Global, name: Option<&str>) -> Result<Option<Text>, AllocError>
    ensures { MatchResult result (λ copy. copy ≡ option_map (λ n. n.now) name.entry)
        (λ _. Unit {0}) }
{
    match name {
        Some(name) => Ok(Some(Text::copy(alloc, name)?)),
        None => Ok(None),
    }
}

/// The viewport of an envelope on a line; or what is at fault with its object (309) or its access (306).
pub fn read_view(
    alloc: Global,
    text: &str,
    envelope: u8,
    line: u32,
    view: ViewportStrings,
) -> Result<Viewport, PragmaError>
    ensures { MatchResult result
        (λ v. (r : Progress) → length r.ended + 1 ≡ envelope → viewed text.now r line view
        ≡ Ok (record r { viewports = r.viewports ++ viewport_of v ∷ [] }))
        (λ e. (r : Progress) → MayExplain NoMemory (result_err (viewed text.now r line view)) e) }
{
    let object = string_value(alloc, view.object.text(text))?;
    let Some((module, item)) = names_of(&object) else {
        return Err(PragmaError::BadPragma { line });
    };
    let Some(rights) = access(&string_value(alloc, view.access.text(text))?) else {
        return Err(PragmaError::BadAccess { line });
    };
    Ok(Viewport {
        envelope,
        module: copied(alloc, module)?,
        item: Text::copy(alloc, item)?,
        rights,
        line,
    })
}
