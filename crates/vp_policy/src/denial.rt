ghost use Rattle.std.specs.Prelude.{◌≡◌, option_map, IfOk};
ghost use Rattle.vp_policy.specs.Denials.{words_shown};
ghost use Rattle.vp_policy.specs.Filter.{barrier_of, viewport_object, words_of};

use std::alloc::{AllocError, Global};
use std::marker::Model;
use std::sync::Arc;
use vp_elab::{Design, ObjectId};
use vp_pragma::Right;
use vp_text::{Same, SharedText};

/// What keeps a user out.
#[derive(Clone, Copy, Debug, PartialEq, Eq)]
pub enum DeniedBy {
    /// A viewport matches the step, and what is opened there lacks the right; the first that matches, by its number
    /// in the order of the text, from 0.
    Viewport(usize),
    /// He has no grant for the envelope.
    Envelope,
    /// His grant for the envelope, or his open set for number 0, lacks the right.
    Grant,
}

/// Why something is denied: what keeps the user out of which envelope, and the right that he lacks.
#[derive(Clone, Copy, Debug, PartialEq, Eq)]
pub struct Denial {
    pub by: DeniedBy,
    /// The number of the envelope; 0 for the open text.
    pub envelope: u8,
    pub right: Right,
}

/// What keeps a user out, in words.
#[derive(Clone, Copy, Debug, PartialEq, Eq)]
pub enum ShownBarrier {
    /// A viewport matches the step, and what is opened there lacks the right.
    Viewport,
    /// He has no grant for the envelope.
    Envelope,
    /// His grant for the envelope, or his open set for number 0, lacks the right.
    Grant,
}

/// The words of a denial.
#[derive(Drop)]
pub struct Words {
    by: ShownBarrier,
    envelope: u8,
    right: Right,
    author: SharedText,
    object: Option<SharedText>,
}

/// A denial in the words that its user is shown, which several may hold at once. A viewport is named by its object: its number
/// would count viewports that he can't see. A contract sees the words.
#[derive(Drop)]
pub struct DenialText {
    words: Arc<Words>,
}

impl Model for DenialText {
    ghost use Rattle.std.specs.Arc.{arc_value};
    ghost use Rattle.vp_policy.specs.Denials.{DenialText, words_shown};

    ghost Value = { DenialText };

    ghost view = { λ w. words_shown (arc_value w.words) };
}

impl DeniedBy {
    /// The same in words.
    fn barrier(self) -> ShownBarrier
        ensures { result ≡ barrier_of self }
    {
        match self {
            DeniedBy::Viewport(_) => ShownBarrier::Viewport,
            DeniedBy::Envelope => ShownBarrier::Envelope,
            DeniedBy::Grant => ShownBarrier::Grant,
        }
    }
}

/// The object that the viewport names which keeps a user out, if one does.
fn viewport_object(design: &Design, by: DeniedBy) -> Result<Option<SharedText>, AllocError>
    ensures { IfOk result (λ object. object ≡ viewport_object design.now.tree.viewports by) }
{
    match by {
        DeniedBy::Viewport(number) => design.viewport_object(number),
        DeniedBy::Envelope | DeniedBy::Grant => Ok(None),
    }
}

impl Denial {
    /// The denial in words, whose texts are the design's own. Takes memory.
    pub fn words(self, alloc: Global, design: &Design) -> Result<DenialText, AllocError>
        ensures { IfOk result (λ words. words ≡ words_of design.now.tree self) }
    {
        let envelope = self.envelope;
        let author = design.shared_author(envelope)?;
        let object = viewport_object(design, self.by)?;
        DenialText::new(
            alloc,
            self.by.barrier(),
            envelope,
            self.right,
            author,
            object,
        )
    }
}

impl DenialText {
    /// The words of a denial: what keeps the user out of which envelope, the right that he lacks, the envelope's author, and the object
    /// of a viewport that keeps him out. Takes memory.
    pub fn new(
        alloc: Global,
        by: ShownBarrier,
        envelope: u8,
        right: Right,
        author: SharedText,
        object: Option<SharedText>,
    ) -> Result<DenialText, AllocError>
        ensures { IfOk result (λ w. w ≡ record {
          by = by;
          envelope = envelope;
          right = right;
          author = author;
          object = object;
        }) }
    {
        let words = Words {
            by,
            envelope,
            right,
            author,
            object,
        };
        match Arc::new(alloc, words) {
            Ok(words) => Ok(DenialText { words }),
            Err(_) => Err(AllocError),
        }
    }

    /// The same words for one holder more; or an error where the holders can't be counted.
    pub fn try_clone(&self) -> Result<DenialText, AllocError>
        ensures { IfOk result (λ words. words ≡ self.now) }
    {
        Ok(DenialText {
            words: Arc::try_clone(&self.words)?,
        })
    }

    /// The words.
    fn held(&self) -> &Words
        ensures { words_shown result.now ≡ self.now }
    {
        &self.words
    }

    /// What keeps the user out.
    pub fn by(&self) -> ShownBarrier
        ensures { result ≡ self.now.by }
    {
        self.held().by
    }

    /// The number of the envelope; 0 for the open text.
    pub fn envelope(&self) -> u8
        ensures { result ≡ self.now.envelope }
    {
        self.held().envelope
    }

    /// The right that the user lacks.
    pub fn right(&self) -> Right
        ensures { result ≡ self.now.right }
    {
        self.held().right
    }

    /// The author of the envelope; empty for the open text.
    pub fn author(&self) -> &str
        ensures { result.now ≡ self.now.author }
    {
        self.held().author.as_str()
    }

    /// The object that the viewport names which keeps the user out, if one does.
    pub fn object(&self) -> Option<&str>
        ensures { option_map (λ o. o.now) result ≡ self.now.object }
    {
        match &self.held().object {
            Some(object) => Some(object.as_str()),
            None => None,
        }
    }
}

impl Same for DenialText {
    fn is_same(&self, other: &DenialText) -> bool {
        self.by() == other.by()
            && self.envelope() == other.envelope()
            && self.right() == other.right()
            && self.author() == other.author()
            && self.object() == other.object()
    }
}

/// What a user finds under a name.
#[derive(Clone, Copy, Debug, PartialEq, Eq)]
pub enum Look {
    Found(ObjectId),
    Denied(Denial),
    /// Nothing is there, and nothing is hidden there.
    Absent,
}
