ghost use Rattle.std.specs.Prelude.{◌≡◌, map};
ghost use Rattle.vp_pragma.specs.Rights.{set_of};
ghost use Rattle.vp_policy.specs.Members.{grant_shown};
ghost use Rattle.vp_policy.specs.Users.{all_name_author, entry_among, granted_by, has_grant};

use vp_pragma::Rights;

/// What a user may do in an envelope outside of the open text.
#[derive(Clone, Copy, Debug, PartialEq, Eq)]
pub struct Grant {
    /// The number of the envelope, from 1.
    pub envelope: u8,
    pub access: Rights,
    /// The grant names the envelope's author.
    pub names_author: bool,
}

/// By what a user has a grant for an envelope.
#[derive(Clone, Copy, Debug, PartialEq, Eq)]
pub enum GrantedBy {
    /// He has none.
    Nothing,
    /// By its number: so says one of his grants for it, which does not name its author.
    Number,
    /// By its author, whom each of his grants for it names.
    Author,
}

/// What grants give in an envelope: several for one envelope are joined.
pub fn granted_by(grants: &[Grant], envelope: u8) -> Rights
    ensures { set_of result ≡ granted_by (map grant_shown grants.now) envelope }
{
    let mut rights = Rights::none();
    for grant in grants {
        if grant.envelope == envelope {
            rights = rights.either(grant.access);
        }
    }
    rights
}

/// One of these grants is for an envelope.
pub fn has_grant(grants: &[Grant], envelope: u8) -> bool
    ensures { result ≡ has_grant (map grant_shown grants.now) envelope }
{
    for grant in grants {
        if grant.envelope == envelope {
            return true;
        }
    }
    false
}

/// Each of these grants for an envelope names its author.
fn all_name_author(grants: &[Grant], envelope: u8) -> bool
    ensures { result ≡ all_name_author (map grant_shown grants.now) envelope }
{
    for grant in grants {
        if grant.envelope == envelope && !grant.names_author {
            return false;
        }
    }
    true
}

/// By what these grants are for an envelope.
pub fn entry_among(grants: &[Grant], envelope: u8) -> GrantedBy
    ensures { result ≡ entry_among (map grant_shown grants.now) envelope }
{
    if !has_grant(grants, envelope) {
        GrantedBy::Nothing
    } else if all_name_author(grants, envelope) {
        GrantedBy::Author
    } else {
        GrantedBy::Number
    }
}
