ghost use Rattle.std.specs.Prelude.{◌≡◌, ◌↔◌, ◌⊎◌, ◌+◌, ◌-◌, ◌<◌, ◌≤◌, ℕ, IfErr, IfOk, IsErrOf, IsOkUnless, OnErr, OnOk, Option, Some, false, is_none, is_some, length, map, min, not, option_map, slice_get};
ghost use Rattle.std.specs.Option.{option_map_or};
ghost use Rattle.std.specs.Str.{bytes_eq};
ghost use Rattle.vp_pragma.specs.Rights.{has, nothing, set_of};
ghost use Rattle.vp_policy.specs.Filter.{closed_in, denial_at, rights_at, run_denial};
ghost use Rattle.vp_policy.specs.Members.{member_of};
ghost use Rattle.vp_policy.specs.PolicyState.{Fits};
ghost use Rattle.vp_policy.specs.Regrants.{is_operator, regranted};
ghost use Rattle.vp_policy.specs.RightsTables.{AreTables};
ghost use Rattle.vp_policy.specs.Users.{entry_of, granted, has_entry, login_of, member_at, user_of};

use crate::copying::{copied, copied_users};
use crate::error::PolicyError;
use crate::grant::{Grant, GrantedBy, entry_among, has_grant};
use crate::regrant::{regranted, set_tables, set_user};
use crate::rights_tables::{
    RightsTables, UserTables, granted_row, rights_among, tables_of, user_tables,
};
use indexmap::IndexMap;
use std::alloc::{AllocError, Global};
use std::marker::Model;
use std::snapshot::Snapshot;
use vp_elab::{Design, ObjectId};
use vp_pragma::{Right, Rights};
use vp_text::{Sequence, Text};

/// A user of a policy, by his number in the file, from 0.
#[derive(Clone, Copy, Debug, PartialEq, Eq, Hash)]
pub struct UserId(pub usize);

/// A user.
#[derive(Drop)]
pub struct User {
    pub token: Text,
    /// His rights in the open text.
    pub open: Rights,
    /// He may let the design run.
    pub run: bool,
    /// So many sessions he may have open at once.
    pub sessions: u64,
    /// His rights in envelopes, in the order of the file.
    pub grants: Sequence<Grant>,
}

/// The users of a policy file, for a design, and the operator's token. A contract sees the design's tree, the list of the users in
/// the order of the file, and the token.
#[derive(Drop)]
pub struct Policy {
    /// By name, in the order of the file.
    users: IndexMap<String, User>,
    /// The design, as contracts see it: it takes no memory.
    design: Snapshot<Design>,
    operator: Option<Text>,
    tables: RightsTables,
}

impl Model for Policy {
    ghost use Rattle.std.specs.Prelude.{map};
    ghost use Rattle.vp_policy.specs.PolicyState.{PolicyState};

    ghost Value = { PolicyState };

    ghost use Rattle.vp_policy.specs.Members.{member_of};
    ghost use Rattle.vp_policy.specs.RightsTables.{AreTables};

    ghost view = { λ p. record {
      tree = p.design.value.tree;
      members = map member_of p.users.entries;
      operator = p.operator;
    } };

    ghost invariant = { λ p. AreTables p.design.value.tree (map member_of p.users.entries)
        p.tables };
}

/// The tables of a user; those of nobody, which stand after them, for a user who is not there.
fn tables_of_user(tables: &RightsTables, user: UserId) -> &UserTables
    requires { 0 < length tables.now.users.items }
    ensures { slice_get tables.now.users.items (min user.0 (length tables.now.users.items - 1))
        ≡ Some result.now }
{
    &tables.users[user.0.min(tables.users.len() - 1)]
}

/// The list of a number.
fn list_at(lists: &[Sequence<u8>], number: usize) -> &[u8]
    requires { number < length lists.now }
    ensures { slice_get lists.now number ≡ Some result.now }
{
    lists[number].as_slice()
}

/// Two tokens are the same. Each byte is compared, also after the first that differs: else the time that this takes would reveal
/// how far a token was guessed.
fn same_bytes(a: &[u8], b: &[u8]) -> bool
    ensures { result ≡ bytes_eq a.now b.now }
{
    let mut same = a.len() == b.len();
    for (x, y) in a.iter().zip(b) {
        same = same & (x == y);
    }
    same
}

impl Policy {
    /// The policy of users and an operator for a design, with the users' tables.
    fn new(
        users: IndexMap<String, User>,
        operator: Option<Text>,
        design: &Design,
        tables: RightsTables,
    ) -> Policy
        requires { AreTables design.now.tree (map member_of users.entries) tables }
        ensures { result ≡ record {
          tree = design.now.tree;
          members = map member_of users.entries;
          operator = operator;
        } }
    {
        Policy {
            users,
            design: Snapshot::of(design),
            operator,
            tables,
        }
    }

    /// The policy of users by their names, and of an operator, for a design. Takes memory.
    pub(crate) fn of_users(
        alloc: Global,
        users: IndexMap<String, User>,
        operator: Option<Text>,
        design: &Design,
    ) -> Result<Policy, AllocError>
        ensures { IfOk result (λ policy. policy ≡ record {
          tree = design.now.tree;
          members = map member_of users.entries;
          operator = operator;
        }) }
    {
        let tables = tables_of(alloc, design, &users)?;
        Ok(Policy::new(users, operator, design, tables))
    }

    /// A copy of the policy, for the design for which it was read. Takes memory (905).
    pub fn try_clone(&self, alloc: Global, design: &Design) -> Result<Policy, PolicyError>
        requires { Fits self.now design.now.tree }
        ensures clone { IfOk result (λ policy. policy ≡ self.now) }
        ensures refused { IsOkUnless result PolicyError.NoMemory }
    {
        let users = copied_users(alloc, &self.users)?;
        let operator = copied(alloc, self.operator())?;
        Ok(Policy::of_users(alloc, users, operator, design)?)
    }

    /// How many users the file has.
    pub fn count(&self) -> usize
        ensures { result ≡ length self.now.members }
    {
        self.users.len()
    }

    /// The user of a name.
    pub fn user(&self, name: &str) -> Option<UserId>
        ensures { option_map (λ u. u.0) result ≡ user_of self.now.members name.now }
    {
        let number = self.users.get_index_of(name)?;
        Some(UserId(number))
    }

    /// The user of a name, if the token is his.
    pub fn login(&self, name: &str, token: &str) -> Option<UserId>
        ensures { option_map (λ u. u.0) result ≡ login_of self.now.members name.now token.now }
    {
        let Some((number, _, user)) = self.users.get_full(name) else {
            return None;
        };
        if same_bytes(token.as_bytes(), user.token.as_str().as_bytes()) {
            Some(UserId(number))
        } else {
            None
        }
    }

    /// He may let the design run: his run flag is set, and the filter denies him no run. A user who is not there may not.
    pub fn may_run(&self, user: UserId) -> bool
        ensures flag { result ≡ (member_at self.now.members user.0).run }
        ensures denied { result ≡ is_none (run_denial (member_at self.now.members user.0)) }
    {
        match self.users.get_index(user.0) {
            Some((_, user)) => user.run,
            None => false,
        }
    }

    /// How many sessions he may have open at once; none a user who is not there.
    pub fn session_share(&self, user: UserId) -> u64
        ensures { result ≡ (member_at self.now.members user.0).sessions }
    {
        match self.users.get_index(user.0) {
            Some((_, user)) => user.sessions,
            None => 0,
        }
    }

    /// His name; the empty text for a user who is not there.
    pub fn name(&self, user: UserId) -> &str
        ensures { result.now ≡ (member_at self.now.members user.0).name }
    {
        match self.users.get_index(user.0) {
            Some((name, _)) => name.as_str(),
            None => "",
        }
    }

    /// He has a grant for an envelope, be it empty.
    pub(crate) fn has_entry(&self, user: UserId, envelope: u8) -> bool
        ensures { result ≡ has_entry (member_at self.now.members user.0) envelope }
    {
        match self.users.get_index(user.0) {
            Some((_, user)) => has_grant(user.grants.as_slice(), envelope),
            None => false,
        }
    }

    /// By what he has a grant for an envelope.
    pub(crate) fn entry_of(&self, user: UserId, envelope: u8) -> GrantedBy
        ensures { result ≡ entry_of (member_at self.now.members user.0) envelope }
    {
        match self.users.get_index(user.0) {
            Some((_, user)) => entry_among(user.grants.as_slice(), envelope),
            None => GrantedBy::Nothing,
        }
    }

    /// The operator's token, if there is an operator.
    fn operator(&self) -> Option<&str>
        ensures { option_map (λ t. t.now) result ≡ self.now.operator }
    {
        match &self.operator {
            Some(token) => Some(token.as_str()),
            None => None,
        }
    }

    /// A token is the operator's. Takes the same time wherever it differs from his, and no memory.
    pub fn is_operator(&self, token: &str) -> bool
        ensures { result ≡ is_operator self.now token.now }
    {
        match self.operator() {
            Some(operator) => same_bytes(token.as_bytes(), operator.as_bytes()),
            None => false,
        }
    }

    /// What is granted to a user in an envelope: in the open text his open set, elsewhere his grants. Nothing for a user who is
    /// not there.
    pub(crate) fn granted(&self, user: UserId, envelope: u8) -> Rights
        ensures { set_of result ≡ granted (member_at self.now.members user.0) envelope }
    {
        tables_of_user(&self.tables, user).granted[envelope as usize]
    }

    /// The rights of a user on each object, by the objects' numbers; those of nobody for a user who is not there. Takes no
    /// memory.
    pub fn row(&self, user: UserId) -> &[Rights]
        ensures count { length result.now ≡ length self.now.tree.nodes }
        ensures each { (o : ℕ) → option_map_or set_of (slice_get result.now o) nothing
            ≡ rights_at self.now.tree (member_at self.now.members user.0) o }
        ensures denied { (r : Right) (o : ℕ)
            → option_map_or (λ his. not (has r (set_of his))) (slice_get result.now o) false
            ≡ is_some (denial_at self.now.tree (member_at self.now.members user.0) r o) }
    {
        tables_of_user(&self.tables, user).rights.as_slice()
    }

    /// The rights of a user on an object: what is opened to him at every step of its path; none where no object is.
    pub fn rights(&self, user: UserId, object: ObjectId) -> Rights
        ensures { set_of result
            ≡ rights_at self.now.tree (member_at self.now.members user.0) object.0 }
    {
        rights_among(self.row(user), object)
    }

    /// The numbers of the envelopes of the places declared in a module, or of the top modules, that are closed to a user: rising,
    /// each once. None for an object that is no module, and for one that is not there. Takes no memory.
    pub(crate) fn closed_list(&self, user: UserId, scope: Option<ObjectId>) -> &[u8]
        ensures { let scope : Option ℕ = option_map (λ o. o.0) scope in
            result.now ≡ closed_in self.now.tree (member_at self.now.members user.0) scope }
    {
        let Some(number) = self.tables.scopes.number(scope) else {
            return &[];
        };
        list_at(tables_of_user(&self.tables, user).closed.as_slice(), number)
    }

    /// Makes a user's grant for an envelope exactly this, of which he has an entry from then on, be it empty; for envelope 0, his
    /// open set. His new tables are made first, and then exchanged. Refused where no envelope has the number (903), and for want of
    /// memory (905); a refusal leaves the policy as it was.
    pub fn regrant(
        &mut self,
        alloc: Global,
        design: &Design,
        user: UserId,
        envelope: u32,
        access: Rights,
    ) -> Result<(), PolicyError>
        requires fits { Fits self.old design.now.tree }
        requires there { user.0 < length self.old.members }
        ensures granted { OnOk result
            (self.new ≡ regranted self.old user.0 envelope (set_of access)) }
        ensures missing { IsErrOf result PolicyError.NoSuchEnvelope
            ↔ (length design.now.tree.authors < envelope) }
        ensures refused { IfErr result
            (λ e. (e ≡ PolicyError.NoSuchEnvelope) ⊎ (e ≡ PolicyError.NoMemory)) }
        ensures unchanged { OnErr result (self.new ≡ self.old) }
    {
        if envelope > u32::from(design.envelope_count()) {
            return Err(PolicyError::NoSuchEnvelope);
        }
        let changed = regranted(alloc, &self.users[user.0], envelope as u8, access)?;
        let lists = self.tables.scopes.lists.as_slice();
        let tables = user_tables(alloc, design, lists, granted_row(&changed))?;
        set_user(&mut self.users, user.0, changed);
        set_tables(&mut self.tables.users, user.0, tables);
        Ok(())
    }
}
