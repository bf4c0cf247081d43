// SPDX-License-Identifier: Apache-2.0 OR MIT
//! The accounts of a history, by user number and by name.
ghost use Rattle.std.specs.Prelude.{◌≡◌, ◌≤◌, ◌<◌, ◌+◌, ◌-◌, [], OnOk, IfOk, is_some, option_and_then, Some};
ghost use Rattle.std.specs.Prelude.{count_by, filter, length};
ghost use Rattle.std.specs.Option.{option_map};
ghost use Rattle.cr_base.specs.Checks.{judged, of_role, register_checks, name_checks, dismiss_checks};
ghost use Rattle.cr_base.specs.Accounts.{accounts_after, account_at, role_at, role_in};
ghost use Rattle.cr_base.specs.Accounts.{number_at, caller_at, lines_of, chair_count, AccountsFit};
ghost use Rattle.cr_base.specs.Words.{is_chair, is_member};
ghost use Rattle.cr_accounts.specs.Members.{counted_by};

use cr_base::{
    Account, AccountLine, AccountLines, Digest, Entry, LAST_NUMBER, Role, Rule, Short, Stamped,
    Standing, UserNo,
};
use indexmap::IndexMap;
use std::alloc::{AllocError, Global};
use std::marker::Model;

/// The registered users: at most 9,999 accounts, by user number and by name.
///
/// # Model
///
/// The accounts by number, and for how many more entries there is room.
#[derive(Drop)]
pub struct Accounts {
    accounts: Vec<Account>,
    by_name: IndexMap<Short, UserNo>,
}

impl Model for Accounts {
    ghost use Rattle.std.specs.Prelude.{ℕ, ◌-◌, min, vec_len, vec_capacity};
    ghost use Rattle.indexmap.specs.IndexMap.{spare};
    ghost use Rattle.cr_accounts.specs.Seen.{SeenAccounts};
    ghost use Rattle.cr_accounts.specs.Index.{IsNameIndex};

    ghost Value = { SeenAccounts };

    ghost view = { λ t. record {
      accounts = t.accounts.items;
      room = min (vec_capacity t.accounts - vec_len t.accounts) (spare t.by_name);
    } };

    ghost invariant = { λ t. IsNameIndex t.accounts.items t.by_name };
}

/// Checks whether the caller may give somebody who has the role `now` another one.
fn may_name(by: &Standing, now: Role, role: Role) -> Result<(), Rule>
    ensures { result ≡ judged (name_checks by.now (Some (of_role now)) role) tt }
{
    if !by.role.is_chair() {
        return Err(Rule::NotChair);
    }
    if by.phase.roles_are_final() {
        return Err(Rule::WrongPhase);
    }
    if role.number() <= now.number() {
        return Err(Rule::AlreadyNamed);
    }
    Ok(())
}

/// Returns one more than `count`, if the role is a member's.
fn counted(count: u64, role: Role) -> u64
    requires { count < 9999 }
    ensures { result ≡ counted_by role count }
{
    if role.is_member() {
        return count + 1;
    }
    count
}

/// Returns how many of these are chairs'.
///
/// # Cost
///
/// A walk over them.
fn chairs_among(accounts: &[Account]) -> usize
    ensures { result ≡ count_by (λ a. is_chair a.role) accounts.now }
{
    accounts
        .iter()
        .filter(|account| account.role.is_chair())
        .count()
}

impl Accounts {
    /// Creates one without accounts.
    ///
    /// # Cost
    ///
    /// Takes no memory.
    pub fn new(alloc: Global) -> Accounts
        ensures { result.accounts ≡ [] }
    {
        Accounts {
            accounts: Vec::new(alloc),
            by_name: IndexMap::new(alloc),
        }
    }

    /// Returns how many users are registered, 0 to 9,999; reads no account.
    pub fn count(&self) -> u64
        ensures { result ≡ length self.now.accounts }
    {
        self.accounts.len() as u64
    }

    /// Returns the number that a user of this name would have, the count of accounts plus 1.
    ///
    /// # Errors
    ///
    /// The first broken rule: `NameTaken` if somebody has registered the name, else `FullAccounts` if 9,999 users are
    /// registered.
    ///
    /// # Cost
    ///
    /// One look-up by name.
    pub fn register_check(&self, name: &Short) -> Result<UserNo, Rule>
        ensures { result ≡ judged (register_checks (is_some (number_at self.now.accounts name.now))
            (length self.now.accounts)) (length self.now.accounts + 1) }
    {
        if self.number_of(name).is_some() {
            return Err(Rule::NameTaken);
        }
        if self.count() >= LAST_NUMBER {
            return Err(Rule::FullAccounts);
        }
        Ok(UserNo::new(self.count() + 1))
    }

    /// Returns the user who registered a name, or `None` if no user did.
    ///
    /// # Cost
    ///
    /// One look-up by name.
    pub fn number_of(&self, name: &Short) -> Option<UserNo>
        ensures { result ≡ number_at self.now.accounts name.now }
    {
        self.by_name.get(name).copied()
    }

    /// Returns the name of a user, or `None` if no user has that number.
    ///
    /// # Cost
    ///
    /// One read by number.
    pub fn name_of(&self, user: UserNo) -> Option<Short>
        ensures { result ≡ option_map (λ a. a.name) (account_at self.now.accounts user) }
    {
        self.name_at(user.number() as u16)
    }

    /// Returns the user who registered a name with this digest of a secret, or `None` if no user did: no such name, or
    /// another digest.
    ///
    /// # Cost
    ///
    /// One look-up by name, and one read by number.
    pub fn caller(&self, name: &Short, digest: &Digest) -> Option<UserNo>
        ensures { result ≡ caller_at self.now.accounts name.now digest.now }
    {
        let user = self.number_of(name)?;
        let account = self.accounts.get(user.from_zero())?;
        if account.digest.as_slice() == digest.as_slice() {
            Some(user)
        } else {
            None
        }
    }

    /// Returns the role of a user: `Account` for an unauthenticated caller, and if no user has that number.
    ///
    /// # Cost
    ///
    /// One read by number.
    pub fn standing_for(&self, user: &Option<UserNo>) -> Role
        ensures { result ≡ role_in self.now.accounts user.now }
    {
        match user {
            Some(user) => self.role_given(*user).unwrap_or(Role::Account),
            None => Role::Account,
        }
    }

    /// Returns the name of the user of a number, or `None` if no user has it.
    ///
    /// # Cost
    ///
    /// One read by number.
    pub fn name_at(&self, number: u16) -> Option<Short>
        ensures { result ≡ option_map (λ a. a.name) (account_at self.now.accounts number) }
    {
        if number == 0 {
            return None;
        }
        let account = self.accounts.get(usize::from(number) - 1)?;
        Some(account.name)
    }

    /// Returns the role that a user was given last, an account's where the user was given none, or dismissed since;
    /// `None` if no user has that number.
    ///
    /// # Cost
    ///
    /// One read by number.
    pub fn role_given(&self, user: UserNo) -> Option<Role>
        ensures { result ≡ role_at self.now.accounts user }
    {
        let account = self.accounts.get(user.from_zero())?;
        Some(account.role)
    }

    /// Checks whether the caller may give a user this role. `by` is the caller's standing, where no paper is named.
    ///
    /// # Errors
    ///
    /// The first broken rule: `NoUser` if there is no such user, `NotChair` if the caller is no chair, `WrongPhase`
    /// after the discussion, `AlreadyNamed` if the user has that role or a greater one.
    ///
    /// # Cost
    ///
    /// One read by number at most.
    pub fn judge_name(&self, by: &Standing, target: &Option<UserNo>, role: Role) -> Result<(), Rule>
        ensures { result ≡ judged (name_checks by.now
            (option_map of_role (option_and_then (role_at self.now.accounts) target.now)) role) tt }
    {
        let Some(user) = target else {
            return Err(Rule::NoUser);
        };
        let Some(now) = self.role_given(*user) else {
            return Err(Rule::NoUser);
        };
        may_name(by, now, role)
    }

    /// Checks whether the caller may dismiss a user. `by` is the caller's standing, where no paper is named.
    ///
    /// # Errors
    ///
    /// The first broken rule: `NoUser` if there is no such user, `NotChair` if the caller is no chair, `WrongPhase`
    /// after the discussion, `NotAMember` if the user is no member of the committee, `LastChair` if the user is the
    /// only chair.
    ///
    /// # Cost
    ///
    /// One read by number, and where the user is a chair a walk over the accounts.
    pub fn judge_dismiss(&self, by: &Standing, target: &Option<UserNo>) -> Result<(), Rule>
        ensures { result ≡ judged (dismiss_checks by.now
            (option_map of_role (option_and_then (role_at self.now.accounts) target.now))
            (chair_count (lines_of self.now.accounts))) tt }
    {
        let Some(user) = target else {
            return Err(Rule::NoUser);
        };
        let Some(now) = self.role_given(*user) else {
            return Err(Rule::NoUser);
        };
        self.may_dismiss(by, now)
    }

    /// Checks whether the caller may dismiss a user who has the role `now`.
    fn may_dismiss(&self, by: &Standing, now: Role) -> Result<(), Rule>
        ensures { result ≡ judged (dismiss_checks by.now (Some (of_role now))
            (chair_count (lines_of self.now.accounts))) tt }
    {
        if !by.role.is_chair() {
            return Err(Rule::NotChair);
        }
        if by.phase.roles_are_final() {
            return Err(Rule::WrongPhase);
        }
        if !now.is_member() {
            return Err(Rule::NotAMember);
        }
        if now.is_chair() && self.chair_count() <= 1 {
            return Err(Rule::LastChair);
        }
        Ok(())
    }

    /// Returns how many users are chairs.
    ///
    /// # Cost
    ///
    /// One walk over the accounts. Takes no memory.
    fn chair_count(&self) -> usize
        ensures { result ≡ chair_count (lines_of self.now.accounts) }
    {
        chairs_among(&self.accounts)
    }

    /// Returns how many users are members of the committee, chairs among them.
    ///
    /// # Cost
    ///
    /// One walk over the accounts. Takes no memory.
    pub fn member_count(&self) -> u64
        ensures count { result ≡ length (filter (λ line. is_member line.role) (lines_of self.now.accounts)) }
        ensures few { result ≤ 9999 }
    {
        let mut count = 0;
        for account in &self.accounts {
            count = counted(count, account.role);
        }
        count
    }

    /// Returns every account, by user number, as everyone sees it.
    ///
    /// # Errors
    ///
    /// If memory runs out.
    ///
    /// # Cost
    ///
    /// Reads and copies each account.
    pub fn lines(&self, alloc: Global) -> Result<AccountLines, AllocError>
        ensures { IfOk result (λ lines. lines ≡ lines_of self.now.accounts) }
    {
        let mut lines = Vec::with_capacity(alloc, self.accounts.len())?;
        for account in &self.accounts {
            lines.push(AccountLine {
                user: UserNo::new(lines.len() as u64 + 1),
                name: account.name,
                role: account.role,
            })?;
        }
        Ok(AccountLines::from_vec(lines))
    }

    /// Takes the memory that the entries of one command need. The accounts don't change.
    ///
    /// # Errors
    ///
    /// If memory runs out.
    pub fn room(&mut self, group: &[Stamped]) -> Result<(), AllocError>
        ensures ok { OnOk result (length group.now ≤ self.new.room) }
        ensures same { self.new.accounts ≡ self.old.accounts }
        ensures keeps { self.old.room ≤ self.new.room }
    {
        self.accounts.reserve(group.len())?;
        self.by_name.reserve(group.len())
    }

    /// Applies one more entry, for which there is room.
    ///
    /// # Cost
    ///
    /// Takes no memory.
    pub fn apply(&mut self, stamped: &Stamped)
        requires room { 0 < self.old.room }
        requires fits { AccountsFit self.old.accounts stamped.now.entry }
        ensures after { self.new.accounts ≡ accounts_after self.old.accounts stamped.now.entry }
        ensures room { self.old.room ≤ self.new.room + 1 }
    {
        match &stamped.entry {
            Entry::Registered { user, name, digest } => {
                match self.by_name.insert(*name, *user) {
                    Ok(_) => {}
                    Err(_) => unreachable!(),
                }
                self.accounts.push_reserved(Account {
                    name: *name,
                    digest: *digest,
                    role: Role::Account,
                });
            }
            Entry::Named { user, role } => {
                self.accounts[user.from_zero()].role = *role;
            }
            Entry::Dismissed { user } => {
                self.accounts[user.from_zero()].role = Role::Account;
            }
            _ => {}
        }
    }
}
