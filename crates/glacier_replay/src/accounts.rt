// The state of all accounts.
ghost use Rattle.std.specs.Prelude.{◌≡◌, IfSome, OnOk, if◌then◌else◌};
ghost use Rattle.std.specs.FinMap as map;
ghost use Rattle.std.specs.Option.{option_copied};
ghost use Rattle.glacier_job.specs.Pass.{pass_is_event};
ghost use Rattle.glacier_vault.specs.Accounts.{account_in};
ghost use Rattle.glacier_vault.specs.Lawful.{IsLawful};

use glacier_base::{Account, AccountMap, Memory, Moment};
use glacier_job::is_due;
use glacier_vault::AccountState;
use std::alloc::Global;
use std::collections::btree_map;
use std::marker::Model;

/// The state of each account that was ever changed.
#[derive(Drop)]
pub struct Accounts {
    accounts: AccountMap<AccountState>,
}

impl Model for Accounts {
    ghost use Rattle.glacier_vault.specs.Accounts.{Accounts as AllAccounts, AllLawful};
    ghost use Rattle.glacier_replay.specs.AccountsCode.{accounts_code};

    ghost Value = { AllAccounts };

    ghost coded = { accounts_code };

    ghost view = { λ s. s.accounts };

    ghost invariant = { λ s. AllLawful s.accounts };
}

impl Accounts {
    ghost use Rattle.std.specs.Prelude.{ℕ, List};
    ghost use Rattle.std.specs.Map.Iter.{ShowsInOrder, deref_pair};
    ghost use Rattle.glacier_vault.specs.declared.state.AccountState.{AccountState as StateOfAccount};

    /// No account.
    #[tactic(auto, using(crate::proofs::PutLemmas::none_lawful))]
    pub fn empty(alloc: Global) -> Accounts
        ensures { result ≡ map.empty }
    {
        Accounts {
            accounts: AccountMap::new(alloc),
        }
    }

    /// Whether the account was ever changed.
    pub fn contains(&self, account: &Account) -> bool
        ensures { result ≡ map.contains_key self.now account.now }
    {
        self.accounts.contains(account)
    }

    /// Takes the state of an account out, which is empty where it was never changed.
    pub fn take(&mut self, alloc: Global, account: &Account) -> AccountState
        ensures state { result ≡ account_in self.old account.now }
        ensures lawful { IsLawful result }
        ensures rest { self.new ≡ map.remove self.old account.now }
    {
        match self.accounts.remove(account) {
            Some(state) => state,
            None => AccountState::new(alloc),
        }
    }

    /// The state of an account, if it was ever changed.
    pub fn get(&self, account: &Account) -> Option<&AccountState>
        ensures state { option_copied result ≡ map.get self.now account.now }
        ensures lawful { IfSome result (λ state. IsLawful state.now) }
    {
        self.accounts.get(account)
    }

    /// The accounts with their states, in order.
    pub fn iter(&self) -> btree_map::Iter<'_, Account, AccountState>
        ensures rest { result ≡ map.entries self.now }
        ensures runs { ShowsInOrder (deref_pair {K = List ℕ} {X = StateOfAccount}) }
    {
        self.accounts.iter()
    }

    /// The moment of an account's last event.
    pub fn last(&self, account: &Account) -> Moment
        ensures { result ≡ (account_in self.now account.now).last }
    {
        match self.accounts.get(account) {
            Some(state) => state.last,
            None => Moment::new(0).unwrap(),
        }
    }

    /// Whether the moment `m` settles or ends something in an account.
    pub fn is_due(&self, account: &Account, m: Moment) -> bool
        ensures { result ≡ pass_is_event m (account_in self.now account.now) }
    {
        match self.accounts.get(account) {
            Some(state) => is_due(state, m),
            None => false,
        }
    }

    /// Puts the state of an account in. An error is want of memory.
    pub fn put(&mut self, account: Account, state: AccountState) -> Result<(), Memory>
        requires { IsLawful state }
        ensures { OnOk result (self.new ≡ map.insert self.old account state) }
    {
        self.accounts.insert(account, state)
    }

    /// Puts the state of an account in, where it is to be kept. An error is want of memory.
    pub fn put_if(
        &mut self,
        keep: bool,
        account: Account,
        state: AccountState,
    ) -> Result<(), Memory>
        requires { IsLawful state }
        ensures { OnOk result (self.new ≡
            (if keep then map.insert self.old account state else self.old)) }
    {
        if keep {
            self.put(account, state)
        } else {
            Ok(())
        }
    }
}
