// Why an action is refused before its body is taken.
ghost use Rattle.std.specs.Prelude.{◌≡◌};
ghost use Rattle.glacier_machine.specs.AccountSteps.{admission_refusal};
ghost use Rattle.glacier_vault.specs.Account.{empty_account};
ghost use Rattle.glacier_vault.specs.Accounts.{account_in};

use crate::Store;
use glacier_base::Moment;
use glacier_machine::{Action, admit};
use glacier_vault::{Refusal, Rules};

/// Why an action of an account that was never changed is refused: it has no vault.
fn unknown(rules: &Rules, action: &Action) -> Option<Refusal>
    ensures { result ≡ admission_refusal rules.now empty_account action.now }
{
    let _ = rules;
    match action {
        Action::Upload(ask) => Some(Refusal::NoVault { name: ask.vault }),
        _ => None,
    }
}

impl Store {
    /// Why an action on an account is refused before its body is taken, as `admit` says. It takes no
    /// memory.
    pub fn admit(&self, rules: &Rules, m: Moment, action: &Action) -> Option<Refusal>
        ensures { result ≡ admission_refusal rules.now
            (account_in self.now.accounts rules.now.account) action.now }
    {
        match self.accounts.get(&rules.account) {
            Some(state) => admit(state, rules, m, action),
            None => unknown(rules, action),
        }
    }
}
