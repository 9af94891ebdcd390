// Lists of vaults, page by page.
ghost use Rattle.std.specs.Prelude.{◌≡◌, IfOk, Some, None};
ghost use Rattle.std.specs.Option.{option_copied};
ghost use Rattle.glacier_vault.specs.Lists.{page, names_from};

use crate::state::AccountState;
use glacier_base::{List, Memory, VaultName};
use std::alloc::Global;

/// The first names, and the one behind them.
fn first_names(
    alloc: Global,
    state: &AccountState,
    limit: usize,
) -> Result<(List<VaultName>, Option<VaultName>), Memory>
    ensures { IfOk result (λ listed. listed ≡ page limit (names_from None state.now)) }
{
    let mut names = List::new(alloc);
    for name in state.vaults.keys() {
        if names.as_slice().len() >= limit {
            return Ok((names, Some(*name)));
        }
        names.push(*name)?;
    }
    Ok((names, None))
}

/// The first names from a marker on, and the one behind them.
fn names_at(
    alloc: Global,
    state: &AccountState,
    from: &VaultName,
    limit: usize,
) -> Result<(List<VaultName>, Option<VaultName>), Memory>
    ensures { IfOk result (λ listed. listed ≡ page limit (names_from (Some from.now) state.now)) }
{
    let mut names = List::new(alloc);
    for (name, _) in state.vaults.range_from(from) {
        if names.as_slice().len() >= limit {
            return Ok((names, Some(*name)));
        }
        names.push(*name)?;
    }
    Ok((names, None))
}

/// The names of an account's vaults in their order, at most `limit` of them, from the first one
/// that isn't below `from`; and the name that the next page begins with, where there is one.
pub fn list(
    alloc: Global,
    state: &AccountState,
    from: Option<&VaultName>,
    limit: u32,
) -> Result<(List<VaultName>, Option<VaultName>), Memory>
    ensures { IfOk result (λ listed.
        listed ≡ page limit (names_from (option_copied from.entry) state.now)) }
{
    match from {
        None => first_names(alloc, state, limit as usize),
        Some(from) => names_at(alloc, state, from, limit as usize),
    }
}
