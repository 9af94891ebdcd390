// Pages of an account's vaults, by hand from docs/rules/vault-machine.md.
ghost use Rattle.std.specs.Prelude.{OnOk};
ghost use Rattle.glacier_vault.specs.Lawful.{IsLawful};

use glacier_base::{List, Memory, Moment, VaultName};
use glacier_vault::{AccountState, create, list};
use std::alloc::Global;

/// Makes a vault of this name at the account's last moment.
fn add(alloc: Global, state: &mut AccountState, name: &VaultName) -> Result<(), Memory>
    requires { IsLawful state.old }
    ensures { OnOk result (IsLawful state.new) }
{
    let m = state
        .last
        .later(Moment::new(1_337_905_493).unwrap_or(state.last));
    let _ = create(alloc, state, m, name)?;
    Ok(())
}

/// Makes vaults of these names.
fn add_all(alloc: Global, state: &mut AccountState, names: &[&str]) -> Result<(), Memory>
    requires { IsLawful state.old }
    ensures { OnOk result (IsLawful state.new) }
{
    for name in names {
        if let Some(name) = VaultName::parse(name.as_bytes()) {
            add(alloc, state, &name)?;
        }
    }
    Ok(())
}

/// The marker and the limit of a list, the names and the next marker. No text is no marker.
type Page = (&'static str, u32, &'static [&'static str], &'static str);

const PAGES: [Page; 9] = [
    ("", 2, &["a", "b"], "c"),
    ("c", 2, &["c"], ""),
    ("", 3, &["a", "b", "c"], ""),
    ("", 1000, &["a", "b", "c"], ""),
    ("", 1, &["a"], "b"),
    ("aa", 1, &["b"], "c"),
    ("B", 2, &["a", "b"], "c"),
    ("b", 2, &["b", "c"], ""),
    ("d", 1, &[], ""),
];

/// Whether the name is of this text, which is empty where there is no name.
fn is_marker(name: &Option<VaultName>, text: &str) -> bool {
    match name {
        Some(name) => name.bytes() == text.as_bytes(),
        None => text.is_empty(),
    }
}

fn are(names: &List<VaultName>, texts: &[&str]) -> bool {
    let names = names.as_slice();
    if names.len() != texts.len() {
        return false;
    }
    for i in 0..names.len() {
        if names[i].bytes() != texts[i].as_bytes() {
            return false;
        }
    }
    true
}

fn is_listed(alloc: Global, state: &AccountState, page: &Page) -> Result<bool, Memory> {
    let (from, limit, texts, next) = *page;
    let from = VaultName::parse(from.as_bytes());
    let (names, marker) = list(alloc, state, from.as_ref(), limit)?;
    Ok(are(&names, texts) && is_marker(&marker, next))
}

#[test]
fn vaults_are_listed_by_their_names(rt: HostRuntime) -> Result<(), Memory> {
    let alloc = rt.alloc();
    let mut state = AccountState::new(alloc);
    add_all(alloc, &mut state, &["c", "a", "b"])?;
    for page in &PAGES {
        assert!(rt; is_listed(alloc, &state, page)?, "{} {}", page.0, page.1);
    }
    Ok(())
}
