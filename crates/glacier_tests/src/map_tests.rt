// Three entries of each map, and what its calls say of them.
ghost use Rattle.std.specs.Iterator.{IsFinite};

use glacier_base::{Account, AccountMap, NameMap, NumberMap, PartMap, VaultName};
use std::alloc::Global;

/// Whether this is the last of the items.
fn is_last<'a, T: PartialEq + 'a, I: Iterator<Item = &'a T>>(items: I, wanted: &T) -> bool
    requires { I.can_next items × IsFinite (I.remaining items) }
{
    let mut is_last = false;
    for item in items {
        is_last = *item == *wanted;
    }
    is_last
}

/// Whether this entry comes next.
fn is_next<'a, K: PartialEq + 'a, I: Iterator<Item = (&'a K, &'a u64)>>(
    entries: &mut I,
    key: &K,
    value: u64,
) -> bool
    requires { I.can_next entries.old }
{
    match entries.next() {
        Some((next_key, next_value)) => *next_key == *key && *next_value == value,
        None => false,
    }
}

fn is_above_1<K>(_key: &K, value: &mut u64) -> bool {
    *value > 1
}

fn are_numbers_inserted(map: &mut NumberMap<u64>) -> bool {
    map.insert(30, 3).is_ok() && map.insert(10, 1).is_ok() && map.insert(20, 2).is_ok()
}

fn are_numbers_listed(map: &NumberMap<u64>) -> bool {
    is_last(map.values(), &3)
        && is_last(map.keys(), &30)
        && is_next(&mut map.iter(), &10, 1)
        && is_next(&mut map.range_from(20), &20, 2)
}

fn are_numbers_changed(map: &mut NumberMap<u64>) -> bool {
    if let Some(value) = map.get_mut(20) {
        *value = 5;
    }
    let removed = map.remove(30);
    map.retain(is_above_1);
    removed == Some(3) && map.len() == 1 && map.get(20) == Some(&5) && !map.contains(10)
}

fn are_numbers_kept(alloc: Global) -> Option<bool> {
    let mut map = NumberMap::new(alloc);
    let is_made = map.is_empty() && are_numbers_inserted(&mut map);
    let listed = map.key_list(alloc).ok()?;
    Some(
        is_made
            && listed.as_slice() == [10, 20, 30].as_slice()
            && are_numbers_listed(&map)
            && are_numbers_changed(&mut map),
    )
}

fn are_parts_inserted(map: &mut PartMap<u64>) -> bool {
    map.insert(30, 3).is_ok() && map.insert(10, 1).is_ok() && map.insert(20, 2).is_ok()
}

fn are_parts_listed(map: &PartMap<u64>) -> bool {
    is_last(map.values(), &3)
        && is_last(map.keys(), &30)
        && is_next(&mut map.iter(), &10, 1)
        && is_next(&mut map.range_from(20), &20, 2)
}

fn are_parts_changed(map: &mut PartMap<u64>) -> bool {
    if let Some(value) = map.get_mut(20) {
        *value = 5;
    }
    let removed = map.remove(30);
    map.retain(is_above_1);
    removed == Some(3) && map.len() == 1 && map.get(20) == Some(&5) && !map.contains(10)
}

fn are_parts_kept(alloc: Global) -> Option<bool> {
    let mut map = PartMap::new(alloc);
    let is_made = map.is_empty() && are_parts_inserted(&mut map);
    let listed = map.key_list(alloc).ok()?;
    Some(
        is_made
            && listed.as_slice() == [10, 20, 30].as_slice()
            && are_parts_listed(&map)
            && are_parts_changed(&mut map),
    )
}

fn are_names_inserted(map: &mut NameMap<u64>, keys: &[VaultName; 3]) -> bool {
    let [a, b, c] = *keys;
    map.insert(c, 3).is_ok() && map.insert(a, 1).is_ok() && map.insert(b, 2).is_ok()
}

fn are_names_listed(map: &NameMap<u64>, keys: &[VaultName; 3]) -> bool {
    let [a, b, c] = keys;
    is_last(map.values(), &3)
        && is_last(map.keys(), c)
        && is_next(&mut map.iter(), a, 1)
        && is_next(&mut map.range_from(b), b, 2)
}

fn are_names_changed(map: &mut NameMap<u64>, keys: &[VaultName; 3]) -> bool {
    let [a, b, c] = keys;
    if let Some(value) = map.get_mut(b) {
        *value = 5;
    }
    let removed = map.remove(c);
    map.retain(is_above_1);
    removed == Some(3) && map.len() == 1 && map.get(b) == Some(&5) && !map.contains(a)
}

fn are_names_kept(alloc: Global) -> Option<bool> {
    let keys = [
        VaultName::parse(b"a")?,
        VaultName::parse(b"b")?,
        VaultName::parse(b"c")?,
    ];
    let mut map = NameMap::new(alloc);
    let is_made = map.is_empty() && are_names_inserted(&mut map, &keys);
    let listed = map.key_list(alloc).ok()?;
    Some(
        is_made
            && listed.as_slice() == keys.as_slice()
            && are_names_listed(&map, &keys)
            && are_names_changed(&mut map, &keys),
    )
}

fn are_accounts_inserted(map: &mut AccountMap<u64>, keys: &[Account; 3]) -> bool {
    let [a, b, c] = *keys;
    map.insert(c, 3).is_ok() && map.insert(a, 1).is_ok() && map.insert(b, 2).is_ok()
}

fn are_accounts_listed(map: &AccountMap<u64>, keys: &[Account; 3]) -> bool {
    let [a, b, c] = keys;
    is_last(map.values(), &3)
        && is_last(map.keys(), c)
        && is_next(&mut map.iter(), a, 1)
        && is_next(&mut map.range_from(b), b, 2)
}

fn are_accounts_changed(map: &mut AccountMap<u64>, keys: &[Account; 3]) -> bool {
    let [a, b, c] = keys;
    if let Some(value) = map.get_mut(b) {
        *value = 5;
    }
    let removed = map.remove(c);
    map.retain(is_above_1);
    removed == Some(3) && map.len() == 1 && map.get(b) == Some(&5) && !map.contains(a)
}

fn are_accounts_kept(alloc: Global) -> Option<bool> {
    let keys = [
        Account::parse(b"111111111111")?,
        Account::parse(b"222222222222")?,
        Account::parse(b"333333333333")?,
    ];
    let mut map = AccountMap::new(alloc);
    let is_made = map.is_empty() && are_accounts_inserted(&mut map, &keys);
    let listed = map.key_list(alloc).ok()?;
    Some(
        is_made
            && listed.as_slice() == keys.as_slice()
            && are_accounts_listed(&map, &keys)
            && are_accounts_changed(&mut map, &keys),
    )
}

#[test]
fn maps_keep_three_entries(rt: HostRuntime) {
    let alloc = rt.alloc();
    assert!(rt; are_numbers_kept(alloc) == Some(true));
    assert!(rt; are_parts_kept(alloc) == Some(true));
    assert!(rt; are_names_kept(alloc) == Some(true));
    assert!(rt; are_accounts_kept(alloc) == Some(true));
}
