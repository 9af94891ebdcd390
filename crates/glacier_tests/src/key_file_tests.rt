// Key files, and the first line of them that is bad.
use crate::sigv4_tests::KEY_FILE;
use glacier_sigv4::{KeyFault, KeyRing};
use std::alloc::Global;
use std::test::Fail;

/// Key files, and the line that is bad, 0 where none is.
const KEY_FILES: [(&str, u32); 15] = [
    ("", 1),
    ("\n", 1),
    (KEY_FILE, 0),
    ("111122223333 A s 0000064\n", 0),
    ("111122223333 A s 00000064\n", 1),
    ("111122223333 A s 64\n\n", 2),
    ("111122223333 A s 64\n111122223333 B s 1", 2),
    ("111122223333 A s 64\n211122223333 A s 1", 2),
    ("111122223333 A s 64\n211122223333 B s 1\n", 0),
    ("111122223333 A s 1048576\n211122223333 B s 1", 2),
    ("111122223333 A s 0", 1),
    ("111122223333 A  s 64", 1),
    ("111122223333 A s 64 ", 1),
    ("11112222333 A s 64", 1),
    ("111122223333 A- s 64", 1),
];

/// The line that is bad, 0 where none is.
fn bad_line(alloc: Global, text: &[u8]) -> Option<u32> {
    match KeyRing::read(alloc, text) {
        Ok(_) => Some(0),
        Err(KeyFault::BadLine { line }) => Some(line),
        Err(KeyFault::Memory) => None,
    }
}

/// A key file of 65 good lines.
fn many(alloc: Global) -> Option<String> {
    let mut many = String::new(alloc);
    for i in 0..65 {
        many.push_str(format!(in alloc; "{i:012} A{i} s 1\n").ok()?.as_str())
            .ok()?;
    }
    Some(many)
}

#[test]
fn key_files(rt: HostRuntime) -> Result<(), Fail> {
    for (text, line) in KEY_FILES {
        assert!(rt;
            bad_line(rt.alloc(), text.as_bytes()) == Some(line),
            "{text}"
        );
    }
    let many = many(rt.alloc()).ok_or("memory")?;
    assert!(rt; bad_line(rt.alloc(), many.as_bytes()) == Some(65));
    Ok(())
}
