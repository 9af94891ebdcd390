// The published values of HMAC (RFC 4231), and signing keys.
use glacier_base::Region;
use glacier_hmac::{Mac, hmac, signing_key};

const ELEVENS: [u8; 20] = [0x0b; 20];

const RISING: [u8; 25] = [
    1, 2, 3, 4, 5, 6, 7, 8, 9, 10, 11, 12, 13, 14, 15, 16, 17, 18, 19, 20, 21, 22, 23, 24, 25,
];

const SHORT_KEY: [u8; 20] = [0xaa; 20];

const LONG_KEY: [u8; 131] = [0xaa; 131];

/// A key that fills a block, and one that is a byte longer.
const BLOCK_KEY: [u8; 64] = [b'k'; 64];

const LONGER_KEY: [u8; 65] = [b'k'; 65];

/// A key, a message and its code: RFC 4231, cases 1 to 4, 6 and 7, and three by Python's `hmac`.
const CODES: [(&[u8], &[u8], &str); 9] = [
    (
        &ELEVENS,
        b"Hi There",
        "b0344c61d8db38535ca8afceaf0bf12b881dc200c9833da726e9376c2e32cff7",
    ),
    (
        b"Jefe",
        b"what do ya want for nothing?",
        "5bdcc146bf60754e6a042426089575c75a003f089d2739839dec58b964ec3843",
    ),
    (
        &SHORT_KEY,
        &[0xdd; 50],
        "773ea91e36800e46854db8ebd09181a72959098b3ef8c122d9635514ced565fe",
    ),
    (
        &RISING,
        &[0xcd; 50],
        "82558a389a443c0ea4cc819899f2083a85f0faa3e578f8077a2e3ff46729665b",
    ),
    (
        &LONG_KEY,
        b"Test Using Larger Than Block-Size Key - Hash Key First",
        "60e431591ee0b67f0d8a26aacbf5b77f8e0bc6213728c5140546040f0ee37f54",
    ),
    (
        &LONG_KEY,
        b"This is a test using a larger than block-size key and a larger than block-size data. The key needs to be hashed before being used by the HMAC algorithm.",
        "9b09ffa71b942fcb27635fbcd5b0e944bfdc63644f0713938a7f51535c3a35e2",
    ),
    (
        b"",
        b"",
        "b613679a0814d9ec772f95d778c35fc5ff1697c493715653c6c712144292c5ad",
    ),
    (
        &BLOCK_KEY,
        b"m",
        "3b7a8d453e76edb519238a515105a57508d0f169f480ebeee120a9e7803289fa",
    ),
    (
        &LONGER_KEY,
        b"m",
        "c2d7d4c2256ddb097409ec0c67e1d58fa1a007fc6932cac0d892a525d08af7cc",
    ),
];

/// Whether the code is that of the message as a whole, and byte by byte.
fn is_code(key: &[u8], message: &[u8], code: &str) -> bool {
    let mut mac = Mac::new(key);
    for byte in message {
        mac.update(&[*byte]);
    }
    hmac(key, message).text().as_slice() == code.as_bytes()
        && mac.finish().text().as_slice() == code.as_bytes()
}

#[test]
fn published_values(rt: HostRuntime) {
    for (key, message, code) in CODES {
        assert!(rt; is_code(key, message, code), "{code}");
    }
}

const LONG_SECRET: [u8; 128] = [b's'; 128];

/// A secret and its signing key of 20120525 and us-east-1.
const SIGNING_KEYS: [(&[u8], &str); 2] = [
    (
        b"wJalrXUtnFEMI/K7MDENG+bPxRfiCYEXAMPLEKEY",
        "20d9bbcb86d3f56d81c9a57b6be1cb579787381792bc5aa42426d48e4ed7c59c",
    ),
    (
        &LONG_SECRET,
        "8099ff1172f6f5181cdce6af6c0232a74f9ab975d6b6d7c8f5a0e9d09f685729",
    ),
];

fn is_signing_key(secret: &[u8], key: &str) -> bool {
    match Region::parse(b"us-east-1") {
        Some(region) => {
            signing_key(secret, b"20120525", &region).text().as_slice() == key.as_bytes()
        }
        None => false,
    }
}

#[test]
fn signing_keys(rt: HostRuntime) {
    for (secret, key) in SIGNING_KEYS {
        assert!(rt; is_signing_key(secret, key), "{key}");
    }
}
