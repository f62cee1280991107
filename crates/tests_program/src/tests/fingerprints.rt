//! The test messages of FIPS 180-4, by the call that the command `model` makes.
use cg_report::fingerprint;
use std::alloc::Global;
use std::test::Fail;

/// Messages, and their SHA-256.
static MESSAGES: [(&str, &str); 3] = [
    (
        "",
        "e3b0c44298fc1c149afbf4c8996fb92427ae41e4649b934ca495991b7852b855",
    ),
    (
        "abc",
        "ba7816bf8f01cfea414140de5dae2223b00361a396177a9cb410ff61f20015ad",
    ),
    (
        "abcdbcdecdefdefgefghfghighijhijkijkljklmklmnlmnomnopnopq",
        "248d6a61d20638b8e5c026930c3e6039a33ce45964ff2167f6ecedd419db06c1",
    ),
];

fn fingerprint_of(alloc: Global, bytes: &[u8]) -> Result<String, Fail> {
    let mut text = Vec::new(alloc);
    fingerprint(alloc, bytes, &mut text)?;
    Ok(String::from_utf8(text)?)
}

#[test]
fn messages(rt: HostRuntime) -> Result<(), Fail> {
    for (message, want) in &MESSAGES {
        let text = fingerprint_of(rt.alloc(), message.as_bytes())?;
        assert_eq!(rt; text.as_str(), *want, "{message}");
    }
    Ok(())
}

/// A million times the letter a.
#[test]
fn a_million(rt: HostRuntime) -> Result<(), Fail> {
    let long = vec![in rt.alloc(); b'a'; 1_000_000]?;
    let text = fingerprint_of(rt.alloc(), &long)?;
    assert_eq!(rt;
        text.as_str(),
        "cdc76e5c9914fb9281a1c7e284d73e67f1809a48a497200e046d39ccc7112cd0"
    );
    Ok(())
}
