//! What the contracts can't say: values from outside, and that calls find memory.

use cv_seal::{KeyedHash, Signer, hmac_sha1};
use std::alloc::Global;
use std::test::Fail;

/// Keys and texts, each a text repeated, and their HMAC-SHA1 by the `hmac` of Python.
static MACS: [(&str, usize, &str, usize, &str); 56] = [
    ("k", 0, "t", 3, "0654f230ae21bb46123dfe6acf91730d15d6db6c"),
    ("k", 1, "t", 20, "bc821836e4f2a288e076fb3b53050519c3b43d90"),
    ("k", 2, "t", 54, "f256052d2fb42b7fd43102717f72b202e2d02fd0"),
    ("k", 3, "t", 63, "3e2fe3bbd4c70828647a44bbcaacf8ec8268cabe"),
    ("k", 7, "t", 120, "d7c52d17ee80c4c4a54a69ceeed9a6285af4c4d8"),
    ("k", 8, "t", 0, "e8d74b4ac544c90de978447283a2393f9871dc21"),
    ("k", 13, "t", 8, "7b548aef6ff2ab1ef313828874c2812690564b1d"),
    ("k", 19, "t", 31, "78c823d6e8c3110320dd2ca756ea96b96bd109c8"),
    ("k", 20, "t", 56, "32ef066bb375d019db3f27d5a8dce6512b0ccb33"),
    ("k", 21, "t", 65, "e3b07cd1d344b6159914a2a1c63c8cbe999a52e0"),
    (
        "k",
        31,
        "t",
        128,
        "54651391c475fb56fe2a26e46fcab4081e0175bf",
    ),
    ("k", 32, "t", 2, "1a0b57b4aaa937e2396539418e3bc9630b3c43d2"),
    ("k", 33, "t", 19, "d42c9bab50521d44603736d35ee94490d7a3f9db"),
    ("k", 54, "t", 33, "347ac30fc9c3430456adebff67cc9e3fa4067a38"),
    ("k", 55, "t", 62, "12e1d1d9ebfc1b5c67c36fa8c44feae1e6a9c83f"),
    (
        "k",
        56,
        "t",
        119,
        "9f2032c235e0b90b5f7e1e707476c4366e7da74a",
    ),
    (
        "k",
        57,
        "t",
        200,
        "7fd6573b07c4b55c33b6dbc7e8694b2852bf1eed",
    ),
    ("k", 62, "t", 7, "aa45f0a8b3cdaf79ebf0ecb4150431a7552da787"),
    ("k", 63, "t", 21, "2628f0222e56d8bfae6cf5a618f9c3f709c819bd"),
    ("k", 64, "t", 55, "c95184cc976ae11105e1144cd6b0f8516ed85678"),
    ("k", 65, "t", 64, "98f9d81cd265e2f069ab10f413d3eb149bf63d80"),
    (
        "k",
        66,
        "t",
        127,
        "084da6b4f41d401808940022091d3f65b90ef367",
    ),
    ("k", 119, "t", 1, "6e0ff2dac2677de3afce68d32b8b7784b42b1630"),
    (
        "k",
        120,
        "t",
        13,
        "9e204fc73042c3d5e5350786b14c17cd601627b9",
    ),
    (
        "k",
        127,
        "t",
        32,
        "9b5f3979df65f79deff501849dddc3be65a02384",
    ),
    (
        "k",
        128,
        "t",
        57,
        "adfa0aa7defc28b4b13b06ef39bc810a0849a0f9",
    ),
    (
        "k",
        129,
        "t",
        66,
        "1ad4a136d2f19da517e01d9962769d9a7555928c",
    ),
    (
        "k",
        200,
        "t",
        129,
        "8b6ffa86c0a9e91c6bfdf721e17adfa1196b9a80",
    ),
    ("é", 0, "名", 13, "2cab0b9706fcd7c8a32cb06894f84da6f6b6516b"),
    ("é", 1, "名", 62, "597f5923d021bd554f6507ea19fe78b03d425475"),
    ("é", 2, "名", 0, "47adcd3ba7264e460a99fefe80a122cb42968706"),
    ("é", 3, "名", 32, "73f2aa8a9c7f3ffa10a0689345b2f6f219971a37"),
    ("é", 7, "名", 119, "67e405463ad4665d9cf0c93471e54a027784c9fd"),
    ("é", 8, "名", 8, "a1c23e51ca998d918f381a5cec53a90b105694bb"),
    ("é", 13, "名", 57, "3e95dd9c1e473dbdcb1a1ee6de6475bdca2d0fe5"),
    (
        "é",
        19,
        "名",
        200,
        "02a2911af93cb0c0dbfbec091060859420ca2ddb",
    ),
    ("é", 20, "名", 31, "0beb55649115ca1f84f4ada0dbee3fb0bfe680e2"),
    ("é", 21, "名", 66, "e874725b368981e4ec41f394479e52c6e1370022"),
    ("é", 31, "名", 7, "a365588270932ec43fe0cc2e9b7012da6d08d91d"),
    ("é", 32, "名", 56, "824ec6ae26cec452170f8d5cc4047982c724b7fd"),
    (
        "é",
        33,
        "名",
        129,
        "1104e0e082981ac6e1edfc7ef4608e6a4aee326a",
    ),
    ("é", 54, "名", 21, "e73baf5598277f5f125f1e8eafd94ea8c2f49c4d"),
    ("é", 55, "名", 65, "70ca51c405965c2bd01d5b7a7abb98bc865aba72"),
    ("é", 56, "名", 3, "580459169b245d65f5cfb17edadb1e1893a7efbb"),
    ("é", 57, "名", 55, "238e9a34d15b2a259ee6d4e7acc431a5f80e2326"),
    (
        "é",
        62,
        "名",
        128,
        "5a93b326fbf8a3957dd6435cc73ab223c974eecc",
    ),
    ("é", 63, "名", 20, "57c36095dc515fe18d7cc129d9951f6e11ae43e4"),
    ("é", 64, "名", 64, "1d7452d25fdb6b4bad1f265d123a408d74a07c32"),
    ("é", 65, "名", 2, "b80ccb52a724a4f904be16d289981f9e4e5525e9"),
    ("é", 66, "名", 54, "48b102a6807a116d824a9a7566153424c4ffe312"),
    (
        "é",
        119,
        "名",
        127,
        "d9b93a9d29e79bc05d2988256130c4de8f2b6f6d",
    ),
    (
        "é",
        120,
        "名",
        19,
        "a1c9cd3db38796fcef0dae550f02c2199a08b8d4",
    ),
    (
        "é",
        127,
        "名",
        63,
        "2600ac97d57c013ca39a55ff0d2243c8f0da3347",
    ),
    ("é", 128, "名", 1, "99cc2775f4ff6f060760439cbf66b7e7f6e987f1"),
    (
        "é",
        129,
        "名",
        33,
        "6442bbb97c76649feddc7a3fc425f42258c9bbcd",
    ),
    (
        "é",
        200,
        "名",
        120,
        "1d71110ba619c05300b16be6651b79aa898fadea",
    ),
];

/// The vectors of RFC 2202, section 3, whose keys are one byte repeated.
static VECTORS: [(u8, usize, &str, &str); 3] = [
    (
        0x0b,
        20,
        "Hi There",
        "b617318655057264e28bc0b6fb378c8ef146be00",
    ),
    (
        0xaa,
        80,
        "Test Using Larger Than Block-Size Key - Hash Key First",
        "aa4ae5e15272d00e95705637ce8a3b55ed402112",
    ),
    (
        0xaa,
        80,
        "Test Using Larger Than Block-Size Key and Larger Than One Block-Size Data",
        "e8e99d0f45237d786d6bbaa7965c7808bbff1a91",
    ),
];

/// The HMAC in hex.
fn mac_text(alloc: Global, key: &[u8], text: &str) -> Result<String, Fail> {
    let mac = hmac_sha1(key, text.as_bytes());
    Ok(hex::encode(alloc, &mac)?)
}

/// A text of this many copies of another.
fn repeated(alloc: Global, text: &str, count: usize) -> Result<String, Fail> {
    let mut all = String::new(alloc);
    for _ in 0..count {
        all.push_str(text)?;
    }
    Ok(all)
}

#[test]
fn macs_are_those_of_python(rt: HostRuntime) -> Result<(), Fail> {
    for (key, key_count, text, text_count, mac) in &MACS {
        let key = repeated(rt.alloc(), key, *key_count)?;
        let text = repeated(rt.alloc(), text, *text_count)?;
        let own = mac_text(rt.alloc(), key.as_bytes(), text.as_str())?;
        assert_eq!(rt; own.as_str(), *mac);
    }
    Ok(())
}

#[test]
fn macs_are_those_of_rfc_2202(rt: HostRuntime) -> Result<(), Fail> {
    let own = mac_text(rt.alloc(), b"Jefe", "what do ya want for nothing?")?;
    assert_eq!(rt; own.as_str(), "effcdf6ae5eb2fa2d27416d5f184df9c259a7c79");
    for (byte, count, text, mac) in &VECTORS {
        let key = vec![in rt.alloc(); *byte; *count]?;
        assert_eq!(rt; mac_text(rt.alloc(), &key, text)?.as_str(), *mac);
    }
    Ok(())
}

#[test]
fn a_keyed_hash_verifies_its_own_seal_alone(rt: HostRuntime) -> Result<(), Fail> {
    let signer = KeyedHash::new(String::from_str(rt.alloc(), "Jefe")?);
    let text = b"what do ya want for nothing?";
    let seal = signer.sign(rt.alloc(), text)?;
    let hex = hex::encode(rt.alloc(), seal.as_slice())?;
    assert_eq!(rt; hex.as_str(), "effcdf6ae5eb2fa2d27416d5f184df9c259a7c79");
    assert!(rt; signer.verifies(text, seal.as_slice()));
    assert!(rt; !signer.verifies(b"what", seal.as_slice()));
    assert!(rt; !signer.verifies(text, b""));
    assert!(rt; !signer.verifies(text, &[0u8; 20]));
    Ok(())
}
