//! Digests as another program computes them.
use command_log::LineDigest;
use std::test::Fail;

// What `hashlib` of Python has for the lines below, each hashed after the digest before it.
const FIRST: &str = "426ddb1dc00b38f108d421f855cc55853b7127cebb5f48206a247902cfd26441";

const SECOND: &str = "b51278b6027b988ea4d54b90987c82d31ab88820c9fda4e27103683c61e95727";

#[test]
fn digests_are_sha_256(rt: HostRuntime) -> Result<(), Fail> {
    let mut digest = LineDigest::new();
    digest.add(b"{\"site\":1}");
    let first = hex::encode(rt.alloc(), digest.as_bytes())?;
    assert_eq!(rt; first.as_str(), FIRST);
    let before = digest;
    digest.add(b"");
    assert!(rt; !before.is(digest.as_bytes()));
    let second = hex::encode(rt.alloc(), digest.as_bytes())?;
    assert_eq!(rt; second.as_str(), SECOND);
    Ok(())
}
