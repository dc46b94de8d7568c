//! The number and the name of each refusal.
use site_replies::Refusal;

static REFUSALS: [(Refusal, u8, &str); 15] = [
    (Refusal::BadCommand, 1, "BadCommand"),
    (Refusal::BadImport, 2, "BadImport"),
    (Refusal::NoSuchPost, 3, "NoSuchPost"),
    (Refusal::DuplicateId, 4, "DuplicateId"),
    (Refusal::BadDate, 5, "BadDate"),
    (Refusal::UnknownPlugin, 6, "UnknownPlugin"),
    (Refusal::BadTemplate, 7, "BadTemplate"),
    (Refusal::TooLarge, 8, "TooLarge"),
    (Refusal::TooManyCalls, 9, "TooManyCalls"),
    (Refusal::TooDeep, 10, "TooDeep"),
    (Refusal::OutOfMemory, 11, "OutOfMemory"),
    (Refusal::Store, 12, "Store"),
    (Refusal::IdsUsedUp, 13, "IdsUsedUp"),
    (Refusal::NoSuchPage, 14, "NoSuchPage"),
    (Refusal::TooManyPages, 15, "TooManyPages"),
];

#[test]
fn refusals_are_numbered_as_they_stand(rt: HostRuntime) {
    for (refusal, number, name) in &REFUSALS {
        assert!(rt; refusal.number() == *number && refusal.name() == *name);
    }
}
