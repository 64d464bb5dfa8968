// The objects, references and names of a card: the values of SP 800-73-4 part 1.
use piv_model::Rule::{Always, ContactUse, Never, Pin};
use piv_model::status_words::{piece_word, verification_failed};
use piv_model::{
    Application, Interface, KeyId, ObjectId, Rule, application_by_name, object_by_oid,
    object_by_tag, read_rule, tag, use_rule,
};
use std::process::Abort;
use std::test::Fail;

// Tag, the rest of the identifier, and the rules for reading on contact and contactless: the values of
// SP 800-73-4 part 1.
#[rattlefmt::skip]
const OBJECTS: [(&[u8], &str, Rule, Rule); 33] = [
    (&[0x5F, 0xC1, 0x07], "2.16.840.1.101.3.7.1.219.0", Always, Never),
    (&[0x5F, 0xC1, 0x02], "2.16.840.1.101.3.7.2.48.0", Always, Always),
    (&[0x5F, 0xC1, 0x05], "2.16.840.1.101.3.7.2.1.1", Always, Never),
    (&[0x5F, 0xC1, 0x03], "2.16.840.1.101.3.7.2.96.16", Pin, Never),
    (&[0x5F, 0xC1, 0x06], "2.16.840.1.101.3.7.2.144.0", Always, Never),
    (&[0x5F, 0xC1, 0x08], "2.16.840.1.101.3.7.2.96.48", Pin, Never),
    (&[0x5F, 0xC1, 0x01], "2.16.840.1.101.3.7.2.5.0", Always, Always),
    (&[0x5F, 0xC1, 0x0A], "2.16.840.1.101.3.7.2.1.0", Always, Never),
    (&[0x5F, 0xC1, 0x0B], "2.16.840.1.101.3.7.2.1.2", Always, Never),
    (&[0x5F, 0xC1, 0x09], "2.16.840.1.101.3.7.2.48.1", Pin, Never),
    (&[0x7E], "2.16.840.1.101.3.7.2.96.80", Always, Always),
    (&[0x5F, 0xC1, 0x0C], "2.16.840.1.101.3.7.2.96.96", Always, Never),
    (&[0x5F, 0xC1, 0x0D], "2.16.840.1.101.3.7.2.16.1", Always, Never),
    (&[0x5F, 0xC1, 0x0E], "2.16.840.1.101.3.7.2.16.2", Always, Never),
    (&[0x5F, 0xC1, 0x0F], "2.16.840.1.101.3.7.2.16.3", Always, Never),
    (&[0x5F, 0xC1, 0x10], "2.16.840.1.101.3.7.2.16.4", Always, Never),
    (&[0x5F, 0xC1, 0x11], "2.16.840.1.101.3.7.2.16.5", Always, Never),
    (&[0x5F, 0xC1, 0x12], "2.16.840.1.101.3.7.2.16.6", Always, Never),
    (&[0x5F, 0xC1, 0x13], "2.16.840.1.101.3.7.2.16.7", Always, Never),
    (&[0x5F, 0xC1, 0x14], "2.16.840.1.101.3.7.2.16.8", Always, Never),
    (&[0x5F, 0xC1, 0x15], "2.16.840.1.101.3.7.2.16.9", Always, Never),
    (&[0x5F, 0xC1, 0x16], "2.16.840.1.101.3.7.2.16.10", Always, Never),
    (&[0x5F, 0xC1, 0x17], "2.16.840.1.101.3.7.2.16.11", Always, Never),
    (&[0x5F, 0xC1, 0x18], "2.16.840.1.101.3.7.2.16.12", Always, Never),
    (&[0x5F, 0xC1, 0x19], "2.16.840.1.101.3.7.2.16.13", Always, Never),
    (&[0x5F, 0xC1, 0x1A], "2.16.840.1.101.3.7.2.16.14", Always, Never),
    (&[0x5F, 0xC1, 0x1B], "2.16.840.1.101.3.7.2.16.15", Always, Never),
    (&[0x5F, 0xC1, 0x1C], "2.16.840.1.101.3.7.2.16.16", Always, Never),
    (&[0x5F, 0xC1, 0x1D], "2.16.840.1.101.3.7.2.16.17", Always, Never),
    (&[0x5F, 0xC1, 0x1E], "2.16.840.1.101.3.7.2.16.18", Always, Never),
    (&[0x5F, 0xC1, 0x1F], "2.16.840.1.101.3.7.2.16.19", Always, Never),
    (&[0x5F, 0xC1, 0x20], "2.16.840.1.101.3.7.2.16.20", Always, Never),
    (&[0x5F, 0xC1, 0x21], "2.16.840.1.101.3.7.2.16.21", Pin, Never),
];

fn check_row(rt: &impl Abort, id: Option<ObjectId>, place: usize) {
    assert!(rt; id.map(|id| id.place() as usize) == Some(place));
}

#[test]
fn every_object_has_its_tag_identifier_and_rules(rt: HostRuntime) -> Result<(), Fail> {
    for (place, (bytes, oid, contact, contactless)) in OBJECTS.iter().enumerate() {
        check_row(&rt, object_by_oid(oid), place);
        check_row(&rt, object_by_tag(bytes), place);
        let id = object_by_tag(bytes).ok_or("no such object")?;
        assert!(rt; tag(id) == *bytes);
        assert!(rt; read_rule(id, Interface::Contact) == *contact);
        assert!(rt; read_rule(id, Interface::Contactless) == *contactless);
    }
    Ok(())
}

#[test]
fn nothing_else_is_an_object(rt: HostRuntime) -> Result<(), Fail> {
    let tags: [&[u8]; 6] = [
        &[],
        &[0x5F],
        &[0x5F, 0xC1],
        &[0x5F, 0xC1, 0x22],
        &[0x7F, 0x61],
        &[0x7E, 0x00],
    ];
    for bytes in tags {
        assert!(rt; object_by_tag(bytes).is_none(), "{bytes:?}");
    }
    for oid in [
        "",
        "1.2.3",
        "2.16.840.1.101.3.7.2.48",
        "2.16.840.1.101.3.7.2.48.2",
    ] {
        assert!(rt; object_by_oid(oid).is_none(), "{oid}");
    }
    assert!(rt; use_rule(KeyId::AdminKey) == ContactUse);
    assert!(rt; use_rule(KeyId::CardAuth) == Always);
    Ok(())
}

#[test]
fn an_application_is_found_by_its_names_alone(rt: HostRuntime) {
    let piv = [
        0xA0, 0x00, 0x00, 0x03, 0x08, 0x00, 0x00, 0x10, 0x00, 0x01, 0x00,
    ];
    for size in 0..12 {
        let found = application_by_name(&piv[..size]);
        let named = (size == 9 || size == 11).then_some(Application::Piv);
        assert!(rt; found == named, "{size}");
    }
    let idle = [0xF0, 0x49, 0x44, 0x4C, 0x45];
    assert!(rt; application_by_name(&idle) == Some(Application::Idle));
    assert!(rt; application_by_name(&idle[..4]).is_none());
}

#[test]
fn status_words_carry_tries_and_bytes(rt: HostRuntime) {
    for (left, word) in [(0, 0x63C0), (3, 0x63C3), (14, 0x63CE)] {
        assert_eq!(rt; verification_failed(left), word);
    }
    for (left, word) in [
        (0, 0x9000),
        (1, 0x6101),
        (255, 0x61FF),
        (256, 0x6100),
        (16_132, 0x6100),
    ] {
        assert_eq!(rt; piece_word(left), word);
    }
}
