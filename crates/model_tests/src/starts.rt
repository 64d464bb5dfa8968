// What a card begins with.
use piv_model::{
    KeyBytes, ObjectId, Start, StartGlobal, StartObjects, discovery_value, object_by_tag,
    plain_start,
};
use std::process::Abort;
use std::test::Fail;

const CHUID: [u8; 4] = [0x3E, 0x00, 0xFE, 0x00];

const PRINTED_INFORMATION: [u8; 6] = [0x01, 0x02, 0x41, 0x42, 0xFE, 0x00];

const DISCOVERY: [u8; 18] = [
    0x4F, 0x0B, 0xA0, 0x00, 0x00, 0x03, 0x08, 0x00, 0x00, 0x10, 0x00, 0x01, 0x00, 0x5F, 0x2F, 0x02,
    0x40, 0x00,
];

// The values of the plain card.
fn expect_plain(rt: &impl Abort, start: &Start) {
    assert_eq!(rt; start.pin, [0x31, 0x32, 0x33, 0x34, 0x35, 0x36, 0xFF, 0xFF]);
    assert_eq!(rt; start.puk, [0x31, 0x32, 0x33, 0x34, 0x35, 0x36, 0x37, 0x38]);
    assert_eq!(rt;
        (start.limit_pin, start.limit_puk, start.budget),
        (3, 3, 2048)
    );
    assert_eq!(rt;
        (start.admin.algorithm, start.card_auth.algorithm),
        (0x08, 0x08)
    );
    assert!(rt; start.admin.bytes[..3] == [0x10, 0x11, 0x12]);
    assert!(rt; start.card_auth.bytes[13..16] == [0x0D, 0x0E, 0x0F]);
    assert_eq!(rt; start.random, [0; 32]);
    assert_eq!(rt; (start.global.limit, start.global.pin), (0, [0; 8]));
    assert_eq!(rt; start.objects.len(), 3);
    assert_eq!(rt; start.objects.find(1), CHUID.as_slice());
    assert_eq!(rt; start.objects.find(9), PRINTED_INFORMATION.as_slice());
    assert_eq!(rt; start.objects.find(10), DISCOVERY.as_slice());
    assert_eq!(rt; start.objects.find(2).len(), 0);
}

#[test]
fn the_plain_card_and_its_copy_have_its_values(rt: HostRuntime) -> Result<(), Fail> {
    let start = plain_start(rt.alloc())?;
    expect_plain(&rt, &start);
    expect_plain(&rt, &start.copy()?);
    Ok(())
}

#[test]
fn objects_stand_in_the_order_in_which_they_were_added(rt: HostRuntime) -> Result<(), Fail> {
    let mut objects = StartObjects::new(rt.alloc());
    for last in [0x09, 0x02] {
        match object_by_tag(&[0x5F, 0xC1, last]) {
            Some(id) => objects.push(id, &[last, 0xAA])?,
            None => return Err(Fail::from("no such object")),
        }
    }
    assert_eq!(rt; objects.len(), 2);
    for (k, place, first) in [(0, 9, 0x09), (1, 1, 0x02)] {
        if k < objects.len() {
            let (id, value) = objects.value(k);
            assert_eq!(rt; id.place(), place);
            assert_eq!(rt; value, [first, 0xAA].as_slice());
        }
    }
    Ok(())
}

fn moves<T: Send>(value: T) -> T {
    value
}

#[test]
fn a_start_moves_between_threads(rt: HostRuntime) -> Result<(), Fail> {
    expect_plain(&rt, &moves(plain_start(rt.alloc())?));
    Ok(())
}

fn shared<T: Sync>(value: T) -> T {
    value
}

#[test]
fn a_start_and_its_parts_are_shared_between_threads(rt: HostRuntime) -> Result<(), Fail> {
    let start = shared(plain_start(rt.alloc())?);
    expect_plain(&rt, &start);
    let key: KeyBytes = shared(start.admin);
    assert_eq!(rt; key.algorithm, 0x08);
    let global: StartGlobal = shared(start.global);
    assert_eq!(rt; global.limit, 0);
    let objects: StartObjects = shared(start.objects);
    assert_eq!(rt; objects.find(1), CHUID.as_slice());
    Ok(())
}

#[test]
fn a_discovery_object_has_the_name_and_the_policy(rt: HostRuntime) {
    assert_eq!(rt; ObjectId::discovery().place(), 10);
    assert_eq!(rt; discovery_value([0x40, 0x00]), DISCOVERY);
    let with_global = discovery_value([0x60, 0x20]);
    assert!(rt; with_global[..16] == DISCOVERY[..16]);
    assert!(rt; with_global[16..] == [0x60, 0x20]);
}
