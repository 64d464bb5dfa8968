// Scenes of two scripts, with all that the program writes of them.
use crate::devices::eight;
use crate::runs::{By, told};
use crate::words::PLAIN;
use nvm_device::{How, Loss, Nvm};
use piv_bench::bench;
use piv_scene::read_scene;
use scene_cells::RunFault;
use std::alloc::Global;
use std::process::Abort;
use std::test::Fail;

const TWO_SCRIPTS: &str = "
[[script]]
name = 'a'
lines = [
  'connect h front shared',
  'select h A000000308000010000100',
  'login h 670D8108313233343536FFFF830180',
  'get h 2.16.840.1.101.3.7.2.48.1',
]

[[script]]
name = 'b'
lines = [
  'connect h front shared',
  'select h A00000030800001000',
  'get h 2.16.840.1.101.3.7.2.48.1',
]
";

const TWO_SCRIPTS_TOLD: &str = "script a
1 PIV_OK
2 PIV_OK 61114F0600001000010079074F05A000000308
3 PIV_OK
4 PIV_OK 530601024142FE00
script b
1 PIV_OK
2 PIV_OK 61114F0600001000010079074F05A000000308
3 PIV_SECURITY_CONDITIONS_NOT_SATISFIED PIN
card A
opened 1 contact shared
opened 2 contact shared
call 1 A4 04 00 A000000308000010000100 9000 -
call 2 A4 04 00 A00000030800001000 9000 -
call 1 20 00 80 313233343536FFFF 9000 -
call 2 CB 3F FF 5C035FC109 6982 -
call 1 CB 3F FF 5C035FC109 9000 -
";

const LOCKED: &str = "
[[script]]
name = 'a'
lines = ['connect h front shared', 'disconnect h', 'get h 2.16.840.1.101.3.7.2.48.1']

[[script]]
name = 'b'
lines = ['connect k front exclusive', 'connect k front exclusive']
";

const LOCKED_TOLD: &str = "script a
1 PIV_OK
2 PIV_OK
3 PIV_INVALID_CARD_HANDLE
script b
1 PIV_CONNECTION_LOCKED
2 PIV_OK
card A
opened 1 contact shared
note connect contact locked
closed 1
opened 2 contact exclusive
note exchange 1 noconnection
";

const LONG_CARD: &str = "
schedule = [0, 0, 0, 1, 0]

[[card]]
name = 'A'
contact = 'front'
objects = [{ tag = '5FC105', size = 300, fill = 'C3' }]
";

const RESET: &str = "
[[script]]
name = 'a'
lines = [
  'connect h front shared',
  'select h A000000308000010000100',
  'get h 2.16.840.1.101.3.7.2.1.1',
  'get h 2.16.840.1.101.3.7.2.1.1',
]

[[script]]
name = 'b'
lines = ['reset front']
";

const RESET_TOLD: &str = "script a
1 PIV_OK
2 PIV_OK 61114F0600001000010079074F05A000000308
3 PIV_CARD_READER_ERROR
4 NOT_SELECTED
script b
1 DONE
card A
opened 1 contact shared
call 1 A4 04 00 A000000308000010000100 9000 -
call 1 CB 3F FF 5C035FC105 9000 -
reset contact
note exchange 1 stale
call 1 CB 3F FF 5C035FC105 6D00 -
";

// The text of a run of the scripts on the card is this one.
fn expect(
    rt: &impl Abort,
    alloc: Global,
    card: &str,
    scripts: &str,
    want: &str,
) -> Result<(), Fail> {
    let scene = format!(in alloc; "{card}{scripts}")?;
    let text = told(alloc, By::Bench, scene.as_str())?;
    assert!(rt; text.as_slice() == want.as_bytes());
    Ok(())
}

#[test]
fn a_login_on_one_connection_opens_nothing_for_another(rt: HostRuntime) -> Result<(), Fail> {
    expect(&rt, rt.alloc(), PLAIN, TWO_SCRIPTS, TWO_SCRIPTS_TOLD)
}

#[test]
fn an_exclusive_connection_waits_for_the_shared_one(rt: HostRuntime) -> Result<(), Fail> {
    expect(&rt, rt.alloc(), PLAIN, LOCKED, LOCKED_TOLD)
}

#[test]
fn a_reset_between_two_turns_of_a_call_ends_the_call(rt: HostRuntime) -> Result<(), Fail> {
    expect(&rt, rt.alloc(), LONG_CARD, RESET, RESET_TOLD)
}

#[test]
fn a_device_that_loses_power_in_personalising_ends_the_run(rt: HostRuntime) -> Result<(), Fail> {
    let alloc = rt.alloc();
    let scene = read_scene(alloc, PLAIN.as_bytes()).or(Err("no scene"))?;
    let plan = vec![in alloc;
        Loss {
            write: 2,
            how: How::Before
        },
    ]?;
    let mut devices = eight(alloc, plan)?;
    let refused = bench(alloc, &scene, &mut devices).err();
    assert!(rt; matches!(refused, Some(RunFault::Device)));
    assert_eq!(rt; devices.len(), 8);
    assert_eq!(rt; devices[0].lost(), 1);
    Ok(())
}
