// What calls are answered where a card refuses them, over a port whose answers stand in a list.
ghost use Rattle.std.specs.Prelude.{◌≡◌, ◌≤◌, length, IfOk};
ghost use Rattle.client_api.specs.Steps.{IsOn};

use crate::listed::Told;
use crate::tests::{contact, get, plays, put};
use crate::{ApiCall, Readers};
use aes_block::Key;
use piv_model::Interface::Contact;
use std::alloc::Global;
use std::test::Fail;

const CHUID: &str = "2.16.840.1.101.3.7.2.48.0";

const DISCOVERY: &str = "2.16.840.1.101.3.7.2.96.80";

// A connection to the reader `r`.
fn connect(alloc: Global) -> Result<ApiCall, Fail>
    ensures { IfOk result (λ call. IsOn 1 call) }
{
    let mut readers = Readers::new(alloc);
    readers.add("r", 0, Contact)?;
    Ok(ApiCall::connect(&readers, b"\x7F\x21\x03\x81\x01r", true))
}

fn admin() -> Result<ApiCall, Fail>
    ensures { IfOk result (λ call. IsOn 1 call) }
{
    let key = Key::new(&[0; 16]).ok_or("no key")?;
    Ok(ApiCall::admin(contact(), 0x08, key))
}

fn transmit(alloc: Global, bytes: &[u8]) -> Result<ApiCall, Fail>
    requires { length bytes.now ≤ 512 }
    ensures { IfOk result (λ call. IsOn 1 call) }
{
    match ApiCall::transmit(alloc, contact(), bytes) {
        Ok(call) => Ok(call),
        Err(_) => Err(Fail::from("memory")),
    }
}

#[test]
fn a_connect_is_refused_by_its_card(rt: HostRuntime) -> Result<(), Fail> {
    let a = rt.alloc();
    let failure = "1 PIV_CONNECTION_FAILURE\n";
    let locked = "1 PIV_CONNECTION_LOCKED\n";
    plays(a, connect(a)?, &[Told::Off], "", failure)?;
    plays(a, connect(a)?, &[Told::NoChannel], "", failure)?;
    plays(a, connect(a)?, &[Told::Locked], "", locked)?;
    plays(a, connect(a)?, &[Told::Full], "", "1 TRANSCRIPT_FULL\n")?;
    plays(a, connect(a)?, &[Told::Done], "", "1 PIV_OK\n")
}

#[test]
fn under_another_application_a_call_is_not_selected(rt: HostRuntime) -> Result<(), Fail> {
    let a = rt.alloc();
    let told = "1 NOT_SELECTED\n";
    let idle = [Told::Reply(0x6D00, 0)];
    let then_idle = [Told::Reply(0x6102, 3), Told::Reply(0x6D00, 0)];
    let rest = "00CB3FFF055C035FC1020000C0000000";
    plays(
        a,
        ApiCall::select(contact(), &[]),
        &idle,
        "00A4040000",
        told,
    )?;
    plays(a, get(a, contact(), CHUID)?, &then_idle, rest, told)?;
    plays(a, put(a, DISCOVERY, &[1])?, &idle, "00DB3FFF037E0101", told)?;
    plays(
        a,
        ApiCall::crypt(contact(), 8, 0x9E, &[]),
        &idle,
        "0087089E00",
        told,
    )?;
    plays(a, admin()?, &idle, "0087089B047C02810000", told)
}

#[test]
fn a_transmitted_command_hands_on_any_reply(rt: HostRuntime) -> Result<(), Fail> {
    let a = rt.alloc();
    let idle = [Told::Reply(0x6D00, 0)];
    let more = [Told::Reply(0x6101, 2)];
    let error = "1 PIV_CARD_READER_ERROR\n";
    plays(a, transmit(a, &[])?, &idle, "", "1 REPLY - 6D00\n")?;
    plays(a, transmit(a, &[0xFF])?, &more, "FF", "1 REPLY 0102 6101\n")?;
    plays(a, transmit(a, &[0])?, &[Told::Stale(2)], "00", error)
}
