// Commands on one connection or two, over blocks on a device. The answers are those of the program on the plain card.
use crate::cells::losing_cell;
use crate::rows::expect;
use block_store::Blocks;
use std::alloc::Global;
use std::process::Abort;
use std::test::Fail;

// Each paragraph is played on a plain card of its own, with connection 1 on contact and PIV selected.
fn expect_each(rt: &impl Abort, alloc: Global, paragraphs: &str) -> Result<(), Fail> {
    let begin = "shared contact = 1 0\n1 0 select = template";
    for rows in paragraphs.split("\n\n") {
        let mut cell = losing_cell::<Blocks>(alloc, 100, Vec::new(alloc))?;
        expect(rt, alloc, &mut cell, begin)?;
        expect(rt, alloc, &mut cell, rows)?;
    }
    Ok(())
}

#[test]
fn a_login_serves_its_connection_until_piv_is_left(rt: HostRuntime) -> Result<(), Fail> {
    let rows = "
        1 0 printed = 6982
        1 0 login = 9000
        1 0 printed = information
        1 0 select-short = template
        1 0 printed = information
        1 0 select-other = 6A82
        1 0 printed = information
        1 0 select-idle = 9000
        1 0 printed = 6D00
        1 0 select = template
        1 0 printed = 6982

        1 0 login = 9000
        shared contact = 2 0
        2 0 printed = 6D00
        2 0 select = template
        2 0 printed = 6982
        shared contactless = 3 0
        3 0 select = template
        3 0 login = 6982
        1 0 printed = information

        1 0 login = 9000
        reset contactless = reset
        1 0 printed = information
        reset contact = reset
        1 1 printed = 6D00
        1 1 select = template
        1 1 printed = 6982
    ";
    expect_each(&rt, rt.alloc(), rows)
}

#[test]
fn tries_are_spent_and_given_back(rt: HostRuntime) -> Result<(), Fail> {
    let rows = "
        1 0 wrong = 63C2
        1 0 wrong = 63C1
        1 0 wrong = 63C0
        1 0 login = 6983
        1 0 query = 63C0
        1 0 wrong-puk = 63C2
        1 0 unblock = 9000
        1 0 query = 63C3
        1 0 login-new = 9000

        1 0 00200080083132333435FFFFFF = 6A80
        1 0 query = 63C3
        1 0 00200081 = 6A88
        1 0 00200180 = 6A86

        1 0 wrong-puk = 63C2
        1 0 wrong-puk = 63C1
        1 0 wrong-puk = 63C0
        1 0 unblock = 6983
        1 0 login = 9000
    ";
    expect_each(&rt, rt.alloc(), rows)
}

#[test]
fn a_change_logs_in_and_a_failure_logs_out(rt: HostRuntime) -> Result<(), Fail> {
    let rows = "
        1 0 change = 9000
        1 0 query = 9000
        1 0 login = 63C2
        1 0 query = 63C2

        1 0 login = 9000
        1 0 log-out = 9000
        1 0 query = 63C3
        1 0 login = 9000
        1 0 wrong-puk = 63C2
        1 0 query = 63C3

        1 0 wrong = 63C2
        1 0 change = 9000
        1 0 log-out = 9000
        1 0 query = 63C3
        1 0 login-new = 9000
    ";
    expect_each(&rt, rt.alloc(), rows)
}

#[test]
fn a_challenge_is_answered_once(rt: HostRuntime) -> Result<(), Fail> {
    let rows = "
        1 0 encipher = enciphered

        1 0 challenge = challenged
        1 0 zeros = 6982
        1 0 zeros = 6A80
        1 0 put-chuid = 6982

        1 0 challenge = challenged
        1 0 response = 9000
        1 0 response = 6A80
        1 0 put-chuid = 9000
        1 0 chuid = 53043E01FE009000

        1 0 challenge = challenged
        1 0 query = 63C3
        1 0 response = 6A80

        1 0 challenge = challenged
        shared contact = 2 0
        2 0 select = template
        2 0 response = 6A80
        1 0 response = 9000
    ";
    expect_each(&rt, rt.alloc(), rows)
}

#[test]
fn a_chain_is_one_command_of_its_connection(rt: HostRuntime) -> Result<(), Fail> {
    let rows = "
        1 0 part = 9000
        1 0 rest = 9000

        1 0 part = 9000
        1 0 00200081043536FFFF = 6883
        1 0 query = 63C3

        1 0 part = 9000
        shared contact = 2 0
        2 0 select = template
        2 0 rest = 6A80
        1 0 rest = 9000

        1 0 part = 9000
        reset contact = reset
        1 1 select = template
        1 1 rest = 6A80

        1 0 00CB3FFF055C035FC10204 = 53043E006102
        1 0 00C0000000 = FE009000
        1 0 00C0000000 = 6985
    ";
    expect_each(&rt, rt.alloc(), rows)
}
