// What is found on an image of which bytes are damaged.

use crate::cards::{Kind, found, personal};
use crate::rows::{set_row, set_rows};
use block_store::Blocks;
use card_image::Objects;
use std::alloc::Global;
use std::process::Abort;
use std::test::Fail;
use twin_store::Twins;

// Each row is what is found where these bytes stand, from this place on, in place of a card's own.
fn expect_found<O: Objects>(alloc: Global, kind: Kind, rows: &str) -> Result<(), Fail> {
    for row in rows.trim().lines() {
        if let Some((want, bytes)) = row.trim().split_once(' ') {
            let mut nvm = personal::<O>(alloc, kind)?.into_inner();
            set_row(alloc, &mut nvm, bytes)?;
            let is_wanted = found::<O>(nvm) == want;
            is_wanted.then_some(()).ok_or("another image")?;
        }
    }
    Ok(())
}

// What is found where the bytes of all rows stand in place of a card's own.
fn expect_found_with<O: Objects>(alloc: Global, rows: &str, want: &str) -> Result<(), Fail> {
    let mut nvm = personal::<O>(alloc, Kind::Second)?.into_inner();
    set_rows(alloc, &mut nvm, rows)?;
    let is_wanted = found::<O>(nvm) == want;
    is_wanted.then_some(()).ok_or("another image")?;
    Ok(())
}

// Mark and budget, algorithms and keys, in both layouts.
fn expect_head<O: Objects>(alloc: Global, kind: Kind) -> Result<(), Fail> {
    let rows = "
        blank 0 00000000
        bad 0 01000000
        bad 0 00
        bad 0 50495653
        card 5 FF
        bad 6 0000
        bad 6 0001
        card 6 0003
        card 6 0800
        bad 6 0801
        bad 49 07
        card 49 08
        bad 49 09
        card 49 0A
        bad 49 0B
        card 49 0C
        bad 49 0D
        card 50 FF
        bad 82 00
        card 82 0A
        card 83 FF
        bad 82 0D
    ";
    expect_found::<O>(alloc, kind, rows)
}

#[test]
fn a_damaged_head_is_no_card(rt: HostRuntime) -> Result<(), Fail> {
    for kind in [Kind::First, Kind::Second, Kind::Global] {
        expect_head::<Twins>(rt.alloc(), kind)?;
        expect_head::<Blocks>(rt.alloc(), kind)?;
    }
    Ok(())
}

// The selector, and the references of slot 0. Slot 1 holds none.
fn expect_first_references<O: Objects>(alloc: Global) -> Result<(), Fail> {
    let rows = "
        bad 8 01
        card 8 02
        bad 8 03
        card 8 FE
        bad 8 FF
        bad 9 00
        bad 9 02
        card 9 0F
        bad 9 10
        card 10 00
        bad 10 04
        bad 11 41
        bad 16 FF
        card 17 37
        card 17 3738
        bad 18 37
        bad 19 00
        card 19 0F
        bad 19 10
        card 20 00
        bad 20 04
        card 21 00
        card 115 01
        card 116 10
    ";
    expect_found::<O>(alloc, Kind::First, rows)
}

#[test]
fn damaged_references_of_layout_1_are_no_card(rt: HostRuntime) -> Result<(), Fail> {
    expect_first_references::<Twins>(rt.alloc())?;
    expect_first_references::<Blocks>(rt.alloc())
}

// As in layout 1, at other places. Behind a limit of 0 nothing is read.
fn expect_second_references<O: Objects>(alloc: Global) -> Result<(), Fail> {
    let rows = "
        bad 115 01
        card 115 02
        bad 115 03
        card 115 FE
        bad 116 00
        card 116 0F
        bad 116 10
        bad 117 04
        bad 118 41
        bad 126 00
        bad 126 10
        bad 127 04
        bad 136 03
        card 137 FF
        card 138 41
        card 8 01
        card 9 10
        card 176 FF
    ";
    expect_found::<O>(alloc, Kind::Second, rows)
}

fn expect_global_references<O: Objects>(alloc: Global) -> Result<(), Fail> {
    let rows = "
        bad 115 01
        bad 116 10
        card 136 00
        bad 136 03
        card 136 0F
        bad 136 10
        card 137 00
        bad 137 05
        bad 138 41
    ";
    expect_found::<O>(alloc, Kind::Global, rows)
}

#[test]
fn damaged_references_of_layout_2_are_no_card(rt: HostRuntime) -> Result<(), Fail> {
    expect_second_references::<Twins>(rt.alloc())?;
    expect_second_references::<Blocks>(rt.alloc())?;
    expect_global_references::<Twins>(rt.alloc())?;
    expect_global_references::<Blocks>(rt.alloc())
}

// The CHUID at 33,029, the Discovery Object at 327,986, and the absent object of place 0.
#[test]
fn damaged_twin_records_are_no_card(rt: HostRuntime) -> Result<(), Fail> {
    let rows = "
        bad 0 50495642
        card 256 FF
        card 257 4000
        bad 257 4001
        bad 257 FFFF
        card 33029 01
        card 33029 02
        bad 33030 4001
        card 33032 FF
        card 295213 01
        card 327986 01
        bad 327987 0011
        card 327987 0000
        bad 327989 4E
        bad 328005 6010
        bad 328005 4010
    ";
    expect_found::<Twins>(rt.alloc(), Kind::First, rows)?;
    expect_found::<Twins>(rt.alloc(), Kind::Second, rows)
}

// The entries of places 0, 1 and 10 of the directory, and blocks 0 and 2. Each block names the one behind it, and
// the last one block 0.
#[test]
fn damaged_blocks_are_no_card(rt: HostRuntime) -> Result<(), Fail> {
    let rows = "
        bad 0 50495654
        card 256 01
        card 256 02
        card 257 40000003
        bad 257 40010003
        card 257 00010003
        bad 257 00010000
        card 257 000107FF
        bad 257 00010800
        bad 257 0001FFFF
        bad 261 00040001
        bad 261 00040002
        card 261 00000000
        card 261 00410003
        bad 257 004107FF
        card 261 004107FF
        card 261 00C007FD
        bad 297 00110002
        card 297 00000002
        bad 8896 4E
        bad 8912 6010
        card 8768 FF
    ";
    expect_found::<Blocks>(rt.alloc(), Kind::First, rows)?;
    expect_found::<Blocks>(rt.alloc(), Kind::Second, rows)
}

// An object of 65 bytes from block 3 on. The number behind its last block isn't read.
#[test]
fn a_damaged_chain_is_no_card(rt: HostRuntime) -> Result<(), Fail> {
    let alloc = rt.alloc();
    expect_found_with::<Blocks>(alloc, "257 00410003\n395 0005", "card")?;
    expect_found_with::<Blocks>(alloc, "257 00410003\n395 0003", "bad")?;
    expect_found_with::<Blocks>(alloc, "257 00410003\n395 0002", "bad")?;
    expect_found_with::<Blocks>(alloc, "257 00410003\n395 07FF", "card")?;
    expect_found_with::<Blocks>(alloc, "257 00410003\n395 0800", "bad")?;
    expect_found_with::<Blocks>(alloc, "257 00410003\n397 FFFF", "card")
}

#[test]
fn a_policy_for_a_global_pin_stands_where_there_is_one(rt: HostRuntime) -> Result<(), Fail> {
    let alloc = rt.alloc();
    let twins = "
        card 328005 6010
        card 328005 6020
        bad 328005 6030
    ";
    let blocks = "
        card 8912 6010
        card 8912 6020
        bad 8912 4010
    ";
    expect_found::<Twins>(alloc, Kind::Global, twins)?;
    expect_found::<Blocks>(alloc, Kind::Global, blocks)
}

// In the other layout no references stand.
fn expect_versions<O: Objects>(rt: &impl Abort, alloc: Global, kind: Kind) -> Result<(), Fail> {
    for version in 0..=255 {
        let mut nvm = personal::<O>(alloc, kind)?.into_inner();
        nvm.set(4, &[version]);
        let is_own = (version % 2 == 1) == (kind == Kind::First);
        assert!(rt;
            found::<O>(nvm) == if is_own { "card" } else { "bad" },
            "{version}"
        );
    }
    Ok(())
}

#[test]
fn an_odd_version_names_layout_1_and_an_even_one_layout_2(rt: HostRuntime) -> Result<(), Fail> {
    for kind in [Kind::First, Kind::Second] {
        expect_versions::<Twins>(&rt, rt.alloc(), kind)?;
        expect_versions::<Blocks>(&rt, rt.alloc(), kind)?;
    }
    Ok(())
}
