// Images that are kept here as bytes, and are never made anew. Bytes that no layout reads stand there too.

use crate::bench::{Bench, NEW_PIN};
use crate::cards::object;
use crate::rows::set_rows;
use crate::untold::Untold;
use block_store::Blocks;
use card_image::{Image, Objects};
use piv_model::{Found, KeyId, RefId, Store};
use std::alloc::Global;
use std::process::Abort;
use std::test::Fail;
use test_starts::GLOBAL_PIN;
use twin_store::Twins;

// Algorithms, keys, and references of layout 1, of which slot 1 is live.
const FIRST_HEAD: &str = "
    4 07AA0100
    8 03
    9 1010414141414141414110104141414141414141
    29 0F0236353433323130FF05044142434445464748
    49 0A000102030405060708090A0B0C0D0E0F1011121314151617FFFFFFFFFFFFFFFF
    82 0C000102030405060708090A0B0C0D0E0F101112131415161718191A1B1C1D1E1F
    115 FF
";

// The same in layout 2, with a Global PIN.
const SECOND_HEAD: &str = "
    4 04AA0100
    8 FF
    49 0A000102030405060708090A0B0C0D0E0F1011121314151617FFFFFFFFFFFFFFFF
    82 0C000102030405060708090A0B0C0D0E0F101112131415161718191A1B1C1D1E1F
    115 FF
    116 1010
    146 0F0236353433323130FF050441424344454647480403393837363534FFFF
    176 FF
";

// Slot 0 of the CHUID's record and slot 1 of the printed information's are live.
const TWIN_OBJECTS: &str = "
    0 50495654
    33029 FE00043E01FE00
    49416 0003AAAAAA
    295213 FF0001AA
    311600 00030102FE
";

// The directory of slot 1 is live. The CHUID is in block 0 and the facial image, of 66 bytes, in blocks 5 and 2.
const BLOCK_OBJECTS: &str = "
    0 50495642
    256 01
    257 FFFFFFFF
    4489 00040000
    4505 00420005
    4521 00030001
    4617 FFFF
    4621 FFFF
    4627 0002
    8768 3E01FE00
    8832 0102FE
    8896 4243
    9088 5A
    9151 41
";

// The card of an image, on a device that was zero.
fn opened<O: Objects>(
    alloc: Global,
    head: &str,
    objects: &str,
) -> Result<Bench<Image<Untold, O>>, Fail> {
    let mut nvm = Untold::new(alloc)?;
    set_rows(alloc, &mut nvm, head)?;
    set_rows(alloc, &mut nvm, objects)?;
    match Image::look(nvm) {
        Found::Card(store) => Ok(Bench::new(store)),
        Found::Blank(_) => Err("blank")?,
        Found::BadImage(_) => Err("no card")?,
    }
}

// The enciphered blocks are those of FIPS 197, appendices C.2 and C.3.
fn expect_keys<S: Store>(rt: &impl Abort, card: &Bench<S>) {
    let block = 0x00112233445566778899AABBCCDDEEFF_u128.to_be_bytes();
    for (key, algorithm, want) in [
        (
            KeyId::AdminKey,
            0x0A,
            0xDDA97CA4864CDFE06EAF70A0EC0D7191_u128,
        ),
        (KeyId::CardAuth, 0x0C, 0x8EA2B7CA516745BFEAFC49904B496089),
    ] {
        assert_eq!(rt;
            card.enciphered(key, &block),
            (algorithm, want.to_be_bytes())
        );
    }
}

fn expect_card<S: Store>(
    rt: &impl Abort,
    alloc: Global,
    card: &mut Bench<S>,
    has_global: bool,
) -> Result<(), Fail> {
    expect_keys(rt, card);
    assert_eq!(rt; card.tries(), [2, 4]);
    assert!(rt; card.has_exactly(alloc, object(0x02)?, &[0x3E, 0x01, 0xFE, 0x00])?);
    assert!(rt; card.has_exactly(alloc, object(0x09)?, &[0x01, 0x02, 0xFE])?);
    assert!(rt; card.has_exactly(alloc, object(0x07)?, &[])?);
    assert!(rt; card.has_secret(RefId::Pin, &NEW_PIN)?);
    assert!(rt; card.has_secret(RefId::Puk, b"ABCDEFGH")?);
    assert_eq!(rt; card.has_secret(RefId::GlobalPin, &GLOBAL_PIN)?, has_global);
    Ok(())
}

#[test]
fn an_image_of_each_layout_in_twin_records_is_read(rt: HostRuntime) -> Result<(), Fail> {
    let alloc = rt.alloc();
    let mut first = opened::<Twins>(alloc, FIRST_HEAD, TWIN_OBJECTS)?;
    expect_card(&rt, alloc, &mut first, false)?;
    let mut second = opened::<Twins>(alloc, SECOND_HEAD, TWIN_OBJECTS)?;
    expect_card(&rt, alloc, &mut second, true)
}

#[test]
fn an_image_of_each_layout_in_blocks_is_read(rt: HostRuntime) -> Result<(), Fail> {
    let alloc = rt.alloc();
    let mut facial = [0; 66];
    facial[0] = 0x5A;
    facial[63..].copy_from_slice(b"ABC");
    let mut first = opened::<Blocks>(alloc, FIRST_HEAD, BLOCK_OBJECTS)?;
    assert!(rt; first.has_exactly(alloc, object(0x08)?, &facial)?);
    expect_card(&rt, alloc, &mut first, false)?;
    let mut second = opened::<Blocks>(alloc, SECOND_HEAD, BLOCK_OBJECTS)?;
    assert!(rt; second.has_exactly(alloc, object(0x08)?, &facial)?);
    expect_card(&rt, alloc, &mut second, true)
}
