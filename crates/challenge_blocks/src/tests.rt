use crate::Blocks;
use std::test::Fail;

// The beginning of the key stream of an all-zero key, nonce and counter (RFC 8439, appendix A.1, first vector).
#[test]
fn the_blocks_of_zero_bytes_are_the_published_key_stream(rt: HostRuntime) -> Result<(), Fail> {
    let mut blocks = Blocks::new([0; 32]);
    assert_eq!(rt;
        *blocks.block(),
        [
            0x76, 0xB8, 0xE0, 0xAD, 0xA0, 0xF1, 0x3D, 0x90, 0x40, 0x5D, 0x6A, 0xE5, 0x53, 0x86,
            0xBD, 0x28,
        ]
    );
    blocks.draw_if(false);
    assert_eq!(rt; blocks.block()[0], 0x76);
    blocks.draw_if(true);
    assert_eq!(rt;
        *blocks.block(),
        [
            0xBD, 0xD2, 0x19, 0xB8, 0xA0, 0x8D, 0xED, 0x1A, 0xA8, 0x36, 0xEF, 0xCC, 0x8B, 0x77,
            0x0D, 0xC7,
        ]
    );
    Ok(())
}
