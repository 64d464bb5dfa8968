// Words of four bytes, high byte first, and blocks as four words.
ghost use Rattle.std.specs.Prelude.{◌≡◌};
ghost use Rattle.piv_model.specs.Cipher.{add_bytes};
ghost use Rattle.aes_block.specs.Words.{first, second, third, fourth, all_bytes_of};

/// The first byte of a word, which is its highest.
pub fn first(w: u32) -> u8
    ensures { result ≡ first w }
{
    (w >> 24) as u8
}

/// Its second byte.
pub fn second(w: u32) -> u8
    ensures { result ≡ second w }
{
    (w >> 16 & 0xff) as u8
}

/// Its third byte.
pub fn third(w: u32) -> u8
    ensures { result ≡ third w }
{
    (w >> 8 & 0xff) as u8
}

/// Its fourth byte.
pub fn fourth(w: u32) -> u8
    ensures { result ≡ fourth w }
{
    (w & 0xff) as u8
}

/// The words of a block.
pub fn load(block: &[u8; 16]) -> [u32; 4]
    ensures { all_bytes_of result ≡ block.now }
{
    let b = block;
    [
        u32::from_be_bytes([b[0], b[1], b[2], b[3]]),
        u32::from_be_bytes([b[4], b[5], b[6], b[7]]),
        u32::from_be_bytes([b[8], b[9], b[10], b[11]]),
        u32::from_be_bytes([b[12], b[13], b[14], b[15]]),
    ]
}

/// The block of four words.
pub fn store(s: [u32; 4]) -> [u8; 16]
    ensures { result ≡ all_bytes_of s }
{
    let a = s[0].to_be_bytes();
    let b = s[1].to_be_bytes();
    let c = s[2].to_be_bytes();
    let d = s[3].to_be_bytes();
    [
        a[0], a[1], a[2], a[3], b[0], b[1], b[2], b[3], c[0], c[1], c[2], c[3], d[0], d[1], d[2],
        d[3],
    ]
}

/// The sum of two blocks.
pub fn add(s: [u32; 4], k: [u32; 4]) -> [u32; 4]
    ensures { all_bytes_of result ≡ add_bytes (all_bytes_of s) (all_bytes_of k) }
{
    [s[0] ^ k[0], s[1] ^ k[1], s[2] ^ k[2], s[3] ^ k[3]]
}
