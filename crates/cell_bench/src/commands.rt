// The commands of the turns.
ghost use Rattle.std.specs.Prelude.{◌≤◌, length};

/// The command of a turn: fourteen, one after the other, again and again.
pub fn command(turn: usize) -> &'static [u8]
    ensures { length result.now ≤ 512 }
{
    match turn % 14 {
        // SELECT of the PIV application.
        0 => b"\x00\xA4\x04\x00\x0B\xA0\x00\x00\x03\x08\x00\x00\x10\x00\x01\x00\x00",
        // GET DATA of the CHUID, the Discovery Object, and printed information, which a login is needed for.
        1 => b"\x00\xCB\x3F\xFF\x05\x5C\x03\x5F\xC1\x02\x00",
        2 => b"\x00\xCB\x3F\xFF\x03\x5C\x01\x7E\x00",
        3 | 7 => b"\x00\xCB\x3F\xFF\x05\x5C\x03\x5F\xC1\x09\x00",
        // VERIFY: a query, a wrong PIN, and the right one.
        4 => b"\x00\x20\x00\x80",
        5 => b"\x00\x20\x00\x80\x08999999\xFF\xFF",
        6 => b"\x00\x20\x00\x80\x08123456\xFF\xFF",
        // CHANGE REFERENCE DATA to the same PIN, and the end of the login.
        8 => b"\x00\x24\x00\x80\x10123456\xFF\xFF123456\xFF\xFF",
        9 => b"\x00\x20\xFF\x80",
        // GENERAL AUTHENTICATE: an internal one, and a challenge.
        10 => {
            b"\x00\x87\x08\x9E\x16\x7C\x14\x82\x00\x81\x10\x00\x11\x22\x33\x44\x55\x66\x77\x88\x99\xAA\xBB\xCC\xDD\xEE\xFF\x00"
        }
        11 => b"\x00\x87\x08\x9B\x04\x7C\x02\x81\x00\x00",
        // PUT DATA of the CHUID, which is refused, and a GET DATA whose reply has a rest.
        12 => b"\x00\xDB\x3F\xFF\x0B\x5C\x03\x5F\xC1\x02\x53\x04\x3E\x01\xFE\x00",
        _ => b"\x00\xCB\x3F\xFF\x05\x5C\x03\x5F\xC1\x02\x04",
    }
}
