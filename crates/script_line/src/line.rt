// The lines that there are.
use line_words::{Bytes, Text};

/// A line of a script. `h` is a name for a handle in that script; `reader` and `card` are names.
#[derive(Drop)]
pub enum Line {
    /// `connect H READER shared`, or `exclusive`.
    Connect {
        h: Text,
        reader: Text,
        shared: bool,
    },
    /// `disconnect H`.
    Disconnect {
        h: Text,
    },
    /// `select H HEX`.
    Select {
        h: Text,
        aid: Bytes,
    },
    /// `login H HEX`.
    Login {
        h: Text,
        auth: Bytes,
    },
    /// `logout H`.
    Logout {
        h: Text,
    },
    /// `get H OID`.
    Get {
        h: Text,
        oid: Text,
    },
    /// `put H OID hex HEX`.
    PutHex {
        h: Text,
        oid: Text,
        value: Bytes,
    },
    /// `put H OID fill N BB`: N bytes BB.
    PutFill {
        h: Text,
        oid: Text,
        size: u64,
        fill: u8,
    },
    /// `crypt H ALG KEY HEX`.
    Crypt {
        h: Text,
        algorithm: u8,
        key: u8,
        input: Bytes,
    },
    /// `admin H ALG HEX`; the key has 16, 24 or 32 bytes.
    Admin {
        h: Text,
        algorithm: u8,
        key: Bytes,
    },
    /// `apdu H HEX`.
    Apdu {
        h: Text,
        bytes: Bytes,
    },
    /// `version`.
    Version,
    /// `generate`.
    Generate,
    /// `secure`.
    Secure,
    /// `reset READER`.
    Reset {
        reader: Text,
    },
    /// `cut CARD`.
    Cut {
        card: Text,
    },
    /// `power CARD`.
    Power {
        card: Text,
    },
}
