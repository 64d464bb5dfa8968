// Names of APDUs and of answers.

// An APDU or an answer of the rows, which has a name or is hexadecimal text.
pub(crate) fn spelled(word: &str) -> &str {
    match word {
        "select" => "00A404000BA00000030800001000010000",
        "select-short" => "00A4040009A0000003080000100000",
        "select-idle" => "00A4040005F049444C45",
        "select-other" => "00A4040005A000000001",
        "template" => "61114F0600001000010079074F05A0000003089000",
        "login" => "0020008008313233343536FFFF",
        "login-new" => "0020008008363534333231FFFF",
        "log-out" => "0020FF80",
        "wrong" => "0020008008393939393939FFFF",
        "query" => "00200080",
        "part" => "102000800431323334",
        "rest" => "00200080043536FFFF",
        "change" => "0024008010313233343536FFFF363534333231FFFF",
        "unblock" => "002C0080103132333435363738363534333231FFFF",
        "wrong-puk" => "002C0080103030303030303030363534333231FFFF",
        "encipher" => "0087089E167C148200811000112233445566778899AABBCCDDEEFF00",
        // The block enciphered under the card authentication key, as OpenSSL enciphers it.
        "enciphered" => "7C12821069C4E0D86A7B0430D8CDB78070B4C55A9000",
        "challenge" => "0087089B047C02810000",
        "challenged" => "7C12811076B8E0ADA0F13D90405D6AE55386BD289000",
        "zeros" => "0087089B147C12821000000000000000000000000000000000",
        // The challenge enciphered under the card management key, as OpenSSL enciphers it.
        "response" => "0087089B147C12821042155C90AB20DCE01EB4F8787E51B59A",
        "printed" => "00CB3FFF055C035FC10900",
        "information" => "530601024142FE009000",
        // A value of 64 bytes, which fill one block.
        "put" => {
            "00DB3FFF475C035FC1095340\
             5A5A5A5A5A5A5A5A5A5A5A5A5A5A5A5A5A5A5A5A5A5A5A5A5A5A5A5A5A5A5A5A\
             5A5A5A5A5A5A5A5A5A5A5A5A5A5A5A5A5A5A5A5A5A5A5A5A5A5A5A5A5A5A5A5A"
        }
        "other" => {
            "5340\
             5A5A5A5A5A5A5A5A5A5A5A5A5A5A5A5A5A5A5A5A5A5A5A5A5A5A5A5A5A5A5A5A\
             5A5A5A5A5A5A5A5A5A5A5A5A5A5A5A5A5A5A5A5A5A5A5A5A5A5A5A5A5A5A5A5A9000"
        }
        "chuid" => "00CB3FFF055C035FC10200",
        "put-chuid" => "00DB3FFF0B5C035FC10253043E01FE00",
        _ => word,
    }
}
