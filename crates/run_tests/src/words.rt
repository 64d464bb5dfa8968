// The plain card, and names of lines and of answers.

// The plain card, whose printed information is read after a login alone.
pub(crate) const PLAIN: &str = "
[[card]]
name = 'A'
contact = 'front'
contactless = 'gate'
objects = [
  { tag = '5FC102', value = '3E00FE00' },
  { tag = '5FC109', value = '01024142FE00' },
  { tag = '7E', value = '4F0BA0000003080000100001005F2F024000' },
]
";

// A line or an answer, which has a name or stands as it is.
pub(crate) fn spelled(word: &str) -> &str {
    match word {
        "front" => "connect h front shared",
        "select" => "select h A000000308000010000100",
        "template" => "PIV_OK 61114F0600001000010079074F05A000000308",
        "right" => "login h 670D8108313233343536FFFF830180",
        "wrong" => "login h 670D8108393939393939FFFF830180",
        "query" => "apdu h 00200080",
        "admin" => "admin h 08 101112131415161718191A1B1C1D1E1F",
        "chuid" => "get h 2.16.840.1.101.3.7.2.48.0",
        "printed" => "get h 2.16.840.1.101.3.7.2.48.1",
        "information" => "PIV_OK 530601024142FE00",
        "lost" => "PIV_CARD_READER_ERROR",
        _ => word,
    }
}
