// Laws about elements.
ghost use Rattle.ber_tlv.specs.Laws.{ReadsElements, HasOneReading, SpellsElements};

/// Bytes are a list of elements in one way at most, and what is spelled is the element
/// (ISO/IEC 7816-4, BER-TLV data objects).
pub fn elements_have_one_reading()
    ensures reads { ReadsElements }
    ensures one { HasOneReading }
    ensures spelled { SpellsElements }
{}
