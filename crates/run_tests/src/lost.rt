// Writes that are lost.
use std::alloc::Global;
use std::test::Fail;

// What a lost write leaves in its range: the old bytes, one byte everywhere, or the new bytes.
#[derive(Clone, Copy)]
pub(crate) enum Left {
    Before,
    Torn(u8),
    After,
}

// The write of this number is lost.
#[derive(Clone, Copy)]
pub(crate) struct LostWrite {
    pub(crate) number: u64,
    pub(crate) left: Left,
}

// The losses of a card as a scene has them.
pub(crate) fn losses_of(alloc: Global, lost: &[LostWrite]) -> Result<String, Fail> {
    let mut text = String::new(alloc);
    for write in lost {
        let number = write.number;
        let kind = match write.left {
            Left::Before => String::from_str(alloc, "'before'")?,
            Left::Torn(byte) => format!(in alloc; "'torn'\npattern = '{byte:02X}'")?,
            Left::After => String::from_str(alloc, "'after'")?,
        };
        let loss = format!(in alloc; "[[card.losses]]\nwrite = {number}\nkind = {kind}\n")?;
        text.push_str(loss.as_str())?;
    }
    Ok(text)
}
