// Histories as they are printed.
use card_cell::CardCell;
use entry_text::print_history;
use piv_model::{History, Store};
use piv_ports::MemSink;
use std::alloc::Global;
use std::process::Abort;
use std::test::Fail;

// A history as it is printed, up to 8,000 bytes.
pub(crate) fn printed(alloc: Global, history: &History) -> Result<MemSink, Fail> {
    let mut sink = MemSink::new(alloc, 8000, 8000, Vec::new(alloc)).or(Err("memory"))?;
    print_history(history, &mut sink).or(Err("not printed"))?;
    Ok(sink)
}

// The history has these lines, which may stand indented.
pub(crate) fn expect_history<S: Store>(
    rt: &impl Abort,
    alloc: Global,
    cell: &CardCell<S>,
    lines: &str,
) -> Result<(), Fail> {
    let mut text = String::new(alloc);
    for line in lines.trim().lines() {
        text.push_str(line.trim())?;
        text.push('\n')?;
    }
    let sink = printed(alloc, cell.history())?;
    assert!(rt; sink.taken() == text.as_bytes(), "{text}");
    Ok(())
}
