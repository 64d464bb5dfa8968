// A document.
ghost use Rattle.std.specs.Prelude.{◌≡◌, option_map, IfOk};
ghost use Rattle.toml.specs.View.{table_view};
ghost use Rattle.scene_table.specs.Readings.{document as document_of};

use std::alloc::{AllocError, Global};
use toml::Table;

/// The tree of a document, or `None` exactly where the bytes are no document.
pub fn read_document(alloc: Global, bytes: &[u8]) -> Result<Option<Table>, AllocError>
    ensures exact { IfOk result (λ found. option_map table_view found ≡ document_of bytes.now) }
{
    match toml::de::table_from_slice(alloc, bytes) {
        Ok(tree) => Ok(Some(tree)),
        Err(fault) => {
            if fault.is_memory() {
                Err(AllocError)
            } else {
                Ok(None)
            }
        }
    }
}
