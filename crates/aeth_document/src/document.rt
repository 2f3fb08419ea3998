// The tree of a file.
ghost use Rattle.std.specs.Prelude.{◌≡◌, option_map, IfOk};
ghost use Rattle.toml.specs.View.{table_view};
ghost use Rattle.aeth_document.specs.Document.{document_of};

use aeth_base::NoMemory;
use std::alloc::Global;
use toml::Table;

/// The root table that the bytes spell, `None` exactly where they are no UTF-8 or no TOML.
pub fn read_document(alloc: Global, bytes: &[u8]) -> Result<Option<Table>, NoMemory>
    ensures { IfOk result (λ root. option_map table_view root ≡ document_of bytes.now) }
{
    let text = match std::str::from_utf8(bytes) {
        Ok(text) => text,
        Err(_) => return Ok(None),
    };
    match toml::table_from_str(alloc, text) {
        Ok(root) => Ok(Some(root)),
        Err(e) => {
            if e.is_memory() {
                Err(NoMemory)
            } else {
                Ok(None)
            }
        }
    }
}
