ghost use Rattle.std.specs.Prelude.{◌≡◌, Some, None, IfOk};
ghost use Rattle.toml.specs.View.{table_view};
ghost use Rattle.pre_table.specs.Documents.{document_of};

use std::alloc::Global;
use toml::Table;

/// Why a text gives no table.
#[derive(Clone, Copy, Debug, PartialEq, Eq)]
pub enum DocumentFault {
    /// It is no TOML document.
    Toml,
    /// There isn't enough memory.
    Memory,
}

/// The table that a text is, by TOML 1.1.
///
/// # Errors
///
/// `Toml` exactly where the text isn't UTF-8 or no TOML document, and `Memory` where there isn't enough memory.
pub fn read_document(alloc: Global, text: &[u8]) -> Result<Table, DocumentFault>
    ensures read { IfOk result (λ t. document_of text.now ≡ Some (table_view t)) }
    ensures toml { result ≡ Err DocumentFault.Toml → document_of text.now ≡ None }
{
    let Ok(text) = std::str::from_utf8(text) else {
        return Err(DocumentFault::Toml);
    };
    match toml::table_from_str(alloc, text) {
        Ok(table) => Ok(table),
        Err(fault) if fault.is_memory() => Err(DocumentFault::Memory),
        Err(_) => Err(DocumentFault::Toml),
    }
}
