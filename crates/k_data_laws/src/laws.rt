//! What holds of the written texts: each function's contract is a law, and its body does nothing.
ghost use Rattle.k_data_laws.specs.Laws.{DocumentIsPrinted, DocumentIsRead, TableIsRead};

/// The document of a saved profile is a text of JSON, and it means the value of the profile: its members in order, and each number exactly. It is the
/// text that the crate `json` writes of this value, and a newline.
pub fn document_is_read()
    ensures read { DocumentIsRead }
    ensures printed { DocumentIsPrinted }
{}

/// The table of a saved profile is a text of CSV, and its records are the names of the fields, and the fields of each row.
pub fn table_is_read()
    ensures { TableIsRead }
{}
