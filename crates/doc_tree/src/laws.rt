//! What holds of documents and their texts, without any call.
ghost use Rattle.doc_tree.specs.Doc.{Doc, depth};
ghost use Rattle.doc_tree.specs.Read.{reads};
ghost use Rattle.doc_tree.specs.Valid.{IsDoc};
ghost use Rattle.doc_tree.specs.Written.{text};
ghost use Rattle.std.specs.Prelude.{◌≡◌, ◌≤◌, Ok};

/// The text of a document that nests at most 100 deep reads back as that document.
pub fn text_reads_back()
    ensures { (d : Doc) → IsDoc d → depth d ≤ 100 → reads (text d) ≡ Ok d }
{}

/// Two documents with one text are one document, at any depth.
pub fn one_text()
    ensures { (d e : Doc) → IsDoc d → IsDoc e → text d ≡ text e → d ≡ e }
{}
