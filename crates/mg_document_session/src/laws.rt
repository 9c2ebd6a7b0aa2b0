// The laws of documents.
ghost use Rattle.mg_document.specs.Replies.{bytes_told};
ghost use Rattle.mg_document_session.specs.Trips.{ComesBack, ReadAsLoads};

/// A document that was stored and then loaded comes back: the replies to the loads give the bytes that were stored. This holds if
/// each line of both was answered `ok`, and the loads begin in the state after the stores. The lines that load a document are read
/// as the calls that load it.
pub fn documents_come_back()
    ensures back { ComesBack bytes_told }
    ensures loads { ReadAsLoads }
{}
