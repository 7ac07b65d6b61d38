//! Requests as bytes.

ghost use Rattle.std.specs.Prelude.{◌≡◌, ◌++◌, IfOk, OnOk};
ghost use Rattle.std.specs.Io.KnownBytes.{append_known};
ghost use Rattle.outside_core.specs.Sink.{GainsPart};
ghost use Rattle.peer_wire.specs.Asks as spec;
ghost use Rattle.peer_wire.specs.Faults.{OnFailed, OnWantOfMemory, HasWriteCause};

use crate::asks::{Ask, Whom};
use crate::faults::WriteFault;
use doc_tree::NoMemory;
use itoa::Buffer;
use outside_core::{Failed, Sink};
use std::alloc::Global;

/// Writes a request: its head and its body, as one text in one write.
///
/// [`WriteFault::Failed`] comes only where the sink counted a fault, which then has gained a front of
/// the text. After [`WriteFault::NoMemory`] nothing was written.
pub fn write_request<K: Sink>(
    alloc: Global,
    sink: &mut K,
    ask: &Ask,
    whom: &Whom,
) -> Result<(), WriteFault>
    ensures ok { OnOk result (K.gained sink.new ≡ append_known (K.gained sink.old) (spec.ask_text whom.now ask.now)) }
    ensures failed { OnFailed result (GainsPart (K.gained sink.old) (K.gained sink.new) (spec.ask_text whom.now ask.now)) }
    ensures memory { OnWantOfMemory result (K.gained sink.new ≡ K.gained sink.old) }
    ensures aside { K.aside sink.new ≡ K.aside sink.old }
    ensures cause { HasWriteCause (K.faults sink.old) (K.faults sink.new) result }
{
    match text_of(alloc, ask, whom) {
        Ok(text) => write_text(sink, &text),
        Err(NoMemory) => Err(WriteFault::NoMemory),
    }
}

fn write_text<K: Sink>(sink: &mut K, text: &[u8]) -> Result<(), WriteFault>
    ensures ok { OnOk result (K.gained sink.new ≡ append_known (K.gained sink.old) text.now) }
    ensures failed { OnFailed result (GainsPart (K.gained sink.old) (K.gained sink.new) text.now) }
    ensures memory { OnWantOfMemory result (K.gained sink.new ≡ K.gained sink.old) }
    ensures aside { K.aside sink.new ≡ K.aside sink.old }
    ensures cause { HasWriteCause (K.faults sink.old) (K.faults sink.new) result }
{
    match sink.write(text) {
        Ok(()) => Ok(()),
        Err(Failed) => Err(WriteFault::Failed),
    }
}

// The text of a request.
fn text_of(alloc: Global, ask: &Ask, whom: &Whom) -> Result<Vec<u8>, NoMemory>
    ensures { IfOk result (λ text. text.items ≡ spec.ask_text whom.now ask.now) }
{
    let body = ask.body.as_slice();
    let mut text = Vec::new(alloc);
    push_start(&mut text, ask, whom)?;
    push_fields(&mut text, whom, body.len())?;
    push(&mut text, body)?;
    Ok(text)
}

// Appends the request line, and where the server is.
fn push_start(text: &mut Vec<u8>, ask: &Ask, whom: &Whom) -> Result<(), NoMemory>
    ensures { OnOk result (text.new.items ≡ text.old.items ++ spec.start_text whom.now ask.now) }
{
    push(text, ask.verb.as_str().as_bytes())?;
    push(text, b" ")?;
    push(text, ask.target.as_bytes())?;
    push(text, b" HTTP/1.1\r\nHost: ")?;
    push(text, whom.host.as_bytes())?;
    push(text, b":")?;
    push(text, Buffer::new().format(whom.port).as_bytes())
}

// Appends the other headers, of a body of this size, and the empty line.
fn push_fields(text: &mut Vec<u8>, whom: &Whom, size: usize) -> Result<(), NoMemory>
    ensures { OnOk result (text.new.items ≡ text.old.items ++ spec.fields_text whom.now size) }
{
    push(text, b"\r\nX-Ops-UserId: ")?;
    push(text, whom.caller.as_bytes())?;
    push(text, b"\r\nX-Ops-Server-API-Version: 1\r\nContent-Length: ")?;
    push(text, Buffer::new().format(size).as_bytes())?;
    push(text, b"\r\n\r\n")
}

// Appends the piece.
fn push(text: &mut Vec<u8>, piece: &[u8]) -> Result<(), NoMemory>
    ensures { OnOk result (text.new.items ≡ text.old.items ++ piece.now) }
{
    match text.extend_from_slice(piece) {
        Ok(()) => Ok(()),
        Err(_) => Err(NoMemory),
    }
}
