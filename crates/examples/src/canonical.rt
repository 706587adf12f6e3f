//! Example: read a content, and print its canonical text.
//!
//! A content is a JSON object whose numbers are whole. However it is laid out, it has one canonical
//! text: compact, with the names sorted.
ghost use Rattle.std.specs.Prelude.{◌≡◌, ◌≢◌, ◌⊎◌, IfErr, IfOk, OnOk, Some, option_map};
ghost use Rattle.u1_base.specs.Causes.{HasCauseOf};
ghost use Rattle.content.specs.Canonical.{canonical};
ghost use Rattle.content.specs.Faults.{fault_of};
ghost use Rattle.content.specs.Reading.{content_in};
ghost use Rattle.examples.specs.Printed.{IsWhy, PrintsCanonical};

use content::{Content, ContentFault};
use link::Sink;
use std::alloc::Global;
use std::error::Error;
use std::fmt;
use u1_base::Bytes;

/// Why a text was not printed.
#[derive(Clone, Copy, Debug, PartialEq, Eq)]
pub enum PrintFault {
    /// The bytes are not a content, or memory ran out. Nothing was printed.
    Content(ContentFault),
    /// The sink failed. It may have taken the beginning of the text, or all of it.
    Sink,
}

impl fmt::Display for PrintFault {
    fn fmt<W: fmt::Write>(&self, f: &mut fmt::Formatter<W>) -> fmt::Result {
        match self {
            PrintFault::Content(fault) => fmt::Display::fmt(fault, f),
            PrintFault::Sink => f.write_str("the output failed"),
        }
    }
}

impl Error for PrintFault {}

/// Reads a content from the whole of `json`, and prints its canonical text.
///
/// A `Sink` takes bytes: `StdSink` writes them to the standard output or to a file, `MemSink` keeps
/// them for a test.
pub fn print_canonical<S: Sink>(alloc: Global, json: &[u8], out: &mut S) -> Result<(), PrintFault>
    ensures printed { OnOk result
        (PrintsCanonical json.now (S.known out.old).taken (S.known out.new).taken) }
    ensures refused { IfErr result (IsWhy json.now) }
    ensures unprinted { IfErr result (λ why. why ≢ PrintFault.Sink → out.new ≡ out.old) }
    ensures cause { HasCauseOf PrintFault.Sink
        (S.known out.old).faults (S.known out.new).faults result }
{
    let text = match canonical_text(alloc, json) {
        Ok(text) => text,
        Err(fault) => return Err(PrintFault::Content(fault)),
    };
    if out.put(text.as_slice()).is_err() {
        return Err(PrintFault::Sink);
    }
    // A sink may hold bytes back until it is flushed. Some failures are seen only then.
    if out.flush().is_err() {
        return Err(PrintFault::Sink);
    }
    Ok(())
}

// The canonical text of the content that the bytes read as.
fn canonical_text(alloc: Global, json: &[u8]) -> Result<Bytes, ContentFault>
    ensures text { IfOk result (λ text. option_map canonical (content_in json.now) ≡ Some text) }
    ensures refused { IfErr result
        (λ fault. (fault ≡ ContentFault.Memory) ⊎ (fault_of json.now ≡ Some fault)) }
{
    let content = Content::read(alloc, json)?;
    Ok(content.text()?)
}
