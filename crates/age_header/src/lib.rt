//! The header of age v1 files (C2SP `age.md`), their file key, base64, and the devices from which
//! bytes are read and to which they are written.
//!
//! ```
//! let header = HeaderReader::new(65_536).read_from(alloc, &mut MemSource::new(file))?;
//! for stanza in header.stanzas() {
//!     let kind = &stanza.args()[0];
//! }
//! write_header(&header, &mut sink)?; // the same bytes again: a header has one text
//! ```
//!
//! *What a contract sees.* A stanza is the record `StanzaParts`: its arguments, each as bytes, and
//! its body. A header is `HeaderParts`: its stanzas and its MAC. A reader is `ReaderState`: its
//! limit and the fault that it keeps, if any. Of a device it sees the ghost members: the bytes to
//! come or taken, if they are known (`Known`), what a source may have returned so far (`gave`), and
//! the count of failures. `Moved` and `Flow` hold what is known of bytes before and after a call.
//!
//! Limits: a reader reads exactly the header's bytes, up to a limit that the caller chooses. It
//! does not verify the MAC, since that needs the file key: `mac_of` computes it. A stanza lends its
//! arguments as strings, so a header can take many times its size in memory: the smallest stanza,
//! 6 bytes of a header, takes over 100 bytes.
#![tactic(auto)]

mod arguments;
pub mod base64_no_pad;
mod device;
mod fault;
mod file_key;
mod filling;
mod header;
pub mod laws;
mod lines;
mod progress;
mod reader;
mod signing;
mod size;
mod stanza;
mod writer;

pub use device::{DeviceFault, MemSink, MemSource, ReadSource, Sink, Source, WriteSink, write_all};
pub use fault::HeaderFault;
pub use file_key::FileKey;
pub use filling::fill_from;
pub use header::Header;
pub use reader::HeaderReader;
pub use signing::{mac_of, signed_text};
pub use stanza::{Stanza, StanzaError};
pub use writer::write_header;
