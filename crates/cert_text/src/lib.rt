//! Certificates as text: one JSON object, written and read.
//!
//! The one contract: `write_cert` gives the text of a certificate as `specs/Trees.antt` writes it, and
//! `read_cert` gives the certificate of the bytes, or their first fault, as `specs/Certificates.antt`
//! reads them; a text that was written, within the limits, is read as the same certificate. It stands on
//! `loss_model`, whose types a certificate holds, on `ratio` for numbers of any size, and on `serde_json`.
//!
//! `rq_engine` reads and `report_text` writes so:
//! ```text
//! let cert = match read_cert(alloc, bytes) {
//!     Ok(cert) => cert,
//!     Err(CertFault::OutOfMemory) => return Err(Halt::OutOfMemory),
//!     Err(fault) => return Err(Halt::Refused(Refusal::Certificate(fault))),
//! };
//!
//! Report::Certificate(cert) => return write_cert(alloc, cert),
//! ```
#![tactic(auto)]

mod cert;
mod chain;
mod digits;
mod fault;
mod interval;
mod keys;
mod later;
mod laws;
mod layout;
mod moves;
mod narrow;
mod numbers;
mod parts;
mod path;
mod place;
mod read;
mod row;
mod segment;
mod vertex;
mod write;

pub use cert::Cert;
pub use fault::CertFault;
pub use laws::{read_is_within, same_content, tree_reads_back};
pub use read::read_cert;
pub use write::write_cert;
