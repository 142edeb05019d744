//! Names: which texts can be names, and the full names of services.

ghost use Rattle.std.specs.Prelude.{◌≡◌, IfOk, find, not, string_bytes};
ghost use Rattle.setup_model.specs.Name.{full_name, is_name, is_name_byte, name_fault};

use crate::fault::NameFault;
use crate::limits::MAX_NAME_BYTES;
use std::alloc::{AllocError, Global};

/// The full name of a service: a semicolon separates the host's name from the description. An Err means
/// out of memory.
pub fn full_name(alloc: Global, host: &str, description: &str) -> Result<String, AllocError>
    ensures { IfOk result (λ s. string_bytes s ≡ full_name (host.now, description.now)) }
{
    Ok(format!(in alloc; "{host};{description}")?)
}

/// The fault of a text as the name of a host or the description of a service. None if the text has 1 to 255
/// bytes, without a control byte or a semicolon.
pub fn name_fault(name: &str) -> Option<NameFault>
    ensures { result ≡ name_fault name.now }
{
    if name.is_empty() {
        return Some(NameFault::Empty);
    }
    if name.len() > MAX_NAME_BYTES {
        return Some(NameFault::Long(name.len()));
    }
    match bad_byte(name.as_bytes()) {
        Some(byte) => Some(NameFault::Byte(byte)),
        None => None,
    }
}

/// Whether a text can be the name of a host or the description of a service.
pub fn is_name(name: &str) -> bool
    ensures { result ≡ is_name name.now }
{
    match name_fault(name) {
        Some(_) => false,
        None => true,
    }
}

/// The first byte that can't be in a name.
fn bad_byte(bytes: &[u8]) -> Option<u8>
    ensures { result ≡ find (λ b. not (is_name_byte b)) bytes.now }
{
    bytes.iter().copied().find(|byte| !is_name_byte(*byte))
}

fn is_name_byte(byte: u8) -> bool
    ensures { result ≡ is_name_byte byte }
{
    byte >= 32 && byte != 127 && byte != b';'
}
