//! Tests whether a text can be the full name of an object.

ghost use Rattle.std.specs.Prelude.{◌≡◌};
ghost use Rattle.setup_model.specs.Name.{is_host_name};
ghost use Rattle.check_saved_state.specs.Verification.{is_full_name};

use setup_model::is_name;

/// Whether a full name is a host's: it has no semicolon.
pub(crate) fn is_host_name(name: &str) -> bool
    ensures { result ≡ is_host_name name.now }
{
    name.as_bytes().iter().all(|byte| *byte != b';')
}

/// Whether this is a host's name, or a host's name and a description around one semicolon.
pub(crate) fn is_full_name(name: &str) -> bool
    ensures { result ≡ is_full_name name.now }
{
    match name.split_once(';') {
        Some((host, description)) => is_name(host) && is_name(description),
        None => is_name(name),
    }
}
