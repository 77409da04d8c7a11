//! Names of instances that are those of the return codes.

ghost use Rattle.std.specs.Prelude.{◌≡◌};
ghost use Rattle.rad_build.specs.Codes.{is_code_name};

use rad_words::Code;

/// Whether a name is that of a return code, octet by octet.
pub fn is_code_name(name: &[u8]) -> bool
    ensures { result ≡ is_code_name name.now }
{
    match Code::named(name) {
        Some(code) => name == code.name(),
        None => false,
    }
}
