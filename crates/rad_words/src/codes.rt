//! Return codes and their names.

ghost use Rattle.std.specs.Prelude.{◌≡◌, find, Some, IfSome, IsTrue};
ghost use Rattle.std.specs.Option.{option_copied};
ghost use Rattle.std.specs.Str.{str_eq_ignore_ascii_case};
ghost use Rattle.rad_words.specs.Codes.{code_name, code_named};

/// What a module or a section answers: one of the nine return codes of unlang(5).
#[derive(Clone, Copy, Debug, PartialEq, Eq)]
pub enum Code {
    Reject,
    Fail,
    Ok,
    Handled,
    Invalid,
    Userlock,
    Notfound,
    Noop,
    Updated,
}

/// The nine return codes.
const CODES: [Code; 9] = [
    Code::Reject,
    Code::Fail,
    Code::Ok,
    Code::Handled,
    Code::Invalid,
    Code::Userlock,
    Code::Notfound,
    Code::Noop,
    Code::Updated,
];

impl Code {
    /// The name of a return code, as unlang(5) writes it. It is read as that code.
    #[tactic(auto, using(crate::proofs::CodesNamed::codes_are_read))]
    pub fn name(self) -> &'static [u8]
        ensures exact { result.now ≡ code_name self }
        ensures read { code_named result.now ≡ Some self }
    {
        match self {
            Code::Reject => b"reject",
            Code::Fail => b"fail",
            Code::Ok => b"ok",
            Code::Handled => b"handled",
            Code::Invalid => b"invalid",
            Code::Userlock => b"userlock",
            Code::Notfound => b"notfound",
            Code::Noop => b"noop",
            Code::Updated => b"updated",
        }
    }

    /// The return code of this name, in any case of its ASCII letters, or none where no code has it.
    pub fn named(name: &[u8]) -> Option<Code>
        ensures { result ≡ code_named name.now }
    {
        match first_named(name, &CODES) {
            Some(code) => Some(*code),
            None => None,
        }
    }
}

/// Whether this is the name of a return code, in any case of its ASCII letters.
fn is_name(code: &Code, name: &[u8]) -> bool
    ensures { result ≡ str_eq_ignore_ascii_case name.now (code_name code.now) }
{
    name.eq_ignore_ascii_case(code.name())
}

/// The first of these codes that has this name, in any case of its ASCII letters.
fn first_named<'a>(name: &[u8], codes: &'a [Code]) -> Option<&'a Code>
    ensures { option_copied result ≡ find (λ one. str_eq_ignore_ascii_case name.now (code_name one)) codes.now }
{
    codes.iter().find(|code| is_name(code, name))
}
