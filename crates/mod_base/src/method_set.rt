ghost use Rattle.std.specs.Prelude.{◌≡◌};
ghost use Rattle.mod_base.specs.Methods.{has_method};

use rad_words::Section;

/// The sections for which a kind of modules has a method, in the order of `Section`.
#[derive(Clone, Copy, Debug, PartialEq, Eq)]
pub struct MethodSet {
    pub methods: [bool; 6],
}

impl MethodSet {
    /// Whether there is a method for this section.
    pub fn has(&self, section: Section) -> bool
        ensures { result ≡ has_method self.now.methods section }
    {
        self.methods[section as usize]
    }
}
