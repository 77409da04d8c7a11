use rad_words::Section;

/// The name of a section of a table: the number of its server, its kind, and for a subsection the number of that.
#[derive(Clone, Copy, Debug, PartialEq, Eq)]
pub struct SectionId {
    pub server: u32,
    pub section: Section,
    pub sub: Option<u32>,
}
