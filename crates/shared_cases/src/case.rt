//! A case: what is given to the program, and what it has to give.

/// A part of a case: its name, which is empty in a row, and its octets.
#[derive(Debug, Drop)]
pub struct Field {
    pub name: Vec<u8>,
    pub text: Vec<u8>,
}

/// A case, by the line of its file on which it begins, counted from 1, and its fields in order.
#[derive(Debug, Drop)]
pub struct Case {
    pub line: u64,
    pub fields: Vec<Field>,
}

impl Case {
    /// The octets of the first field of a name, or none where there is no such field.
    pub fn find(&self, name: &[u8]) -> Option<&[u8]> {
        for field in &self.fields {
            if field.name.as_slice() == name {
                return Some(field.text.as_slice());
            }
        }
        None
    }

    /// The octets of the first field of a name, which are empty where there is no such field.
    pub fn text(&self, name: &[u8]) -> &[u8] {
        match self.find(name) {
            Some(text) => text,
            None => &[],
        }
    }

    /// The octets of the field at an index, counted from 0, which are empty beyond the last.
    pub fn cell(&self, index: usize) -> &[u8] {
        match self.fields.get(index) {
            Some(field) => field.text.as_slice(),
            None => &[],
        }
    }
}
