//! Scripts of changes and questions are obeyed word by word.
use crate::stage::Stage;
use rad_outside::NoMemory;
use shared_cases::{Case, Subject, words};
use std::alloc::Global;

/// A script gives what each of its words answers, parted by blanks.
#[derive(Drop)]
pub struct Scripts;

impl Subject for Scripts {
    fn answer(&mut self, alloc: Global, case: &Case) -> Result<Vec<u8>, NoMemory> {
        let mut stage = Stage::new(alloc);
        let mut answer = Vec::new(alloc);
        for word in words(alloc, case.cell(0))? {
            if !answer.is_empty() {
                answer.push(b' ')?;
            }
            stage.obey(word, &mut answer)?;
        }
        Ok(answer)
    }
}
