//! Reading contents of about 45 bytes and writing each back as its canonical text, beside
//! `serde_json`'s reading alone.
use content::Content;
use serde_json::Value;
use speed_common::{Fault, Workload, done, text_of};
use std::alloc::Global;

/// So many contents, each an object of three members. The result is the length of all canonical
/// texts, which is that of the texts that are read: only the order of the members differs.
#[derive(Drop)]
pub struct Contents {
    texts: Vec<String>,
}

impl Workload for Contents {
    fn make(alloc: Global, size: u32) -> Result<Contents, Fault> {
        let mut texts = Vec::new(alloc);
        for number in 0..size {
            texts.push(text_of(alloc, number)?)?;
        }
        Ok(Contents { texts })
    }

    fn ours(&mut self, alloc: Global) -> Result<u64, Fault> {
        let mut length = 0u64;
        for text in &self.texts {
            let content = done(Content::read(alloc, text.as_bytes()))?;
            length = length.saturating_add(content.text()?.len() as u64);
        }
        Ok(length)
    }

    fn peer(&mut self, alloc: Global) -> Result<u64, Fault> {
        let mut length = 0u64;
        for text in &self.texts {
            match Value::from_slice(alloc, text.as_bytes()) {
                Ok(Value::Object(_)) => length = length.saturating_add(text.len() as u64),
                _ => return Err(Fault::Run),
            }
        }
        Ok(length)
    }
}
