//! One revision of a document.
ghost use Rattle.std.specs.Prelude.{◌≡◌, IfOk};

use content::Content;
use u1_base::Memory;
use vector_rev::Clock;

/// A revision and its content. A revision without a content is a deletion.
#[derive(Drop)]
pub struct Member {
    pub rev: Clock,
    pub content: Option<Content>,
}

impl Member {
    pub fn copy(&self) -> Result<Member, Memory>
        ensures { IfOk result (λ m. m ≡ self.now) }
    {
        Ok(Member {
            rev: self.rev.copy()?,
            content: copied(&self.content)?,
        })
    }
}

pub(crate) fn copied(content: &Option<Content>) -> Result<Option<Content>, Memory>
    ensures { IfOk result (λ c. c ≡ content.now) }
{
    match content {
        Some(content) => Ok(Some(content.copy()?)),
        None => Ok(None),
    }
}
