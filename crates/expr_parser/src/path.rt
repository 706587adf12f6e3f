//! The name of a field.
ghost use Rattle.std.specs.Prelude.{◌≡◌, ◌≤◌, IfOk, length};

use std::alloc::Global;
use std::marker::Model;
use u1_base::{Memory, Text, Texts};

/// One or more parts, the outermost first, seen as their list.
#[derive(Drop)]
pub struct Path {
    parts: Texts,
}

impl Model for Path {
    ghost use Rattle.std.specs.Prelude.{◌≤◌, List, ℕ, length};

    ghost Value = { List (List ℕ) };

    ghost view = { λ p. p.parts };

    ghost invariant = { λ p. 1 ≤ length p.parts };
}

impl Path {
    pub(crate) fn of(parts: Texts) -> Path
        requires { 1 ≤ length parts }
        ensures { result ≡ parts }
    {
        Path { parts }
    }

    pub fn parts(&self) -> &[Text]
        ensures value { result.now ≡ self.now }
        ensures some { 1 ≤ length self.now }
    {
        self.parts.as_slice()
    }

    pub fn copy(&self, alloc: Global) -> Result<Path, Memory>
        ensures { IfOk result (λ p. p ≡ self.now) }
    {
        let mut parts = Texts::new(alloc);
        for part in self.parts() {
            parts.push(part.duplicate()?)?;
        }
        Ok(Path::of(parts))
    }
}
