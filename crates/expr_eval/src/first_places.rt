//! Lists without doubles.
ghost use Rattle.std.specs.Prelude.{◌≡◌, IfOk};
ghost use Rattle.std.specs.List.{list_any};
ghost use Rattle.std.specs.Str.{bytes_eq};
ghost use Rattle.expr_eval.specs.inner.Lent.{lent};
ghost use Rattle.expr_eval.specs.Words.{distinct};

use std::alloc::Global;
use std::collections::BTreeSet;
use u1_base::Memory;

// Up to so many texts are compared with one another: that takes less time than a set does.
const FEW: usize = 8;

// Each text once, at its first place.
pub(crate) fn first_places<'t>(alloc: Global, texts: &[&'t str]) -> Result<Vec<&'t str>, Memory>
    ensures { IfOk result (λ firsts. lent firsts.items ≡ distinct (lent texts.now)) }
{
    if texts.len() <= FEW {
        firsts_of_few(alloc, texts)
    } else {
        firsts_of_many(alloc, texts)
    }
}

fn firsts_of_few<'t>(alloc: Global, texts: &[&'t str]) -> Result<Vec<&'t str>, Memory>
    ensures { IfOk result (λ firsts. lent firsts.items ≡ distinct (lent texts.now)) }
{
    let mut firsts = Vec::with_capacity(alloc, texts.len())?;
    for text in texts {
        if !is_among(text, &firsts) {
            firsts.push(*text)?;
        }
    }
    Ok(firsts)
}

fn is_among(text: &str, texts: &[&str]) -> bool
    ensures { result ≡ list_any (λ other. bytes_eq text.now other.now) texts.now }
{
    texts.iter().any(|other| text == *other)
}

// The same with a set of those that were met.
fn firsts_of_many<'t>(alloc: Global, texts: &[&'t str]) -> Result<Vec<&'t str>, Memory>
    ensures { IfOk result (λ firsts. lent firsts.items ≡ distinct (lent texts.now)) }
{
    let mut firsts = Vec::new(alloc);
    let mut seen = BTreeSet::new(alloc);
    for text in texts {
        if seen.insert(*text)? {
            firsts.push(*text)?;
        }
    }
    Ok(firsts)
}
