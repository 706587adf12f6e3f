//! The words of texts.
ghost use Rattle.std.specs.Prelude.{◌≡◌, ◌++◌, IfOk, OnOk, flat_map};
ghost use Rattle.expr_eval.specs.inner.Lent.{lent};
ghost use Rattle.expr_eval.specs.Words.{words_in};

use std::alloc::Global;
use u1_base::Memory;

// All words of all texts, in order.
pub(crate) fn words_among<'t>(alloc: Global, texts: &[&'t str]) -> Result<Vec<&'t str>, Memory>
    ensures { IfOk result (λ words. lent words.items ≡ flat_map words_in (lent texts.now)) }
{
    let mut words = Vec::new(alloc);
    for text in texts {
        add_words(text, &mut words)?;
    }
    Ok(words)
}

fn add_words<'t>(text: &'t str, words: &mut Vec<&'t str>) -> Result<(), Memory>
    ensures { OnOk result (lent words.new.items ≡ lent words.old.items ++ words_in text.now) }
{
    for word in text.split_whitespace() {
        words.push(word)?;
    }
    Ok(())
}
