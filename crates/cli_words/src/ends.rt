//! The ends of a range: `open`, or a key as a JSON list of its texts.
ghost use Rattle.std.specs.Prelude.{◌≡◌, IfOk, option_map};
ghost use Rattle.serde_json.specs.View.{items_view};
ghost use Rattle.cli_words.specs.Ends.{end_in, key_in, texts_in};

use serde_json::Value;
use std::alloc::Global;
use sync_http::parts::value_in;
use u1_base::limits::MOST_KEY_TEXTS;
use u1_base::{Key, Memory, Text, Texts};

/// The end of a range that the text is, if it is one; inside, None stands for `open`.
pub fn end_in(alloc: Global, text: &str) -> Result<Option<Option<Key>>, Memory>
    ensures { IfOk result (λ end. end ≡ end_in text.now) }
{
    if text == "open" {
        return Ok(Some(None));
    }
    match key_in(alloc, text)? {
        Some(key) => Ok(Some(Some(key))),
        None => Ok(None),
    }
}

fn key_in(alloc: Global, text: &str) -> Result<Option<Key>, Memory>
    ensures { IfOk result (λ key. key ≡ key_in text.now) }
{
    let Some(value) = value_in(alloc, text.as_bytes())? else {
        return Ok(None);
    };
    let Some(items) = value.as_array() else {
        return Ok(None);
    };
    let Some(texts) = texts_in(alloc, items.as_slice())? else {
        return Ok(None);
    };
    if texts.is_empty() || texts.len() > MOST_KEY_TEXTS {
        return Ok(None);
    }
    Ok(Some(Key::of(texts)))
}

// The texts of a list, if all its items are texts.
fn texts_in(alloc: Global, items: &[Value]) -> Result<Option<Texts>, Memory>
    ensures { IfOk result (λ texts. texts ≡ texts_in (items_view items.now)) }
{
    let mut texts = Texts::new(alloc);
    for item in items {
        match item.as_str() {
            Some(text) => texts.push(Text::copy(alloc, text)?)?,
            None => return Ok(None),
        }
    }
    Ok(Some(texts))
}
