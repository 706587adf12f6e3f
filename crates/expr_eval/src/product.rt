//! The keys of a content: the product of the texts of several expressions.
ghost use Rattle.std.specs.Prelude.{◌≡◌, ◌≢◌, ◌==◌, ◌+◌, ◌<◌, ◌≤◌, ◌++◌, ◌∷◌, [], IfOk, IfSome};
ghost use Rattle.std.specs.Prelude.{OnOk};
ghost use Rattle.std.specs.Prelude.{length, map, take, filter, nat_le, vec_len};
ghost use Rattle.std.specs.List.{All, AllPairs, list_any};
ghost use Rattle.content.specs.TreeOf.{tree_of};
ghost use Rattle.expr_parser.specs.FormOf.{form_of};
ghost use Rattle.expr_parser.specs.Limits.{most_exprs};
ghost use Rattle.expr_eval.specs.Keys.{key_texts, keys_of, longest, most};
ghost use Rattle.expr_eval.specs.inner.Lent.{behind, lent};
ghost use Rattle.expr_eval.specs.Values.{texts_of};

use crate::evaluate::values;
use crate::first_places::first_places;
use content::Json;
use expr_parser::Expr;
use std::alloc::Global;
use u1_base::limits::{MOST_DOCUMENT_KEYS, MOST_KEY_TEXT_BYTES};
use u1_base::{Key, Keys, Memory, Text, Texts};

/// The keys of a content for one to eight expressions: one text of each expression, at most 1,024
/// bytes long, in every combination, of which the first 4,096 count. An expression without such a
/// text leaves no key.
pub fn keys(alloc: Global, exprs: &[Expr], root: &Json) -> Result<Keys, Memory>
    requires some { 1 ≤ length exprs.now }
    requires few { length exprs.now ≤ most_exprs }
    ensures value { IfOk result
        (λ keys. keys ≡ keys_of (map form_of exprs.now) (tree_of root.now)) }
    ensures widths { IfOk result (λ keys. All (λ key. length key ≡ length exprs.now) keys) }
    ensures distinct { IfOk result (λ keys. AllPairs (λ key other. key ≢ other) keys) }
{
    let given = texts_of_each(alloc, exprs, root)?;
    if let Some(text) = only_text(&given) {
        return only_key(alloc, text);
    }
    let lists = key_texts_of_each(alloc, &given)?;
    let mut keys = Keys::new(alloc);
    if has_empty(&lists) {
        return Ok(keys);
    }
    let mut front = Vec::with_capacity(alloc, lists.len())?;
    add_keys(alloc, &lists, &mut front, &mut keys)?;
    Ok(keys)
}

fn texts_of_each(alloc: Global, exprs: &[Expr], root: &Json) -> Result<Vec<Texts>, Memory>
    ensures { IfOk result (λ lists. lists.items
        ≡ map (λ e. texts_of (form_of e) (tree_of root.now)) exprs.now) }
{
    let mut lists = Vec::with_capacity(alloc, exprs.len())?;
    for expr in exprs {
        lists.push(values(alloc, expr, root)?)?;
    }
    Ok(lists)
}

// The text of one expression that gives just this one, if it may be a key. Most do, and no list of
// tuples is made then.
fn only_text(given: &[Texts]) -> Option<&Text>
    ensures { IfSome result (λ text. map key_texts given.now ≡ (text.now ∷ []) ∷ []) }
{
    let [texts] = given else {
        return None;
    };
    let [text] = texts.as_slice() else {
        return None;
    };
    if is_short(text) { Some(text) } else { None }
}

fn only_key(alloc: Global, text: &Text) -> Result<Keys, Memory>
    ensures { IfOk result (λ keys. keys ≡ (text.now ∷ []) ∷ []) }
{
    let mut keys = Keys::new(alloc);
    keys.push(Key::of_one(text.duplicate()?))?;
    Ok(keys)
}

fn key_texts_of_each<'t>(alloc: Global, given: &'t [Texts]) -> Result<Vec<Vec<&'t str>>, Memory>
    ensures { IfOk result (λ lists. map (λ list. lent list.items) lists.items
        ≡ map key_texts given.now) }
{
    let mut lists = Vec::with_capacity(alloc, given.len())?;
    for texts in given {
        lists.push(key_texts_among(alloc, texts.as_slice())?)?;
    }
    Ok(lists)
}

// The texts that may be a part of a key, each once.
fn key_texts_among<'t>(alloc: Global, texts: &'t [Text]) -> Result<Vec<&'t str>, Memory>
    ensures { IfOk result (λ list. lent list.items ≡ key_texts texts.now) }
{
    let short = short_texts(alloc, texts)?;
    first_places(alloc, &short)
}

fn short_texts<'t>(alloc: Global, texts: &'t [Text]) -> Result<Vec<&'t str>, Memory>
    ensures { IfOk result (λ short. lent short.items
        ≡ filter (λ text. nat_le (length text) longest) texts.now) }
{
    let mut short = Vec::with_capacity(alloc, texts.len())?;
    for text in texts {
        if is_short(text) {
            short.push(text.as_str())?;
        }
    }
    Ok(short)
}

fn is_short(text: &Text) -> bool
    ensures { result ≡ nat_le (length text.now) longest }
{
    text.as_str().len() <= MOST_KEY_TEXT_BYTES
}

fn has_empty(lists: &[Vec<&str>]) -> bool
    ensures { result ≡ list_any (λ list. vec_len list == 0) lists.now }
{
    lists.iter().any(|list| list.is_empty())
}

// Adds the keys that begin with the front and go on with one text of each list, until there are
// 4,096.
#[cycle(product)]
fn add_keys<'t>(
    alloc: Global,
    lists: &[Vec<&'t str>],
    front: &mut Vec<&'t str>,
    keys: &mut Keys,
) -> Result<(), Memory>
    requires some { 1 ≤ vec_len front.old + length lists.now }
    requires few { vec_len front.old + length lists.now ≤ most_exprs }
    requires room { length keys.old < most }
    ensures front { OnOk result (front.new.items ≡ front.old.items) }
    ensures keys { OnOk result
        (keys.new ≡ take most (keys.old
        ++ behind (lent front.old.items) (map (λ list. lent list.items) lists.now))) }
{
    match lists.split_first() {
        None => {
            add_key(alloc, front, keys)?;
            Ok(())
        }
        Some((list, others)) => {
            add_keys_of_each(alloc, list, others, front, keys)?;
            Ok(())
        }
    }
}

// The same for each text of the first list.
#[cycle(product)]
fn add_keys_of_each<'t>(
    alloc: Global,
    texts: &[&'t str],
    others: &[Vec<&'t str>],
    front: &mut Vec<&'t str>,
    keys: &mut Keys,
) -> Result<(), Memory>
    requires few { vec_len front.old + length others.now < most_exprs }
    requires room { length keys.old ≤ most }
    ensures front { OnOk result (front.new.items ≡ front.old.items) }
    ensures keys { OnOk result
        (keys.new ≡ take most (keys.old
        ++ behind (lent front.old.items)
        (lent texts.now ∷ map (λ list. lent list.items) others.now))) }
{
    for text in texts {
        if keys.len() >= MOST_DOCUMENT_KEYS {
            return Ok(());
        }
        front.push(*text)?;
        add_keys(alloc, others, front, keys)?;
        front.pop();
    }
    Ok(())
}

fn add_key(alloc: Global, texts: &[&str], keys: &mut Keys) -> Result<(), Memory>
    requires some { 1 ≤ length texts.now }
    requires few { length texts.now ≤ most_exprs }
    ensures { OnOk result (keys.new ≡ keys.old ++ lent texts.now ∷ []) }
{
    let copies = copies_of(alloc, texts)?;
    keys.push(Key::of(copies))
}

fn copies_of(alloc: Global, texts: &[&str]) -> Result<Texts, Memory>
    ensures { IfOk result (λ copies. copies ≡ lent texts.now) }
{
    let mut copies = Vec::with_capacity(alloc, texts.len())?;
    for text in texts {
        copies.push(Text::copy(alloc, text)?)?;
    }
    Ok(Texts::from_vec(copies))
}
