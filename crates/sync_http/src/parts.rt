//! The parts of JSON bodies: values, texts and positions.
ghost use Rattle.std.specs.Prelude.{◌≡◌, ◌≤◌, IfOk, option_map};
ghost use Rattle.serde_json.specs.View.{view};
ghost use Rattle.content.specs.Faults.{value_of};
ghost use Rattle.u1_base.specs.Ids.{id_in};
ghost use Rattle.u1_base.specs.declared.ids.Form.TheVariants.{Transaction};
ghost use Rattle.u1_base.specs.declared.limits.TheConstants.{GREATEST_COUNT};
ghost use Rattle.sync_http.specs.Positions.{generation_in, is_text_or_null, place_at, position_in};
ghost use Rattle.sync_http.specs.Positions.{text_id_in, trans_text};

use serde_json::Value;
use std::alloc::Global;
use u1_base::limits::GREATEST_COUNT;
use u1_base::{IdFault, Memory, Position, TransId};

/// The value that the whole of the bytes is (JSON by RFC 8259, as `serde_json` reads it), if it is
/// one.
pub fn value_in(alloc: Global, bytes: &[u8]) -> Result<Option<Value>, Memory>
    ensures { IfOk result (λ v. option_map view v ≡ value_of bytes.now) }
{
    match Value::from_slice(alloc, bytes) {
        Ok(value) => Ok(Some(value)),
        Err(error) => if error.is_memory() {
            Err(Memory)
        } else {
            Ok(None)
        },
    }
}

/// The position that two members of an object say: a generation, which is at most `GREATEST_COUNT`,
/// and the id of its transaction. At generation 0 any string or null stands for no transaction.
#[tactic(auto, unfolding(crate::specs::Positions::position_in))]
pub fn position_in(
    alloc: Global,
    value: &Value,
    generation_name: &str,
    trans_name: &str,
) -> Result<Option<Position>, Memory>
    ensures { IfOk result (λ p. p ≡ position_in generation_name.now trans_name.now
        (view value.now)) }
{
    let Some(member) = value.get(generation_name) else {
        return Ok(None);
    };
    let Some(generation) = generation_in(member) else {
        return Ok(None);
    };
    let Some(member) = value.get(trans_name) else {
        return Ok(None);
    };
    place_at(alloc, generation, member)
}

fn generation_in(value: &Value) -> Option<u64>
    ensures { result ≡ generation_in (view value.now) }
{
    match value.as_u64() {
        Some(generation) => {
            if generation <= GREATEST_COUNT {
                Some(generation)
            } else {
                None
            }
        }
        None => None,
    }
}

fn place_at(alloc: Global, generation: u64, trans: &Value) -> Result<Option<Position>, Memory>
    requires { generation ≤ GREATEST_COUNT }
    ensures { IfOk result (λ p. p ≡ place_at generation (view trans.now)) }
{
    if generation == 0 {
        if is_text_or_null(trans) {
            return Ok(Some(Position::start()));
        }
        return Ok(None);
    }
    match trans_in(alloc, trans)? {
        Some(id) => Ok(Some(Position {
            generation,
            trans: Some(id),
        })),
        None => Ok(None),
    }
}

fn is_text_or_null(value: &Value) -> bool
    ensures { result ≡ is_text_or_null (view value.now) }
{
    match value {
        Value::Null => true,
        Value::String(_) => true,
        Value::Bool(_) => false,
        Value::Number(_) => false,
        Value::Array(_) => false,
        Value::Object(_) => false,
    }
}

fn trans_in(alloc: Global, value: &Value) -> Result<Option<TransId>, Memory>
    ensures { IfOk result (λ id. id ≡ text_id_in Transaction (view value.now)) }
{
    match value.as_str() {
        Some(text) => trans_of(alloc, text),
        None => Ok(None),
    }
}

fn trans_of(alloc: Global, text: &str) -> Result<Option<TransId>, Memory>
    ensures { IfOk result (λ id. id ≡ id_in Transaction text.now) }
{
    match TransId::read(alloc, text) {
        Ok(id) => Ok(Some(id)),
        Err(IdFault::Memory) => Err(Memory),
        Err(_) => Ok(None),
    }
}

/// The generation of a position.
pub fn generation(at: &Position) -> u64
    ensures { result ≡ at.now.generation }
{
    at.generation
}

/// The text that is written for the transaction of a position: empty where it has none.
pub fn trans_text(at: &Position) -> &str
    ensures { result.now ≡ trans_text at.now }
{
    match &at.trans {
        Some(id) => id.as_str(),
        None => "",
    }
}
