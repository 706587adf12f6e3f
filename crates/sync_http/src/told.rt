//! The body by which a source tells its position, and the reply to it.
ghost use Rattle.std.specs.Prelude.{◌≡◌, ◌++◌, Err, None, Some, IfOk, OnOk};
ghost use Rattle.json.specs.Tree.{json_tokens};
ghost use Rattle.serde_json.specs.View.{view};
ghost use Rattle.serde_json.specs.Written.{outline};
ghost use Rattle.content.specs.Canonical.{data_of};
ghost use Rattle.sync_http.specs.Bodies.{kept_in, told_in, told_of, told_text, told_tree};
ghost use Rattle.sync_http.specs.declared.fault.BodyFault.TheVariants.{Bad};

use crate::BodyFault;
use crate::parts::{generation, position_in, trans_text, value_in};
use json::Writer;
use serde_json::Value;
use std::alloc::Global;
use u1_base::{Bytes, Memory, Position};

/// The body that tells a position.
pub fn write_told(alloc: Global, at: &Position) -> Result<Bytes, Memory>
    ensures { IfOk result (λ bytes. bytes ≡ told_text at.now) }
{
    let mut out = Writer::new(Vec::new(alloc));
    write_object(at, &mut out)?;
    Ok(Bytes::from_vec(out.into_inner()))
}

fn write_object(at: &Position, out: &mut Writer) -> Result<(), Memory>
    ensures tokens { OnOk result
        (out.new.tokens ≡ out.old.tokens ++ json_tokens (outline (data_of (told_tree at.now)))) }
    ensures before { out.new.before ≡ out.old.before }
{
    out.begin_object()?;
    out.key("generation")?;
    out.u64(generation(at))?;
    out.key("transaction_id")?;
    out.string(trans_text(at))?;
    out.end_object()?;
    Ok(())
}

/// Reads the position that a body tells.
#[tactic(auto, unfolding(crate::specs::Bodies::told_in))]
pub fn read_told(alloc: Global, body: &[u8]) -> Result<Position, BodyFault>
    ensures ok { IfOk result (λ at. told_in body.now ≡ Some at) }
    ensures bad { result ≡ Err Bad → told_in body.now ≡ None }
{
    let Some(value) = value_in(alloc, body)? else {
        return Err(BodyFault::Bad);
    };
    match told_of(alloc, &value)? {
        Some(at) => Ok(at),
        None => Err(BodyFault::Bad),
    }
}

/// Reads the reply that the position is kept: an object, whatever its members are.
pub fn read_kept(alloc: Global, body: &[u8]) -> Result<(), BodyFault>
    ensures ok { OnOk result (kept_in body.now ≡ Some tt) }
    ensures bad { result ≡ Err Bad → kept_in body.now ≡ None }
{
    let Some(value) = value_in(alloc, body)? else {
        return Err(BodyFault::Bad);
    };
    if value.is_object() {
        Ok(())
    } else {
        Err(BodyFault::Bad)
    }
}

#[tactic(auto, unfolding(crate::specs::Bodies::told_of))]
fn told_of(alloc: Global, value: &Value) -> Result<Option<Position>, Memory>
    ensures { IfOk result (λ at. at ≡ told_of (view value.now)) }
{
    position_in(alloc, value, "generation", "transaction_id")
}
