//! The body by which a target says what it knows.
ghost use Rattle.std.specs.Prelude.{◌≡◌, ◌++◌, Err, None, Some, IfOk, OnOk};
ghost use Rattle.json.specs.Tree.{json_tokens};
ghost use Rattle.serde_json.specs.View.{view};
ghost use Rattle.serde_json.specs.Written.{outline};
ghost use Rattle.content.specs.Canonical.{data_of};
ghost use Rattle.sync_http.specs.Bodies.{info_in, info_of, info_text, info_tree, side_in, uid_in};
ghost use Rattle.sync_http.specs.declared.fault.BodyFault.TheVariants.{Bad};

use crate::BodyFault;
use crate::names::uid_of;
use crate::parts::{generation, position_in, trans_text, value_in};
use json::Writer;
use serde_json::Value;
use std::alloc::Global;
use u1_base::{Bytes, Memory, Position, ReplicaUid};

/// What a target says of itself, and of the source that asks.
#[derive(Drop)]
pub struct Info {
    pub target: ReplicaUid,
    /// Where the target's log ends.
    pub target_at: Position,
    pub source: ReplicaUid,
    /// Up to where the target has the source's log.
    pub source_at: Position,
}

/// The body that says this.
pub fn write_info(alloc: Global, info: &Info) -> Result<Bytes, Memory>
    ensures { IfOk result (λ bytes. bytes ≡ info_text info.now) }
{
    let mut out = Writer::new(Vec::new(alloc));
    write_object(info, &mut out)?;
    Ok(Bytes::from_vec(out.into_inner()))
}

fn write_object(info: &Info, out: &mut Writer) -> Result<(), Memory>
    ensures tokens { OnOk result
        (out.new.tokens ≡ out.old.tokens ++ json_tokens (outline (data_of (info_tree info.now)))) }
    ensures before { out.new.before ≡ out.old.before }
{
    out.begin_object()?;
    out.key("source_replica_generation")?;
    out.u64(generation(&info.source_at))?;
    out.key("source_replica_uid")?;
    out.string(info.source.as_str())?;
    out.key("source_transaction_id")?;
    out.string(trans_text(&info.source_at))?;
    out.key("target_replica_generation")?;
    out.u64(generation(&info.target_at))?;
    out.key("target_replica_transaction_id")?;
    out.string(trans_text(&info.target_at))?;
    out.key("target_replica_uid")?;
    out.string(info.target.as_str())?;
    out.end_object()?;
    Ok(())
}

/// Reads what a body says.
#[tactic(auto, unfolding(crate::specs::Bodies::info_in))]
pub fn read_info(alloc: Global, body: &[u8]) -> Result<Info, BodyFault>
    ensures ok { IfOk result (λ info. info_in body.now ≡ Some info) }
    ensures bad { result ≡ Err Bad → info_in body.now ≡ None }
{
    let Some(value) = value_in(alloc, body)? else {
        return Err(BodyFault::Bad);
    };
    match info_of(alloc, &value)? {
        Some(info) => Ok(info),
        None => Err(BodyFault::Bad),
    }
}

#[tactic(auto, unfolding(crate::specs::Bodies::info_of))]
fn info_of(alloc: Global, value: &Value) -> Result<Option<Info>, Memory>
    ensures { IfOk result (λ info. info ≡ info_of (view value.now)) }
{
    let Some(target) = side_in(
        alloc,
        value,
        "target_replica_uid",
        "target_replica_generation",
        "target_replica_transaction_id",
    )?
    else {
        return Ok(None);
    };
    let Some(source) = side_in(
        alloc,
        value,
        "source_replica_uid",
        "source_replica_generation",
        "source_transaction_id",
    )?
    else {
        return Ok(None);
    };
    Ok(Some(Info {
        target: target.0,
        target_at: target.1,
        source: source.0,
        source_at: source.1,
    }))
}

// The replica uid and the position that three members say.
#[tactic(auto, unfolding(crate::specs::Bodies::side_in))]
fn side_in(
    alloc: Global,
    value: &Value,
    uid_name: &str,
    generation_name: &str,
    trans_name: &str,
) -> Result<Option<(ReplicaUid, Position)>, Memory>
    ensures { IfOk result
        (λ side. side ≡ side_in uid_name.now generation_name.now trans_name.now (view value.now)) }
{
    let Some(uid) = uid_in(alloc, value, uid_name)? else {
        return Ok(None);
    };
    let Some(at) = position_in(alloc, value, generation_name, trans_name)? else {
        return Ok(None);
    };
    Ok(Some((uid, at)))
}

// The replica uid that a member says.
#[tactic(auto, unfolding(crate::specs::Bodies::uid_in))]
fn uid_in(alloc: Global, value: &Value, name: &str) -> Result<Option<ReplicaUid>, Memory>
    ensures { IfOk result (λ uid. uid ≡ uid_in name.now (view value.now)) }
{
    let Some(member) = value.get(name) else {
        return Ok(None);
    };
    match member.as_str() {
        Some(text) => uid_of(alloc, text),
        None => Ok(None),
    }
}
