//! Transaction ids by their generations.
use std::alloc::Global;
use u1_base::Memory;

// The digits of the transaction ids of the generations 1, 2 and so on, for a seed whose bits are
// all 0, as Python's `uuid.uuid5` makes them of the texts `trans:1`, `trans:2` and so on.
const DIGITS: [&str; 20] = [
    "a12aa9bff3485ffcbd67876eea76a865",
    "98057cb70a845067a81e0635ab0cbc89",
    "4a2f05bda87d5e5da1aec07f076e0982",
    "bab20aaca9315ef39202d7e5eb9bdc33",
    "5a58563efd525018a50d31c0d3f37e93",
    "0d147573dfd755548002d964acfd8711",
    "3ce9327996ba5f369e87428bb6e8220a",
    "da0dc75c292557c498919eaca9f5f12f",
    "7c1cafd20be75052a336a7ea65a4857b",
    "f4111e5dcfab59a98e442a56f96c3479",
    "b1b430d822a45a0083949bf5251b7b20",
    "0b2bb690ed5852b5b4c3c6352884c039",
    "d52f267273c35a9d9b09d3d0924b336a",
    "921c378bc82754f4826a3827addc6558",
    "6606bfab8bbd5b9aae8cd5d9cad8d911",
    "5dc34c4bf6df542fae375e5cc6dad970",
    "75ce986fd52553b684a04e6d6db6c726",
    "04686e7c1b2056e28b5327a0b3394bf6",
    "6f1cea332ef15224989a0c25f161d982",
    "2da67a3355f459c6b44a5b33ad542c5a",
];

/// The text in which these ids are `T1`, `T2` and so on.
pub fn named(alloc: Global, text: &str) -> Result<String, Memory> {
    let mut line = String::new(alloc);
    for (place, part) in text.split("T-").enumerate() {
        if place == 0 {
            line.push_str(part)?;
        } else {
            push_id(&mut line, part)?;
        }
    }
    Ok(line)
}

// The text behind `T-`.
fn push_id(line: &mut String, text: &str) -> Result<(), Memory> {
    let mut generation: u64 = 0;
    for digits in &DIGITS {
        generation = generation.saturating_add(1);
        if let Some(rest) = text.strip_prefix(*digits) {
            write!(line, "T{generation}")?;
            line.push_str(rest)?;
            return Ok(());
        }
    }
    line.push_str("T-")?;
    line.push_str(text)?;
    Ok(())
}
