//! Puts a field that does not come after all others in its place among them.
ghost use Rattle.std.specs.Prelude.{◌≡◌, ◌≤◌, IfSome, OnOk, length};
ghost use Rattle.std.specs.Cmp.Lexicographic.{slice_cmp};
ghost use Rattle.std.specs.Ordering.{nat_cmp};
ghost use Rattle.serde_json.specs.Data.{put};
ghost use Rattle.content.specs.Canonical.{data_of, fields_data};
ghost use Rattle.content.specs.inner.Plain.{place_among};
ghost use Rattle.content.specs.TreeOf.{fields_view, pair_of};

use crate::Field;
use crate::plain::Stop;
use std::cmp::Ordering;

// Among so many fields or more none is put. Each one that is put moves those after its place, so
// names that fall would take time by the square of their number.
const MANY_FIELDS: usize = 64;

/// Puts the field in its place among others, whose names ascend, unless they are `MANY_FIELDS` or
/// one of them has its name.
pub(crate) fn put_field(fields: &mut Vec<Field>, field: Field) -> Result<(), Stop>
    ensures { OnOk result (fields_data (fields_view fields.new.items)
        ≡ put (pair_of field).0 (data_of (pair_of field).1)
        (fields_data (fields_view fields.old.items))) }
{
    if fields.len() >= MANY_FIELDS {
        return Err(Stop::NotPlain);
    }
    let place = place_of(fields.as_slice(), &field).ok_or(Stop::NotPlain)?;
    fields.insert(place, field)?;
    Ok(())
}

// Where the field goes, if no other has its name. The search begins at the first field, as that of
// `place_among` does, and so rests on no order among the others.
fn place_of(fields: &[Field], field: &Field) -> Option<usize>
    ensures place { result ≡ place_among (pair_of field.now).0 (fields_view fields.now) }
    ensures within { IfSome result (λ place. place ≤ length fields.now) }
{
    let mut place = 0;
    for other in fields {
        match names_cmp(field, other) {
            Ordering::Less => return Some(place),
            Ordering::Equal => return None,
            Ordering::Greater => place += 1,
        }
    }
    Some(place)
}

fn names_cmp(one: &Field, other: &Field) -> Ordering
    ensures { result ≡ slice_cmp nat_cmp (pair_of one.now).0 (pair_of other.now).0 }
{
    one.name.as_str().cmp(other.name.as_str())
}
