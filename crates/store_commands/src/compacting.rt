//! `compact`: writes the image of the store anew, without what no state needs any more.
ghost use Rattle.store_commands.specs.Carries.{CarriesCompacting};

use crate::{Ended, Store};
use command_lines::print_compacted;
use link::Sink;

/// Compacts the store, and shows how long its image was and is.
pub fn compact<T: Store, K: Sink>(opened: &mut T::Opened, out: &mut K) -> Ended
    requires { T.Opened.Replica.is_open opened.old }
    ensures { CarriesCompacting T.Opened.Replica.known T.Opened.Replica.is_open
        T.Opened.Replica.crash T.image_in
        opened.old opened.new (K.known out.old) (K.known out.new) result }
{
    let sizes = T::compact(opened)?;
    Ok(print_compacted(out, sizes.before, sizes.after)?)
}
