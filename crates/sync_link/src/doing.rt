//! What a link in memory is doing.
use crate::rest::Rest;

#[derive(Drop)]
pub(crate) enum Doing {
    Idle,
    Sending,
    /// With what is left of the reply.
    Receiving(Rest),
}
