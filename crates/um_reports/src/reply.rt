// What a run is about to write.
use crate::Status;

/// What a run is about to write, and the status that it then ends with.
#[derive(Drop)]
pub struct Reply {
    pub text: Vec<u8>,
    pub status: Status,
}
