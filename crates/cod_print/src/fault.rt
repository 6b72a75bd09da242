//! The error of what writes to a sink.
use cod_types::Failed;
use thiserror::Error;

/// The sink failed. It comes only where the sink's count of faults rose in the call.
#[derive(Clone, Copy, Debug, PartialEq, Eq, Error)]
#[error("the text was not written")]
pub struct WriteFault;

impl From<Failed> for WriteFault {
    fn from(_failed: Failed) -> WriteFault {
        WriteFault
    }
}
