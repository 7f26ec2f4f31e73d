use gs_base::ReqId;
use gs_path::Path;

/// That an operation reads or writes a path.
#[derive(Debug, Drop)]
pub struct Lock {
    pub op: ReqId,
    pub path: Path,
    pub writes: bool,
}
