// A value and all of its bytes.
ghost use Rattle.gs_fields.specs.Work.{Decodes, Makes};

use crate::fault::Fault;
use crate::field::{Cursor, Field};
use std::alloc::Global;

/// The value of which these are the bytes, all of them. It is refused by `Form` exactly where they are those of no value that
/// can be written.
pub fn read_whole<T: Field + Drop>(alloc: Global, bytes: &[u8]) -> Result<T, Fault>
    ensures { Decodes T.plain T.Is T.written bytes.now result }
{
    let mut cursor = Cursor { rest: bytes };
    let value = T::read(alloc, &mut cursor)?;
    if !cursor.rest.is_empty() {
        return Err(Fault::Form);
    }
    Ok(value)
}

/// The bytes of a value. It is refused by `Form` exactly where it can't be written.
pub fn written<T: Field>(alloc: Global, value: &T) -> Result<Vec<u8>, Fault>
    ensures { Makes (T.Is (T.plain value.now)) (T.written (T.plain value.now)) result }
{
    let mut out = Vec::new(alloc);
    value.put(alloc, &mut out)?;
    Ok(out)
}
