// What stands in the store of a file is written, and nothing is changed.
use crate::fault::Fault;
use crate::looking::{Again, run_again};
use crate::opening::{Held, looked_at};
use gs_keep_desk::name_line;
use gs_keep_options::Asked;
use gs_tree::TreeEntry;
use std::alloc::Global;
use std::fs::File;
use std::io::{self, BufWriter, Write};
use std::rt::{Clock, Files};

/// Writes a line for each of what stands.
fn write_names<W: Write>(alloc: Global, names: &[TreeEntry], writer: &mut W) -> Result<(), Fault> {
    for entry in names {
        let Ok(mut line) = name_line(alloc, entry) else {
            return Err(Fault::Memory);
        };
        if line.push('\n').is_err() {
            return Err(Fault::Memory);
        }
        writer.write_all(line.as_bytes()).map_err(Fault::Tell)?;
    }
    writer.flush().map_err(Fault::Tell)
}

/// Writes what stands at each path of a file's store, hidden names too, as it stands or stood after a line of the file. It isn't locked, so it may grow
/// meanwhile.
pub(crate) fn names<R: Files<File = File> + Print + Eprint + Clock + AllocGlobal>(
    rt: &R,
    asked: &Asked,
    upto: Option<u64>,
) -> Result<(), Fault> {
    let alloc = rt.alloc();
    let Held {
        standing,
        mut lines,
        ..
    } = looked_at(rt, asked, false, upto)?;
    let Again { desk, .. } = run_again(rt, asked, standing, &mut lines)?;
    let Ok(found) = desk.names(alloc) else {
        return Err(Fault::Memory);
    };
    let Some(names) = found else {
        return Err(Fault::NoMaster);
    };
    let Ok(mut writer) = BufWriter::new(alloc, io::writer(rt)) else {
        return Err(Fault::Memory);
    };
    write_names(alloc, &names, &mut writer)
}
