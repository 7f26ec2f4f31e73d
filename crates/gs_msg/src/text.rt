// How lists, bytes, paths and views stand in a line.
ghost use Rattle.std.specs.Prelude.{List, ℕ, [], ◌∷◌};
ghost use Rattle.hex.specs.Hex.{encode_lower};
ghost use Rattle.std.specs.Fmt.{WritesOnOk};
ghost use Rattle.gs_base.specs.Texts.{list_text};

use crate::answer::ChunkStatus;
use crate::body::Reported;
use crate::lists::{Bytes, Items, ListedName, Names};
use gs_base::Handle;
use gs_lease::{Term, View};
use gs_path::Path;
use gs_replica::{Image, SealedImage};
use std::fmt;

/// An item as it stands in a list of a line.
pub(crate) trait Item {
    ghost text: { Self → List ℕ };

    fn write<W: fmt::Write>(&self, f: &mut fmt::Formatter<W>) -> fmt::Result
    where
        Self: Sized,
        ensures { WritesOnOk W.write_str_gives f.old result (text self.now) f.new };
}

impl Item for Handle {
    ghost use Rattle.std.specs.Prelude.{decimal};

    ghost text = { decimal };

    fn write<W: fmt::Write>(&self, f: &mut fmt::Formatter<W>) -> fmt::Result {
        let handle = *self;
        write!(f, "{handle}")
    }
}

impl Item for Reported {
    ghost use Rattle.gs_msg.specs.Texts.{reported_text};

    ghost text = { reported_text };

    fn write<W: fmt::Write>(&self, f: &mut fmt::Formatter<W>) -> fmt::Result {
        let handle = self.handle;
        let promise = self.promise;
        let is_bad = self.is_bad;
        write!(f, "{handle}/{promise}/{is_bad}")
    }
}

impl Item for ChunkStatus {
    ghost use Rattle.gs_msg.specs.Texts.{chunk_status_text};

    ghost text = { chunk_status_text };

    fn write<W: fmt::Write>(&self, f: &mut fmt::Formatter<W>) -> fmt::Result {
        let handle = self.handle;
        let references = self.references;
        let members = self.members;
        write!(f, "{handle}/{references}/{members}")
    }
}

impl Item for ListedName {
    ghost use Rattle.gs_msg.specs.Texts.{name_text};

    ghost text = { name_text };

    fn write<W: fmt::Write>(&self, f: &mut fmt::Formatter<W>) -> fmt::Result {
        let name = self.name.as_str();
        if self.is_directory {
            return write!(f, "{name}/");
        }
        f.write_str(name)
    }
}

/// Writes the items with commas between them, and a dash where there is none.
pub(crate) fn write_list<W: fmt::Write, T: Item>(
    f: &mut fmt::Formatter<W>,
    items: &[T],
) -> fmt::Result
    ensures { WritesOnOk W.write_str_gives f.old result (list_text T.text items.now) f.new }
{
    let Some((first, rest)) = items.split_first() else {
        return f.write_str("-");
    };
    first.write(f)?;
    for item in rest {
        f.write_str(",")?;
        item.write(f)?;
    }
    Ok(())
}

impl fmt::Display for Items<Handle> {
    ghost use Rattle.std.specs.Prelude.{Some, decimal};
    ghost use Rattle.gs_base.specs.Texts.{list_text};

    ghost output = { λ l. Some (list_text decimal l) };

    fn fmt<W: fmt::Write>(&self, f: &mut fmt::Formatter<W>) -> fmt::Result {
        write_list(f, self.as_slice())
    }
}

impl fmt::Display for Items<Reported> {
    ghost use Rattle.std.specs.Prelude.{Some};
    ghost use Rattle.gs_base.specs.Texts.{list_text};
    ghost use Rattle.gs_msg.specs.Texts.{reported_text};

    ghost output = { λ l. Some (list_text reported_text l) };

    fn fmt<W: fmt::Write>(&self, f: &mut fmt::Formatter<W>) -> fmt::Result {
        write_list(f, self.as_slice())
    }
}

impl fmt::Display for Items<ChunkStatus> {
    ghost use Rattle.std.specs.Prelude.{Some};
    ghost use Rattle.gs_base.specs.Texts.{list_text};
    ghost use Rattle.gs_msg.specs.Texts.{chunk_status_text};

    ghost output = { λ l. Some (list_text chunk_status_text l) };

    fn fmt<W: fmt::Write>(&self, f: &mut fmt::Formatter<W>) -> fmt::Result {
        write_list(f, self.as_slice())
    }
}

impl fmt::Display for Names {
    ghost use Rattle.std.specs.Prelude.{Some};
    ghost use Rattle.gs_base.specs.Texts.{list_text};
    ghost use Rattle.gs_msg.specs.Texts.{name_text};

    ghost output = { λ l. Some (list_text name_text l) };

    fn fmt<W: fmt::Write>(&self, f: &mut fmt::Formatter<W>) -> fmt::Result {
        write_list(f, self.as_slice())
    }
}

/// Bytes in hex, in lower case, and a dash where there is none.
#[derive(Drop)]
pub(crate) struct Hex<'a>(pub &'a [u8]);

impl fmt::Display for Hex<'_> {
    ghost use Rattle.std.specs.Prelude.{Some};
    ghost use Rattle.gs_msg.specs.Texts.{bytes_text};

    ghost output = { λ h. Some (bytes_text h.0.now) };

    fn fmt<W: fmt::Write>(&self, f: &mut fmt::Formatter<W>) -> fmt::Result {
        let bytes = self.0;
        if bytes.is_empty() {
            return f.write_str("-");
        }
        for byte in bytes {
            write_byte(f, *byte)?;
        }
        Ok(())
    }
}

/// Writes the two digits of a byte.
fn write_byte<W: fmt::Write>(f: &mut fmt::Formatter<W>, byte: u8) -> fmt::Result
    ensures { WritesOnOk W.write_str_gives f.old result (encode_lower (byte ∷ [])) f.new }
{
    write!(f, "{byte:02x}")
}

impl fmt::Display for Bytes {
    ghost use Rattle.std.specs.Prelude.{Some};
    ghost use Rattle.gs_msg.specs.Texts.{bytes_text};

    ghost output = { λ b. Some (bytes_text b) };

    fn fmt<W: fmt::Write>(&self, f: &mut fmt::Formatter<W>) -> fmt::Result {
        let hex = Hex(self.as_slice());
        write!(f, "{hex}")
    }
}

/// A path as its text.
#[derive(Drop)]
pub(crate) struct PathText<'a>(pub &'a Path);

impl fmt::Display for PathText<'_> {
    ghost use Rattle.std.specs.Prelude.{Some};
    ghost use Rattle.gs_path.specs.Path.{path_text};

    ghost output = { λ p. Some (path_text p.0.now) };

    fn fmt<W: fmt::Write>(&self, f: &mut fmt::Formatter<W>) -> fmt::Result {
        let path = self.0;
        if path.is_root() {
            return f.write_str("/");
        }
        for name in path.elements() {
            let name = name.as_str();
            write!(f, "/{name}")?;
        }
        Ok(())
    }
}

/// A view: stamp, count, members, and primary and end or a dash.
#[derive(Drop)]
pub(crate) struct ViewText<'a>(pub &'a View);

impl fmt::Display for ViewText<'_> {
    ghost use Rattle.std.specs.Prelude.{Some};
    ghost use Rattle.gs_msg.specs.Texts.{view_text};

    ghost output = { λ v. Some (view_text v.0.now) };

    fn fmt<W: fmt::Write>(&self, f: &mut fmt::Formatter<W>) -> fmt::Result {
        let view = *self.0;
        let stamp = view.stamp;
        let count = view.count;
        let members = view.members;
        match view.term {
            Some(Term { primary, end }) => {
                let end = end.0;
                write!(f, "{stamp} {count} {members} {primary}/{end}")
            }
            None => write!(f, "{stamp} {count} {members} -"),
        }
    }
}

/// An image: its bytes and its count.
#[derive(Drop)]
pub(crate) struct ImageText<'a>(pub &'a Image);

impl fmt::Display for ImageText<'_> {
    ghost use Rattle.std.specs.Prelude.{Some};
    ghost use Rattle.gs_msg.specs.Texts.{image_text};

    ghost output = { λ i. Some (image_text i.0.now) };

    fn fmt<W: fmt::Write>(&self, f: &mut fmt::Formatter<W>) -> fmt::Result {
        let bytes = Hex(self.0.bytes());
        let count = self.0.count();
        write!(f, "{bytes} {count}")
    }
}

/// A sealed image: its stamp and its image, or a dash where there is none.
#[derive(Drop)]
pub(crate) struct SealedText<'a>(pub &'a Option<SealedImage>);

impl fmt::Display for SealedText<'_> {
    ghost use Rattle.std.specs.Prelude.{Some};
    ghost use Rattle.gs_msg.specs.Texts.{sealed_text};

    ghost output = { λ s. Some (sealed_text s.0.now) };

    fn fmt<W: fmt::Write>(&self, f: &mut fmt::Formatter<W>) -> fmt::Result {
        match self.0 {
            Some(sealed) => {
                let stamp = sealed.stamp();
                let image = ImageText(sealed.image());
                write!(f, "{stamp} {image}")
            }
            None => f.write_str("-"),
        }
    }
}
