//! What holds of all images.
ghost use Rattle.std.specs.Prelude.{◌≡◌, ℕ, List, Some};
ghost use Rattle.std.specs.List.{AllByRecursion};
ghost use Rattle.gs_parts_image.specs.Encoding.{parts};
ghost use Rattle.gs_parts_image.specs.Reading.{store_in};
ghost use Rattle.gs_parts_image.specs.Stores.{Store};
ghost use Rattle.gs_parts_image.specs.Writable.{IsStore};
ghost use Rattle.gs_fields.specs.Laws.{IsBytes};

/// A store is read as it is written, where what a restart drops of its servers is empty: what is read of the parts of its image is the
/// same store. What is read at all is a store whose image has these parts.
pub fn a_store_is_read_as_it_is_written()
    ensures again { (s : Store) → IsStore s → store_in (parts s) ≡ Some s }
    ensures takes { (ps : List (List ℕ)) (s : Store) → AllByRecursion IsBytes ps → store_in ps ≡ Some s → IsStore s × (parts s ≡ ps) }
{}
