ghost use Rattle.std.specs.Iterator.{YieldsFirstBy, item_count};

use crate::key::Key;
use std::collections::btree_map::Iter;
use std::marker::Model;

/// What lives in a table, in the order of the keys.
#[derive(Drop)]
pub struct Entries<'a, K: Ord, V> {
    pub(crate) slots: Iter<'a, K, Option<V>>,
}

impl<'a, K: Ord, V> Model for Entries<'a, K, V> {
    ghost use Rattle.std.specs.Prelude.{List};
    ghost use Rattle.std.specs.Coded.{coded_list, coded×};
    ghost use Rattle.gs_base_table.specs.Slots.{live_entries};

    ghost Value = { List (K × V) };

    ghost coded = { coded_list (coded× K.code V.code) };

    ghost view = { λ e. live_entries e.slots };
}

impl<'a, K: Key, V> Iterator for Entries<'a, K, V> {
    type Item = (K, &'a V);

    ghost next_gives = { YieldsFirstBy (λ entry. (entry.0, entry.1.now)) (λ rest. rest) };

    ghost remaining = { item_count (λ rest. rest) };

    fn next(&mut self) -> Option<(K, &'a V)> {
        while let Some((key, slot)) = self.slots.next() {
            if let Some(value) = slot {
                return Some((*key, value));
            }
        }
        None
    }
}
