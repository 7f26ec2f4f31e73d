ghost use Rattle.std.specs.Prelude.{◌≡◌, ◌==◌, [], ◌∷◌, length, slice_get};
ghost use Rattle.std.specs.Iterator.{YieldsFirst, item_count};
ghost use Rattle.gs_base.specs.Members.{servers_where, is_member, with_member, without_member, has_bit, bits_of};

use crate::numbers::ServerId;
use std::fmt;
use std::marker::Model;

/// A set of servers.
#[derive(Clone, Copy, Debug)]
pub struct Members {
    bits: u16,
}

impl Model for Members {
    ghost use Rattle.std.specs.Prelude.{List, ℕ, ◌<◌, ◌^◌};
    ghost use Rattle.std.proofs.Common.{ap};
    ghost use Rattle.gs_base.specs.Members.{servers_where, has_bit, bits_of};
    ghost use Rattle.gs_base.specs.MemberLaws.{bits_of-servers_where};

    ghost Value = { List ℕ };

    ghost view = { λ m. servers_where (has_bit m.bits) };

    ghost invariant = { λ m. m.bits < 2 ^ 16 };

    ghost inverse = { λ s. record { bits = bits_of s } };

    ghost inverse_ok = { λ m h. ap (λ n. record { bits = n }) (bits_of-servers_where m.bits h) };
}

impl Members {
    /// The set without a member.
    pub fn none() -> Members
        ensures { result ≡ [] }
    {
        Members { bits: 0 }
    }

    pub fn contains(self, server: ServerId) -> bool
        ensures { result ≡ is_member self server }
    {
        self.bits >> server.number() & 1 == 1
    }

    pub fn is_empty(self) -> bool
        ensures { result ≡ (length self == 0) }
    {
        self.bits == 0
    }

    pub fn insert(&mut self, server: ServerId)
        ensures { self.new ≡ with_member self.old server }
    {
        self.bits |= 1 << server.number();
    }

    pub fn remove(&mut self, server: ServerId)
        ensures without { self.new ≡ without_member self.old server }
        ensures first { slice_get self.old 0 ≡ Some server → self.old ≡ server ∷ self.new }
    {
        self.bits &= !(1 << server.number());
    }

    pub fn len(self) -> usize
        ensures { result ≡ length self }
    {
        let mut count = 0;
        for i in 0..16u16 {
            if self.bits >> i & 1 == 1 {
                count += 1;
            }
        }
        count
    }

    /// The member of the lowest number.
    pub fn first(self) -> Option<ServerId>
        ensures { result ≡ slice_get self 0 }
    {
        ServerId::new(self.bits.trailing_zeros() as u64)
    }

    /// Takes the member of the lowest number out.
    pub fn pop_first(&mut self) -> Option<ServerId>
        ensures { YieldsFirst (λ members. members) self.old result self.new }
    {
        match self.first() {
            Some(server) => {
                self.remove(server);
                Some(server)
            }
            None => None,
        }
    }

    /// The set as a number, whose bit i says whether server i is a member. `from_bits` gives the set back.
    pub fn bits(self) -> u16
        ensures bits { result ≡ bits_of self }
        ensures back { servers_where (has_bit result) ≡ self }
    {
        self.bits
    }

    /// The set of those servers whose bits are 1.
    pub fn from_bits(bits: u16) -> Members
        ensures { result ≡ servers_where (has_bit bits) }
    {
        Members { bits }
    }
}

impl PartialEq for Members {
    ghost use Rattle.std.specs.Cmp.{partial_equiv_from_equiv};
    ghost use Rattle.std.specs.Cmp.Lexicographic.{nat_list_eq_equiv};
    ghost use Rattle.std.specs.Prelude.{nat_eq};
    ghost use Rattle.std.specs.Cmp.Lexicographic.{pointwise};

    ghost eq = { pointwise nat_eq };

    ghost laws = { partial_equiv_from_equiv nat_list_eq_equiv };

    fn eq(&self, other: &Members) -> bool {
        self.bits == other.bits
    }
}

impl Eq for Members {
    ghost use Rattle.std.specs.Cmp.Lexicographic.{nat_list_eq_equiv};

    ghost laws = { nat_list_eq_equiv };
}

impl fmt::Display for Members {
    ghost use Rattle.std.specs.Prelude.{Some};
    ghost use Rattle.gs_base.specs.Texts.{members_text};

    ghost output = { λ m. Some (members_text m) };

    fn fmt<W: fmt::Write>(&self, f: &mut fmt::Formatter<W>) -> fmt::Result {
        let mut left = *self;
        let Some(first) = left.pop_first() else {
            return f.write_str("-");
        };
        write!(f, "{first}")?;
        while let Some(server) = left.pop_first() {
            write!(f, ",{server}")?;
        }
        Ok(())
    }
}

impl IntoIterator for Members {
    type Item = ServerId;

    type IntoIter = MembersIter;

    ghost into_iter_gives = { λ members iter. iter ≡ members };

    fn into_iter(self) -> MembersIter {
        MembersIter { left: self }
    }
}

/// The members that are left of a set, ascending.
#[derive(Debug, Drop)]
pub struct MembersIter {
    left: Members,
}

impl Model for MembersIter {
    ghost use Rattle.std.specs.Prelude.{List, ℕ};

    ghost Value = { List ℕ };

    ghost view = { λ m. m.left };
}

impl Iterator for MembersIter {
    type Item = ServerId;

    ghost next_gives = { YieldsFirst (λ rest. rest) };

    ghost remaining = { item_count (λ rest. rest) };

    fn next(&mut self) -> Option<ServerId> {
        self.left.pop_first()
    }
}
