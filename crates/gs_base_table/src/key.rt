use gs_base::{ClientId, Handle};

/// What a table's keys are: small, and told apart by their order.
pub trait Key: Ord + Copy {
    ghost use Rattle.std.specs.FinMap.{IsAntisymmetric};

    ghost exact: { IsAntisymmetric Self.cmp };
}

impl Key for Handle {
    ghost use Rattle.std.specs.FinMap.{nat_cmp-IsAntisymmetric};

    ghost exact = { nat_cmp-IsAntisymmetric };
}

impl Key for ClientId {
    ghost use Rattle.gs_base_table.specs.Keys.{client_exact};

    ghost exact = { client_exact };
}
