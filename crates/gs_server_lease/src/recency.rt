ghost use Rattle.gs_server_lease.specs.Recencies.{IsRecency};

/// What the number of an edit is to that of an edit of the same client.
#[derive(Clone, Copy, Debug)]
pub enum Recency {
    /// It is above it.
    New,
    /// It is the same, so the edit is asked for again.
    Repeated,
    /// It is below it.
    Old,
}

impl Recency {
    /// What a number is to that of the client's last edit.
    pub fn of(number: u64, last: u64) -> Recency
        ensures { IsRecency number last result }
    {
        if number == last {
            return Recency::Repeated;
        }
        if number < last {
            return Recency::Old;
        }
        Recency::New
    }
}
