// The four marks of an entity on an index's day, and the side that each is on.
ghost use Rattle.std.specs.Prelude.{◌≡◌};
ghost use Rattle.terms.specs.Marks.{side_of};

#[derive(Clone, Copy, PartialEq, Eq, Debug)]
pub enum Side {
    Long,
    Short,
}

#[derive(Clone, Copy, PartialEq, Eq, Debug)]
pub enum Mark {
    NetLong,
    NetShort,
    GrossLong,
    GrossShort,
}

impl Mark {
    // All four, in the order in which they are gone through.
    pub const ALL: [Mark; 4] = [
        Mark::NetLong,
        Mark::NetShort,
        Mark::GrossLong,
        Mark::GrossShort,
    ];

    // The side whose cover counts for this mark.
    pub fn side(self) -> Side
        ensures { result ≡ side_of self }
    {
        match self {
            Mark::NetLong | Mark::GrossLong => Side::Long,
            Mark::NetShort | Mark::GrossShort => Side::Short,
        }
    }
}
