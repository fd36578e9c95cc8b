// The two sides of a lattice.
ghost use Rattle.std.specs.Prelude.{◌≡◌, Bool, true, false};
ghost use Rattle.filters.specs.Side.{side};

use cells::kind::Kind;

// The side of the lattice that a filter works on, chosen by the type: what is picked of two cells, and what pads.
pub trait Side {
    ghost lower: { Bool };

    // The pick of two cells.
    fn pick<K: Kind>(a: K, b: K) -> K
        ensures { K.Kind.means result ≡ (side lower K.Kind.lattice).meet (K.Kind.means a) (K.Kind.means b) };

    // The cell that changes no pick, which stands where there is none.
    fn pad<K: Kind>() -> K
        ensures { K.Kind.means result ≡ (side lower K.Kind.lattice).greatest };
}

// The side of an erosion: meets, padded with the greatest cell.
pub struct Meets;

// The side of a dilation: joins, padded with the least cell.
pub struct Joins;

impl Side for Meets {
    ghost lower = { true };

    fn pick<K: Kind>(a: K, b: K) -> K {
        a.meet(b)
    }

    fn pad<K: Kind>() -> K {
        K::greatest()
    }
}

impl Side for Joins {
    ghost lower = { false };

    fn pick<K: Kind>(a: K, b: K) -> K {
        a.join(b)
    }

    fn pad<K: Kind>() -> K {
        K::least()
    }
}
