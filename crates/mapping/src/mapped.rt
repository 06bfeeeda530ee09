// The accesses of a mapped octet.
use bits::share::Share;
use std::marker::Model;

// One access: the physical octet at an address, and the part of it that the access has.
#[derive(Clone, Copy, PartialEq, Eq, Debug, Default)]
pub struct Access {
    pub address: u32,
    pub share: Share,
}

// The accesses of a logical octet, at most two for each of the eight entities: the first `count` of the list. A contract sees them as a list, in
// their order. (No vector of the library, since this is copied as a plain value.)
#[derive(Clone, Copy)]
pub struct Accesses {
    pub(crate) list: [Access; 16],
    pub(crate) count: usize,
}

impl Model for Accesses {
    ghost use Rattle.std.specs.Prelude.{◌≡◌, ◌≤◌, ◌++◌, length, take, drop};
    ghost use Rattle.std.proofs.Common.{arith, take-append-drop, length-take-le};
    ghost use Rattle.mapping.specs.Listed.{Listed};

    ghost Value = { Listed };

    ghost view = { λ a. record { items = take a.count a.list; spare = drop a.count a.list } };

    ghost invariant = { λ a. (a.count ≤ 16) × (length a.list ≡ 16) };

    ghost inverse = { λ a. record { list = a.items ++ a.spare; count = length a.items } };

    ghost inverse_ok = { λ a h i. record {
      list = take-append-drop a.count a.list i;
      count = length-take-le a.count a.list (omega (arith, h.0, h.1)) i;
    } };
}
