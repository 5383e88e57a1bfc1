// An atom as the readers hand it on, and the one rule that it says under its operator and the `not` above it.
ghost use Rattle.std.specs.Prelude.{◌≡◌};
ghost use Rattle.reading.specs.Parts.{AtomSmall, swapped, turned_atom};

// The steps of an atom's two names, where they are declared, and its amount.
#[derive(Clone, Copy, Debug, PartialEq, Eq)]
pub struct Atom {
    pub first: Option<usize>,
    pub second: Option<usize>,
    pub amount: i32,
}

impl Atom {
    // The atom's rule: under an odd number of `not` or not, the steps swapped where just one of operator and `not` negates, the amount one less where just one of them
    // is strict.
    pub fn turned(self, operator: &[u8], odd: bool) -> Atom
        requires { AtomSmall self }
        ensures { result ≡ turned_atom operator.now odd self }
    {
        let above = operator == b">".as_slice();
        let below = operator == b"<".as_slice();
        let back = operator == b">=".as_slice();
        let flip = (above | back) != odd;
        let less = (above | below) != odd;
        let atom = if flip { self.swapped() } else { self };
        if less {
            Atom {
                amount: atom.amount - 1,
                ..atom
            }
        } else {
            atom
        }
    }

    // The names swapped, and the amount negated.
    fn swapped(self) -> Atom
        requires { AtomSmall self }
        ensures { result ≡ swapped self }
    {
        Atom {
            first: self.second,
            second: self.first,
            amount: -self.amount,
        }
    }
}
