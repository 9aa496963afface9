ghost use Rattle.std.specs.Prelude.{◌≡◌, ◌-◌, cond};
ghost use Rattle.std.specs.Iterator.{at_most};
ghost use Rattle.best.specs.Arcs.{Steps};

use crate::net::Net;

// The arcs that leave a node, or those that enter it, by their numbers: where each leads, or comes from, and its weight.
// The way is a parameter and no field, so that no step of a loop asks for it.
#[derive(Drop)]
pub(crate) struct Arcs<'n, N: Net, const ENTERING: bool> {
    net: &'n N,
    node: usize,
    from: usize,
}

pub(crate) type Leaving<'n, N> = Arcs<'n, N, false>;

pub(crate) type Entering<'n, N> = Arcs<'n, N, true>;

impl<'n, N: Net, const ENTERING: bool> Arcs<'n, N, ENTERING> {
    pub(crate) fn new(net: &'n N, node: usize) -> Arcs<'n, N, ENTERING>
        ensures { result ≡ record { net = net.entry; node = node; from = 0 } }
    {
        Arcs { net, node, from: 0 }
    }
}

impl<'n, N: Net, const ENTERING: bool> Iterator for Arcs<'n, N, ENTERING> {
    type Item = (usize, N::Weight);

    ghost next_gives = { λ s r t. (t.net ≡ s.net) × (t.node ≡ s.node)
        × Steps (cond ENTERING (N.reverse s.net.now) (N.meaning s.net.now)) s.node s.from r t.from };

    ghost remaining = { λ s. at_most ((cond ENTERING (N.reverse s.net.now) (N.meaning s.net.now)).numbers s.node - s.from) };

    fn next(&mut self) -> Option<(usize, N::Weight)> {
        let (number, end, weight) = if ENTERING {
            self.net.entering(self.node, self.from)?
        } else {
            self.net.leaving(self.node, self.from)?
        };
        self.from = number + 1;
        Some((end, weight))
    }
}
