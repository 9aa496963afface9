ghost use Rattle.std.specs.Prelude.{◌≡◌, length};
ghost use Rattle.best.specs.Paths.{Meaning};

mod spreading;
mod sweeping;

use crate::kind::Kind;
use crate::net::Net;

// A value for each node of a net, which only gets better, by one arc at a time.
#[derive(Drop)]
pub(crate) struct Relaxation<'v, N: Net, K: Kind<Weight = N::Weight>> {
    net: &'v N,
    values: &'v mut [K::Value],
    ghost whole: { length values.now ≡ (N.Net.meaning net.now).nodes },
}

impl<'v, N: Net, K: Kind<Weight = N::Weight>> Relaxation<'v, N, K> {
    pub(crate) fn new(net: &'v N, values: &'v mut [K::Value]) -> Relaxation<'v, N, K>
        requires { length values.old ≡ (N.Net.meaning net.now).nodes }
        ensures net { result.net ≡ net.entry }
        ensures values { result.values.now ≡ values.old }
        ensures same_reference { result.values.ghost_name ≡ values.entry.ghost_name }
    {
        Relaxation { net, values }
    }
}
