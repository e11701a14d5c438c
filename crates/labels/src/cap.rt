ghost use Rattle.std.specs.Prelude.{◌≡◌, ◌^◌, ◌<◌};
ghost use Rattle.labels.specs.Schemes.{capped, cap_flows, cap_joins};
ghost use Rattle.labels.specs.Caps.{cap_lawful};

use crate::scheme::Scheme;

/// A scheme capped by a code: a code that is not at or below the cap counts as the cap.
#[derive(PartialEq, Eq, Debug, Drop)]
pub struct Cap<S> {
    scheme: S,
    code: u64,
    ghost is_code: { code < 2 ^ 64 },
}

impl<S: Scheme> Cap<S> {
    /// A scheme capped by any code.
    pub fn new(scheme: S, code: u64) -> Cap<S>
        ensures { (result.scheme ≡ scheme) × (result.code ≡ code) }
    {
        Cap { scheme, code }
    }

    // What a code counts as.
    fn counted(&self, code: u64) -> u64
        ensures { result ≡ capped (S.Scheme.flows self.now.scheme) self.now.code code }
    {
        if self.scheme.flows_to(code, self.code) {
            code
        } else {
            self.code
        }
    }
}

impl<S: Scheme> Scheme for Cap<S> {
    ghost flows = { λ s. cap_flows (S.Scheme.flows s.scheme) s.code };

    ghost joins = { λ s. cap_joins (S.Scheme.flows s.scheme) (S.Scheme.joins s.scheme) s.code };

    ghost bits = { λ s. S.Scheme.bits s.scheme };

    ghost lawful = { λ s. cap_lawful (S.Scheme.lawful s.scheme) s.code s.is_code };

    fn flows_to(&self, a: u64, b: u64) -> bool {
        self.scheme.flows_to(self.counted(a), self.counted(b))
    }

    fn join(&self, a: u64, b: u64) -> u64 {
        self.scheme.join(self.counted(a), self.counted(b))
    }

    fn width(&self) -> u32 {
        self.scheme.width()
    }
}
