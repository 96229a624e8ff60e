ghost use Rattle.std.specs.Prelude.{◌≡◌};
ghost use Rattle.faults.specs.Located.{located as located_at};

/// A fault together with the position at which it arose.
#[derive(Clone, Copy, PartialEq, Eq, Debug)]
pub struct Located<P, F> {
    pub position: P,
    pub fault: F,
}

/// An answer whose fault can be told with its position, for a `?` that carries both upward.
pub trait Locate<P>: Sized {
    type Output;

    ghost located: { P → Self → Self.Output };

    fn at(self, position: P) -> Self::Output
        ensures { result ≡ located position self };
}

impl<T, F, P: Drop> Locate<P> for Result<T, F> {
    type Output = Result<T, Located<P, F>>;

    ghost located = { located_at };

    fn at(self, position: P) -> Result<T, Located<P, F>> {
        self.map_err(|fault| Located { position, fault })
    }
}
