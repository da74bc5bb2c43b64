// A number that need not be given. C has no Option, so a flag stands beside it.
ghost use Rattle.std.specs.Prelude.{◌≡◌};
ghost use Rattle.bootplan_c.specs.Number.{given_number};

pub(crate) fn given_number(given: bool, number: u64) -> Option<u64>
    ensures { result ≡ given_number given number }
{
    given.then_some(number)
}
