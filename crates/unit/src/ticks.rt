// Ticks that have passed (01, Clock).
ghost use Rattle.std.specs.Prelude.{◌≡◌, ◌-◌};

// From one tick to another, 0 where that comes first.
pub(crate) fn since(then: u64, tick: u64) -> u64
    ensures { result ≡ tick - then }
{
    if tick < then {
        return 0;
    }
    tick - then
}
