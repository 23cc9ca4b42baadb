// Which lost message matters, for C.
ghost use Rattle.std.specs.Prelude.{◌≡◌};
ghost use Rattle.exercise.specs.Listed.{EveryPlayListed};
ghost use Rattle.exercise.specs.Losses.{Meant, first_loss};
ghost use Rattle.jazmotip.specs.Exercises.{loss_told};

use jazmotip::exercises::FirstLoss;

#[unsafe(no_mangle)]
pub extern "C" fn jazmotip_first_loss(script: &[u8]) -> FirstLoss
    ensures value { result ≡ loss_told (first_loss script.now) }
    ensures meant { Meant script.now }
    ensures every_play_listed { EveryPlayListed script.now }
{
    jazmotip::exercises::jazmotip_first_loss(script)
}
