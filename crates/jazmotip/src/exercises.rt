// Which lost message matters (02, C-23). What a script comes to is a code and a step here.
ghost use Rattle.std.specs.Prelude.{◌≡◌};
ghost use Rattle.exercise.specs.Listed.{EveryPlayListed};
ghost use Rattle.exercise.specs.Losses.{Meant, first_loss};
ghost use Rattle.jazmotip.specs.Exercises.{loss_told};

use exercise::{first_loss, number, step_told};

// `step` counts from 1; it is 0 where no single loss matters, and where the script is refused.
#[repr(C)]
#[derive(Clone, Copy)]
pub struct FirstLoss {
    pub number: u8,
    pub step: usize,
}

#[unsafe(no_mangle)]
pub extern "C" fn jazmotip_first_loss(script: &[u8]) -> FirstLoss
    ensures value { result ≡ loss_told (first_loss script.now) }
    ensures meant { Meant script.now }
    ensures every_play_listed { EveryPlayListed script.now }
{
    let answer = first_loss(script);
    FirstLoss {
        number: number(answer),
        step: step_told(answer),
    }
}
