ghost use Rattle.std.specs.Prelude.{◌≡◌, length};
ghost use Rattle.trialcard.specs.Card.{trial_chip, RanOn};

use flash::device::Flash;
use flash::geometry::Geometry;
use rules::plan::Plan;
use store::store::Store;
use worklist::ended::Ended;
use worklist::run::run;

// The chip of the trial card.
pub(crate) const CHIP: Geometry = Geometry {
    blocks: 5,
    pages: 4,
    size: 4,
    endurance: 1000,
};

// The plan of the trial card.
const PLAN: Plan = Plan {
    data: 2,
    region: 3,
    threshold: 2,
    idle: 0,
};

// Formats a flash by the plan, carries out a work list on it and writes the answers.
pub(crate) fn run_on<F: Flash + Drop>(flash: F, list: &[u8], answers: &mut [u8]) -> Ended
    ensures { F.card flash ≡ trial_chip → RanOn list.now answers.old answers.new result }
{
    let mut store = Store::new(flash);
    let _ = store.format(PLAN);
    let mut area = [0u8; 16];
    run(&mut store, list, answers, &mut area)
}
